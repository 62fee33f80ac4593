//! What a token begins.
ghost use Rattle.std.specs.Prelude.{◌≡◌};
ghost use Rattle.json.specs.Reads.{token_of};
ghost use Rattle.dhat_json.specs.Opening.{begins_list, begins_object};

use json::Token;

/// Whether it begins an object.
pub(crate) fn begins_object(token: &Token<'_>) -> bool
    ensures { result ≡ begins_object (token_of token.now) }
{
    matches!(token, Token::BeginObject)
}

/// Whether it begins a list.
pub(crate) fn begins_list(token: &Token<'_>) -> bool
    ensures { result ≡ begins_list (token_of token.now) }
{
    matches!(token, Token::BeginArray)
}
