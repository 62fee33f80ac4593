//! A value of which it is known what it is, and not what is in it: a list or an object is an empty one.
ghost use Rattle.std.specs.Prelude.{◌∷◌, ◌≤◌, length, OnOk};
ghost use Rattle.json.specs.Reads.{token_of};
ghost use Rattle.dhat_json.specs.Outline.{IsOutlined};

use crate::number::is_in_range;
use crate::pass::{pass_items, pass_members};
use json::{Invalid, Reader, Token, Value};
use std::alloc::Global;

/// How deep arrays and objects may nest in a member of a document.
pub(crate) const MEMBER_DEPTH: usize = 126;

/// How deep they may nest in an item of a list that is a member.
pub(crate) const ITEM_DEPTH: usize = 125;

/// The member that begins with this token, its parts being passed over.
pub(crate) fn outline_from<'a>(
    alloc: Global,
    token: Token<'a>,
    reader: &mut Reader<'a>,
) -> Result<Value<'a>, Invalid>
    ensures outlined { IsOutlined result (token_of token.entry ∷ reader.old) reader.new }
    ensures shorter { OnOk result (length reader.new ≤ length reader.old) }
{
    match token {
        Token::Null => Ok(Value::Null),
        Token::Bool(flag) => Ok(Value::Bool(flag)),
        Token::String(text) => Ok(Value::String(text)),
        Token::Number(text) => {
            if is_in_range(text) {
                Ok(Value::Number(text))
            } else {
                Err(Invalid)
            }
        }
        Token::BeginArray => {
            pass_items(reader, ITEM_DEPTH)?;
            Ok(Value::Array(Vec::new(alloc)))
        }
        Token::BeginObject => {
            pass_members(reader, ITEM_DEPTH)?;
            Ok(Value::Object(Vec::new(alloc)))
        }
        Token::EndObject | Token::EndArray | Token::Key(_) | Token::Bad => Err(Invalid),
    }
}
