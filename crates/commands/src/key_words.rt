//! The key of a figure as the value of an option.
ghost use Rattle.std.specs.Prelude.{◌≡◌, option_map};
ghost use Rattle.commands.specs.KeyWords.{key_or};

use crate::name_words::meaning_or;
use dhat_json::FigureKey;

const KEYS: &[(&str, FigureKey)] = &[
    ("tb", FigureKey::Tb),
    ("tbk", FigureKey::Tbk),
    ("tl", FigureKey::Tl),
    ("gb", FigureKey::Gb),
    ("gbk", FigureKey::Gbk),
    ("eb", FigureKey::Eb),
    ("ebk", FigureKey::Ebk),
    ("rb", FigureKey::Rb),
    ("wb", FigureKey::Wb),
];

/// The figure of an option's value: bytes of all blocks where the option isn't given.
#[tactic(auto, unfolding(crate::specs::KeyWords::key_or))]
pub fn key_or(value: Option<&str>) -> Option<FigureKey>
    ensures { result ≡ key_or (option_map (λ text. text.now) value.entry) }
{
    meaning_or(FigureKey::Tb, KEYS, value)
}
