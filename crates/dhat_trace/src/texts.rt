//! Texts of a trace as they stand in a profile: those of a JSON document are UTF-8, and those of a trace need not be.
ghost use Rattle.std.specs.Prelude.{◌≡◌, map, IfOk};
ghost use Rattle.dhat_trace.specs.ProfileTexts.{ascii_byte, command_text, or_none, utf8_text, without_blanks};

use hp_num::{NoMemory, Text};
use ht_trace::Tables;
use std::alloc::Global;

/// The command of a profile whose trace names none.
const NO_COMMAND: &[u8] = b"(none)";

/// The command of the trace, without the blanks that it begins with, or `NoMemory`.
pub(crate) fn command_text(alloc: Global, tables: &Tables) -> Result<Text, NoMemory>
    ensures text { IfOk result (λ text. text ≡ command_text tables.now.command) }
{
    match tables.command() {
        Some(command) => text_or_none(alloc, without_blanks(command)),
        None => Text::new(alloc, NO_COMMAND),
    }
}

/// The text as it stands in a profile, or that of no command where it is empty.
fn text_or_none(alloc: Global, text: &[u8]) -> Result<Text, NoMemory>
    ensures text { IfOk result (λ other. other ≡ or_none text.now) }
{
    if text.is_empty() {
        return Text::new(alloc, NO_COMMAND);
    }
    let mut bytes = Vec::from_slice(alloc, text)?;
    make_utf8(&mut bytes);
    Ok(Text::from(bytes))
}

/// The text without the blanks that it begins with.
fn without_blanks(text: &[u8]) -> &[u8]
    ensures { result.now ≡ without_blanks text.now }
{
    let mut rest = text;
    'blanks: while let [b' ', after @ ..] = rest {
        rest = after;
    }
    rest
}

/// Leaves a text that is UTF-8 as it is, and writes `?` for each byte of another that isn't ASCII. It takes no memory.
pub(crate) fn make_utf8(text: &mut [u8])
    ensures { text.new ≡ utf8_text text.old }
{
    match str::from_utf8(text) {
        Ok(_) => {}
        Err(_) => make_ascii(text),
    }
}

/// Writes `?` for each byte that isn't ASCII.
fn make_ascii(text: &mut [u8])
    ensures { text.new ≡ map ascii_byte text.old }
{
    'each_byte: for byte in text.iter_mut() {
        *byte = ascii_byte(*byte);
    }
}

fn ascii_byte(byte: u8) -> u8
    ensures { result ≡ ascii_byte byte }
{
    if byte < 0x80 { byte } else { b'?' }
}
