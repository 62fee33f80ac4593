//! From a line to its item: which kind it is, and what of the line is read.
//!
//! No reference to another line is checked here.
ghost use Rattle.std.specs.Prelude.{◌≡◌, ℕ, ◌^◌, ◌<◌, ◌≤◌, length, IfErr, IfOk, Ok, Err};
ghost use Rattle.ht_lines.specs.Kinds.{after_kind, is_foreign, is_kind};
ghost use Rattle.ht_lines.specs.LeastLength.{least_length};
ghost use Rattle.ht_lines.specs.OneReading.{HasOnlyTheFault, SaysOnlyWhatIsRead};
ghost use Rattle.ht_lines.specs.Reading.{reading, reading_kind};
ghost use Rattle.ht_lines.specs.Reads.{Reads};
ghost use Rattle.ht_lines.specs.Refuses.{Refuses};
ghost use Rattle.ht_lines.specs.ItemContent.{Gives, HasTail, IsWhole, content};
ghost use Rattle.ht_lines.specs.OneLine.{HasOneLineTexts, IsOneLine};
ghost use Rattle.ht_lines.specs.Written.{IsWritable};
ghost use Rattle.ht_lines.specs.declared.item.Malformed.{Malformed};

use crate::item::{Form, Item, Malformed};
use crate::numbers::{
    read_allocation, read_clock, read_free, read_info, read_node, read_resident, read_system,
    read_version,
};
use crate::tailed::{read_instruction, read_module};
use crate::text::{field_ends, text_of};

/// Reads one line of a trace of the form, without its line feed, in a file version from 1 to 3. The line must have
/// fewer than 2^32 bytes.
///
/// The texts, the name and the tail of the item are parts of the line. A tail is what follows the fields before it; it
/// has numbers alone, as many as the item says, and `field` and `next_number` give them. It takes no memory.
///
/// # Errors
///
/// Whether the kind stands in traces of the form is judged first, then the byte after the kind, then the number of
/// fields, then their content from the left.
///
/// - `BadField`: a byte other than a blank follows a known kind but `#`; a field is no number of 1 to 16 hexadecimal
///   digits; a clock value is above 2^62; start, offset and size of a module's range are together above 2^64 - 1.
/// - `MissingField`: there are too few fields; after `i` none, or 1, 4, 7 and so on; after `m` no name, or after its
///   name an even number of fields, but for the name `-` alone.
/// - `ExtraField`: there are too many fields.
/// - `NotInterpreted`: in an interpreted trace `+` with exactly three fields, whatever they are.
/// - `NotRaw`: in a raw trace a line whose first byte is `s`, `i` or `a`, or `+` with exactly one field, whatever it is.
/// - `BadVersion`: the file version of a `v` line is a number and not 1 to 3.
pub fn read_item(form: Form, version: u8, line: &[u8]) -> Result<Item<'_>, Malformed>
    requires low { 1 ≤ version }
    requires high { version ≤ 3 }
    requires short { length line.now < 2 ^ 32 }
    ensures exact { Gives result (reading form version line.now) }
    ensures whole { IfOk result (λ item. IsWhole item) }
    ensures tail { IfOk result (λ item. HasTail version (after_kind line.now) item) }
    ensures length { IfOk result (λ item. least_length (content item) ≤ length line.now) }
    ensures texts { IsOneLine line.now → IfOk result (λ item. HasOneLineTexts (content item)) }
    ensures writable { IfOk result (λ item. IsWritable form version (content item)) }

    // The same by the relations: the item or the fault, and no other.
    ensures item { IfOk result (λ item. Reads form version line.now (content item)) }
    ensures fault { IfErr result (λ fault. Refuses form version line.now fault) }
    ensures only_item { SaysOnlyWhatIsRead form version line.now }
    ensures only_fault { HasOnlyTheFault form version line.now }
{
    read_line(form, version, line)
}

/// Whether lines of a known kind but comments begin with this byte.
fn is_kind(kind: u8) -> bool
    ensures { result ≡ is_kind kind }
{
    matches!(
        kind,
        b'v' | b'x'
            | b'X'
            | b'S'
            | b'I'
            | b's'
            | b'm'
            | b'i'
            | b't'
            | b'a'
            | b'+'
            | b'-'
            | b'c'
            | b'R'
            | b'A'
    )
}

/// Whether lines that begin with this byte stand in traces of the other form alone.
fn is_foreign(form: Form, kind: u8) -> bool
    ensures { result ≡ is_foreign form kind }
{
    match form {
        Form::Raw => matches!(kind, b's' | b'i' | b'a'),
        Form::Interpreted => false,
    }
}

fn read_line(form: Form, version: u8, line: &[u8]) -> Result<Item<'_>, Malformed>
    requires { length line.now < 2 ^ 32 }
    ensures exact { Gives result (reading form version line.now) }
    ensures whole { IfOk result (λ item. IsWhole item) }
    ensures tail { IfOk result (λ item. HasTail version (after_kind line.now) item) }
{
    let [kind, rest @ ..] = line else {
        return Ok(Item::Other { line });
    };
    if *kind == b'#' {
        return Ok(Item::Comment { text: rest });
    }
    if is_foreign(form, *kind) {
        return Err(Malformed::NotRaw);
    }
    if !is_kind(*kind) {
        return Ok(Item::Other { line });
    }
    if !field_ends(rest) {
        return Err(Malformed::BadField);
    }
    read_kind(form, version, *kind, rest)
}

/// The item of a line of a known kind but a comment. `rest` follows the kind.
#[tactic(auto, unfolding(crate::specs::Reading::reading_kind))]
fn read_kind(form: Form, version: u8, kind: u8, rest: &[u8]) -> Result<Item<'_>, Malformed>
    requires { length rest.now < 2 ^ 32 }
    ensures exact { Gives result (reading_kind form version kind rest.now) }
    ensures whole { IfOk result (λ item. IsWhole item) }
    ensures tail { IfOk result (HasTail version rest.now) }
{
    match kind {
        b'v' => read_version(rest),
        b'x' => Ok(Item::Executable {
            text: text_of(version, rest),
        }),
        b'X' => Ok(Item::Command {
            text: text_of(version, rest),
        }),
        b'S' => Ok(Item::Suppress {
            text: text_of(version, rest),
        }),
        b'I' => read_system(rest),
        b's' => Ok(Item::Str {
            text: text_of(version, rest),
        }),
        b'm' => read_module(version, rest),
        b'i' => read_instruction(rest),
        b't' => read_node(rest),
        b'a' => read_info(rest),
        b'+' => read_allocation(form, rest),
        b'-' => read_free(form, rest),
        b'c' => read_clock(rest),
        b'R' => read_resident(rest),
        _ => Ok(Item::Attached),
    }
}
