//! The two kinds of lines whose items have a tail: modules with their ranges, and instructions with their frames.
//!
//! Each call is given what follows the kind. That all fields of a tail are numbers is tested here.
ghost use Rattle.std.specs.Prelude.{◌≡◌, ℕ, ◌^◌, ◌<◌, ◌≤◌, List, length, Some, IfOk};
ghost use Rattle.ht_lines.specs.Fields.{fields, numbers};
ghost use Rattle.ht_lines.specs.ModuleName.{module_name};
ghost use Rattle.ht_lines.specs.Reading.{instruction_of, module_of, named_module, ranges_fit};
ghost use Rattle.ht_lines.specs.ItemContent.{Gives, HasTail, HasTailInEach, IsWhole};

use crate::fields::{count_fields, next_number};
use crate::item::{Item, Malformed};
use crate::text::module_name;

/// Reads a line of an instruction: its ip, the string of its module, and its frames. `MissingField` comes at 0, 1, 4, 7 and
/// so on fields, and then `BadField` where one is no number.
#[tactic(auto, unfolding(crate::specs::Reading::instruction_of), using(crate::proofs::FieldLemmas::length_numbers))]
pub fn read_instruction(rest: &[u8]) -> Result<Item<'_>, Malformed>
    requires { length rest.now < 2 ^ 32 }
    ensures exact { Gives result (instruction_of (fields rest.now)) }
    ensures whole { IfOk result (λ item. IsWhole item) }
    ensures tail { HasTailInEach rest.now result }
{
    let counted = count_fields(rest);
    if counted.count == 0 || counted.count % 3 == 1 {
        return Err(Malformed::MissingField);
    }
    if !counted.all_numbers {
        return Err(Malformed::BadField);
    }
    let Some((ip, after)) = next_number(rest) else {
        return Err(Malformed::MissingField);
    };
    let Some((module, tail)) = next_number(after) else {
        return Err(Malformed::MissingField);
    };
    Ok(Item::Instr {
        ip,
        module,
        fields: counted.count,
        tail,
    })
}

/// A line of a module: its name, where it starts, and its ranges, or the name `-` alone.
pub fn read_module(version: u8, rest: &[u8]) -> Result<Item<'_>, Malformed>
    requires { length rest.now < 2 ^ 32 }
    ensures exact { Gives result (module_of (module_name version rest.now)) }
    ensures whole { IfOk result (λ item. IsWhole item) }
    ensures tail { IfOk result (HasTail version rest.now) }
{
    match module_name(version, rest) {
        Some((name, tail)) => read_named_module(name, tail),
        None => Err(Malformed::MissingField),
    }
}

/// The module with the name, from the fields of the tail.
#[tactic(auto, unfolding(crate::specs::Reading::named_module), using(crate::proofs::FieldLemmas::length_numbers))]
fn read_named_module<'a>(name: &'a [u8], tail: &'a [u8]) -> Result<Item<'a>, Malformed>
    requires { length tail.now < 2 ^ 32 }
    ensures exact { Gives result (named_module name.now tail.now) }
    ensures whole { IfOk result (λ item. IsWhole item) }
    ensures tail { (version : ℕ) (rest : List ℕ)
        → module_name version rest ≡ Some (name.now, tail.now)
        → IfOk result (HasTail version rest) }
{
    let counted = count_fields(tail);
    if counted.count == 0 && matches!(name, [b'-']) {
        return Ok(Item::ModuleClear);
    }
    if counted.count % 2 == 0 {
        return Err(Malformed::MissingField);
    }
    if !counted.all_numbers {
        return Err(Malformed::BadField);
    }
    let Some((start, ranges)) = next_number(tail) else {
        return Err(Malformed::MissingField);
    };
    if !ranges_fit(start, ranges) {
        return Err(Malformed::BadField);
    }
    Ok(Item::Module {
        name,
        start,
        ranges: counted.count / 2,
        tail: ranges,
    })
}

/// Whether no range of the tail ends above 2^64 - 1, each offset and size with the start.
fn ranges_fit(start: u64, tail: &[u8]) -> bool
    ensures { result ≡ ranges_fit start (numbers tail.now) }
{
    let mut rest = tail;
    'pairs: while let Some((offset, after)) = next_number(rest) {
        let Some((size, after)) = next_number(after) else {
            return true;
        };
        let Some(begin) = start.checked_add(offset) else {
            return false;
        };
        if begin.checked_add(size).is_none() {
            return false;
        }
        rest = after;
    }
    true
}
