//! The kinds of lines whose fields are numbers alone, a fixed count of them but for versions.
//!
//! Each call is given what follows the kind.
ghost use Rattle.std.specs.Prelude.{◌≡◌, ℕ, ◌^◌, ◌<◌, ◌≤◌, List, [], ◌∷◌, length, Some, IfOk, IfSome, MatchResult, Result, Ok, Err};
ghost use Rattle.hp_num.specs.ParsedHex.{parsed_hex};
ghost use Rattle.ht_lines.specs.Fields.{IsLoneNumber, fields};
ghost use Rattle.ht_lines.specs.Content.{info_line, node_line, resident_line, system_line};
ghost use Rattle.ht_lines.specs.Reading.{allocation_of, both_numbers, clock_from, free_of, info_number, one_number, say, three_numbers, two_numbers, version_from, version_of, with_number};
ghost use Rattle.ht_lines.specs.ItemContent.{Gives, HasTailInEach, IsWhole};

use crate::fields::{next_field, next_hex};
use crate::item::{Form, Item, Malformed};
use hp_num::parse_hex;

/// The greatest clock value in milliseconds.
const MAX_MS: u64 = 1 << 62;

/// The number of a text that is one blank and a number, as the lines of events are written: one walk over the text.
fn lone_number(rest: &[u8]) -> Option<u64>
    ensures { IfSome result (λ n. IsLoneNumber rest.now n) }
{
    let [blank, digits @ ..] = rest else {
        return None;
    };
    if *blank != b' ' {
        return None;
    }
    parse_hex(digits)
}

/// The number of a line that has one.
pub fn one_number(rest: &[u8]) -> Result<u64, Malformed>
    ensures { result ≡ one_number (fields rest.now) }
{
    match lone_number(rest) {
        Some(number) => Ok(number),
        None => one_number_by_fields(rest),
    }
}

/// The number of a line that has one, field by field.
fn one_number_by_fields(rest: &[u8]) -> Result<u64, Malformed>
    ensures { result ≡ one_number (fields rest.now) }
{
    let Some((field, after)) = next_field(rest) else {
        return Err(Malformed::MissingField);
    };
    if next_field(after).is_some() {
        return Err(Malformed::ExtraField);
    }
    parse_hex(field).ok_or(Malformed::BadField)
}

/// The numbers of a line that has two.
pub fn two_numbers(rest: &[u8]) -> Result<(u64, u64), Malformed>
    ensures { result ≡ two_numbers (fields rest.now) }
{
    let Some((first, after)) = next_hex(rest) else {
        return Err(Malformed::MissingField);
    };
    let Some((second, after)) = next_hex(after) else {
        return Err(Malformed::MissingField);
    };
    if next_field(after).is_some() {
        return Err(Malformed::ExtraField);
    }
    let Some(first) = first else {
        return Err(Malformed::BadField);
    };
    let Some(second) = second else {
        return Err(Malformed::BadField);
    };
    Ok((first, second))
}

/// The numbers that two fields are.
#[inline(always)]
fn both_numbers(first: &[u8], second: &[u8]) -> Result<(u64, u64), Malformed>
    ensures { result ≡ both_numbers first.now second.now }
{
    let Some(first) = parse_hex(first) else {
        return Err(Malformed::BadField);
    };
    let Some(second) = parse_hex(second) else {
        return Err(Malformed::BadField);
    };
    Ok((first, second))
}

/// A line of versions.
pub fn read_version(rest: &[u8]) -> Result<Item<'_>, Malformed>
    ensures exact { Gives result (version_of (fields rest.now)) }
    ensures whole { IfOk result (λ item. IsWhole item) }
    ensures tail { HasTailInEach rest.now result }
{
    let (heaptrack, file) = versions(rest)?;
    if !(1..=3).contains(&file) {
        return Err(Malformed::BadVersion);
    }
    Ok(Item::Version {
        heaptrack,
        file: file as u8,
    })
}

/// The versions of a line: that of heaptrack, and that of the file, which is 1 where it isn't given.
fn versions(rest: &[u8]) -> Result<(u64, u64), Malformed>
    ensures { version_of (fields rest.now) ≡ version_from result }
{
    let Some((heaptrack, after)) = next_field(rest) else {
        return Err(Malformed::MissingField);
    };
    let Some((file, after)) = next_field(after) else {
        let Some(heaptrack) = parse_hex(heaptrack) else {
            return Err(Malformed::BadField);
        };
        return Ok((heaptrack, 1));
    };
    if next_field(after).is_some() {
        return Err(Malformed::ExtraField);
    }
    both_numbers(heaptrack, file)
}

/// The numbers of an allocation of a raw trace. One field is that of an interpreted trace.
pub fn three_numbers(rest: &[u8]) -> Result<(u64, u64, u64), Malformed>
    ensures { result ≡ three_numbers (fields rest.now) }
{
    let Some((first, after)) = next_field(rest) else {
        return Err(Malformed::MissingField);
    };
    let Some((second, after)) = next_field(after) else {
        return Err(Malformed::NotRaw);
    };
    let Some((third, after)) = next_field(after) else {
        return Err(Malformed::MissingField);
    };
    if next_field(after).is_some() {
        return Err(Malformed::ExtraField);
    }
    let Some(first) = parse_hex(first) else {
        return Err(Malformed::BadField);
    };
    match both_numbers(second, third) {
        Ok((second, third)) => Ok((first, second, third)),
        Err(fault) => Err(fault),
    }
}

/// A line of an allocation, which has the number of an info, and in a raw trace a size, a node and an address.
pub fn read_allocation(form: Form, rest: &[u8]) -> Result<Item<'_>, Malformed>
    ensures exact { Gives result (allocation_of form (fields rest.now)) }
    ensures whole { IfOk result (λ item. IsWhole item) }
    ensures tail { HasTailInEach rest.now result }
{
    match form {
        Form::Interpreted => {
            let info = info_number(rest)?;
            Ok(Item::Alloc { info })
        }
        Form::Raw => {
            let (size, trace, ptr) = three_numbers(rest)?;
            Ok(Item::RawAlloc { size, trace, ptr })
        }
    }
}

/// The info of an allocation. Three fields are those of a raw trace.
fn info_number(rest: &[u8]) -> Result<u64, Malformed>
    ensures { result ≡ info_number (fields rest.now) }
{
    match lone_number(rest) {
        Some(number) => Ok(number),
        None => info_number_by_fields(rest),
    }
}

/// The info of an allocation, field by field.
fn info_number_by_fields(rest: &[u8]) -> Result<u64, Malformed>
    ensures { result ≡ info_number (fields rest.now) }
{
    let Some((info, after)) = next_field(rest) else {
        return Err(Malformed::MissingField);
    };
    let Some((_, after)) = next_field(after) else {
        return parse_hex(info).ok_or(Malformed::BadField);
    };
    Err(fault_of_more(after))
}

/// Why a line of an allocation is refused that has two fields before these: three are those of a raw trace.
fn fault_of_more(after: &[u8]) -> Malformed
    ensures { (first second : List ℕ)
        → Err result ≡ info_number (first ∷ second ∷ fields after.now) }
{
    match next_field(after) {
        Some((_, after)) if next_field(after).is_none() => Malformed::NotInterpreted,
        _ => Malformed::ExtraField,
    }
}

/// A line of the clock, in milliseconds, up to 2^62.
pub fn read_clock(rest: &[u8]) -> Result<Item<'_>, Malformed>
    ensures exact { Gives result (clock_from (one_number (fields rest.now))) }
    ensures whole { IfOk result (λ item. IsWhole item) }
    ensures tail { HasTailInEach rest.now result }
{
    let ms = one_number(rest)?;
    if ms > MAX_MS {
        return Err(Malformed::BadField);
    }
    Ok(Item::Clock { ms })
}

/// A line of the system: the size of a page in bytes, and the number of pages.
pub fn read_system(rest: &[u8]) -> Result<Item<'_>, Malformed>
    ensures exact { Gives result (say (λ x. system_line x.0 x.1) (two_numbers (fields rest.now))) }
    ensures whole { IfOk result (λ item. IsWhole item) }
    ensures tail { HasTailInEach rest.now result }
{
    let (page, pages) = two_numbers(rest)?;
    Ok(Item::System { page, pages })
}

/// A line of a node: an instruction and the parent node.
pub fn read_node(rest: &[u8]) -> Result<Item<'_>, Malformed>
    ensures exact { Gives result (say (λ x. node_line x.0 x.1) (two_numbers (fields rest.now))) }
    ensures whole { IfOk result (λ item. IsWhole item) }
    ensures tail { HasTailInEach rest.now result }
{
    let (ip, parent) = two_numbers(rest)?;
    Ok(Item::Node { ip, parent })
}

/// A line of an info: a size in bytes and a node.
pub fn read_info(rest: &[u8]) -> Result<Item<'_>, Malformed>
    ensures exact { Gives result (say (λ x. info_line x.0 x.1) (two_numbers (fields rest.now))) }
    ensures whole { IfOk result (λ item. IsWhole item) }
    ensures tail { HasTailInEach rest.now result }
{
    let (size, trace) = two_numbers(rest)?;
    Ok(Item::Info { size, trace })
}

/// A line of a free: an info, and in a raw trace an address.
pub fn read_free(form: Form, rest: &[u8]) -> Result<Item<'_>, Malformed>
    ensures exact { Gives result (free_of form (fields rest.now)) }
    ensures whole { IfOk result (λ item. IsWhole item) }
    ensures tail { HasTailInEach rest.now result }
{
    let number = one_number(rest)?;
    Ok(match form {
        Form::Interpreted => Item::Free { info: number },
        Form::Raw => Item::RawFree { ptr: number },
    })
}

/// A line of resident memory, in pages.
pub fn read_resident(rest: &[u8]) -> Result<Item<'_>, Malformed>
    ensures exact { Gives result (say resident_line (one_number (fields rest.now))) }
    ensures whole { IfOk result (λ item. IsWhole item) }
    ensures tail { HasTailInEach rest.now result }
{
    let pages = one_number(rest)?;
    Ok(Item::Rss { pages })
}
