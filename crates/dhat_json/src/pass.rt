//! Passing over values that are not kept, so that they take no memory. Each number in them is asked whether it is in range.
ghost use Rattle.std.specs.Prelude.{◌<◌, length, Some, OnOk};
ghost use Rattle.dhat_json.specs.Ahead.{Passes, items_ahead, members_ahead, value_ahead};

use crate::number::is_in_range;
use json::{Invalid, Reader, Token};

/// Passes over the next value. Arrays and objects may nest `depth` deep.
#[cycle(pass)]
pub(crate) fn pass_value(reader: &mut Reader<'_>, depth: usize) -> Result<(), Invalid>
    ensures passed { Passes result (value_ahead depth reader.old) reader.new }
    ensures shorter { OnOk result (length reader.new < length reader.old) }
{
    let token = reader.next().ok_or(Invalid)?;
    match token {
        Token::String(_) => Ok(()),
        Token::Number(text) => {
            if is_in_range(text) {
                Ok(())
            } else {
                Err(Invalid)
            }
        }
        Token::Bool(_) => Ok(()),
        Token::Null => Ok(()),
        Token::EndObject | Token::EndArray | Token::Key(_) | Token::Bad => Err(Invalid),
        Token::BeginArray => {
            if depth == 0 {
                Err(Invalid)
            } else {
                pass_items(reader, depth - 1)
            }
        }
        Token::BeginObject => {
            if depth == 0 {
                Err(Invalid)
            } else {
                pass_members(reader, depth - 1)
            }
        }
    }
}

/// Passes over the items of an array and its bracket.
#[cycle(pass)]
#[inline(never)]
pub(crate) fn pass_items(reader: &mut Reader<'_>, depth: usize) -> Result<(), Invalid>
    ensures passed { Passes result (items_ahead depth reader.old) reader.new }
    ensures shorter { OnOk result (length reader.new < length reader.old) }
{
    'items: while !reader.take_end_array() {
        pass_value(reader, depth)?;
    }
    Ok(())
}

/// Passes over the members of an object and its brace.
#[cycle(pass)]
#[inline(never)]
pub(crate) fn pass_members(reader: &mut Reader<'_>, depth: usize) -> Result<(), Invalid>
    ensures passed { Passes result (members_ahead depth reader.old) reader.new }
    ensures shorter { OnOk result (length reader.new < length reader.old) }
{
    'members: while let Some(_) = reader.next_key()? {
        pass_value(reader, depth)?;
    }
    Ok(())
}
