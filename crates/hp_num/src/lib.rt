//! Numbers and texts of the suite's formats: parsing a number from bytes, appending one to bytes, and bytes that are
//! owned. It knows no file format: which numbers stand where is the business of the crates above.
//!
//! What it promises:
//!
//! - `parse_hex`, `parse_dec`: the number that a text writes, `Some` exactly for a text of that form. `parse_percent`:
//!   the hundredths that a percentage writes, at most 10,000.
//! - `hundredths`: the share that a part is of a whole, at most 10,000.
//! - `put_bytes`, `put_dec`, `put_hex`, `put_commas`, `put_percent`, `put_right`, `put_number_line` append exactly these
//!   bytes, or answer `NoMemory` and leave the vector's bytes as they were. They can't fail where the vector has room.
//! - What `put_dec` and `put_hex` write is parsed as the same number, and each text of a number has no line feed and a
//!   bounded length. `decimal_texts`, `hexadecimal_texts`, `comma_texts`, `percent_texts` say so of the texts of all
//!   numbers.
//! - `Text`: bytes that are owned, seen as their list.
//! - `Items`: a list of any items that is owned, seen as their list. The lists of profiles are such lists.
//! - The definition `Extends`: what stands after an append that may have failed halfway.
//!
//! The crates above may cite its `proofs/Laws`: on `Extends`, on hexadecimal digits, and on elements of a list that grows. The
//! tests of these calls are in the crate `hp_outside_tests`.
//!
//! | File | Does |
//! |---|---|
//! | `bytes.rt` | appends bytes: the step under every call that appends a text |
//! | `decimal.rt`, `hexadecimal.rt`, `hex_digit.rt` | whole numbers in decimal and in hexadecimal digits |
//! | `number_line.rt` | a line of hexadecimal numbers, appended once |
//! | `commas.rt`, `percent.rt`, `right.rt` | numbers with commas; hundredths of a percent; bytes to the right |
//! | `text.rt`, `items.rt` | bytes that are owned; a list of items that is owned |
//! | `memory.rt` | `NoMemory`, the error for want of memory |
#![tactic(auto)]

mod bytes;
mod commas;
mod decimal;
mod hex_digit;
mod hexadecimal;
mod items;
mod memory;
mod number_line;
mod percent;
mod right;
mod text;

pub use bytes::put_bytes;
pub use commas::{comma_texts, put_commas};
pub use decimal::{decimal_texts, parse_dec, put_dec};
pub use hex_digit::hex_digit_value;
pub use hexadecimal::{hexadecimal_texts, parse_hex, put_hex};
pub use items::Items;
pub use memory::NoMemory;
pub use number_line::{LONGEST_NUMBER_LINE, put_number_line};
pub use percent::{hundredths, parse_percent, percent_texts, put_percent};
pub use right::put_right;
pub use text::Text;
