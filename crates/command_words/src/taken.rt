//! Words that a table takes, and what they give.
ghost use Rattle.std.specs.Prelude.{◌≡◌, ◌≢◌, Err, option_map};
ghost use Rattle.clap.specs.Words.{kind_of};
ghost use Rattle.command_words.specs.TableApp.{table_of};
ghost use Rattle.command_words.specs.WordsTaken.{AreRefused, GivesRows, files_in, flag_in, names_of, only_file_in, rows_in, value_in};

use crate::command::{FILES, command_for};
use crate::table::WordTable;
use clap::error::ErrorKind;
use clap::{ArgMatches, Error};
use std::alloc::{AllocError, Global};

/// Why words give nothing.
#[derive(Clone, Copy, Debug, PartialEq, Eq)]
pub enum WordsFault {
    /// The table doesn't take the words.
    NotTaken,
    /// Memory was wanting.
    NoMemory,
}

impl From<AllocError> for WordsFault {
    ghost use Rattle.command_words.specs.declared.taken.WordsFault.TheVariants.{NoMemory};

    ghost from_gives = { λ _ fault. fault ≡ NoMemory };

    fn from(_: AllocError) -> WordsFault {
        WordsFault::NoMemory
    }
}

/// What words give that a table takes. Its parts live as long as the words.
#[derive(Drop)]
pub struct TakenWords<'a> {
    matches: ArgMatches<'a>,
}

/// Reads words by a table. `NotTaken` comes exactly where the table doesn't take them, unless memory is wanting.
pub fn take_words<'a>(
    alloc: Global,
    table: &WordTable<'a>,
    words: &'a [String],
) -> Result<TakenWords<'a>, WordsFault>
    ensures taken { GivesRows (table_of table.now) words.entry.now result }
    ensures refused { result ≡ Err WordsFault.NotTaken
        → AreRefused (table_of table.now) words.entry.now }
{
    let command = command_for(alloc, table)?;
    match command.try_get_matches_from(words) {
        Ok(matches) => Ok(TakenWords { matches }),
        Err(error) => Err(fault_in(&error)),
    }
}

/// Why `clap` refused words: for want of memory, or since it doesn't take them.
fn fault_in(error: &Error) -> WordsFault
    ensures { result ≡ WordsFault.NotTaken → kind_of error.now ≢ ErrorKind.OutOfMemory }
{
    if error.kind() == ErrorKind::OutOfMemory {
        return WordsFault::NoMemory;
    }
    WordsFault::NotTaken
}

impl<'a> TakenWords<'a> {
    /// The value of an option, where it was given.
    pub fn value(&self, option: &str) -> Option<&'a str>
        ensures { option_map (λ value. value.now) result ≡ value_in (rows_in self.now) option.now }
    {
        self.matches.get_str(option)
    }

    /// Whether a flag was given.
    pub fn has(&self, flag: &str) -> bool
        ensures { result ≡ flag_in (rows_in self.now) flag.now }
    {
        match self.matches.get_str(flag) {
            Some(value) => value == "true",
            None => false,
        }
    }

    /// The names of files, in the order of the words. `None` where there is none.
    pub fn files(&self) -> Option<&[&'a str]>
        ensures { names_of result ≡ files_in (rows_in self.now) }
    {
        self.matches.get_strs(FILES)
    }

    /// The name of a file, where there is exactly one.
    pub fn only_file(&self) -> Option<&'a str>
        ensures { option_map (λ name. name.now) result ≡ only_file_in (rows_in self.now) }
    {
        match self.files() {
            Some([name]) => Some(name),
            _ => None,
        }
    }
}
