//! The command of `clap` that reads the words of a table: it has no default, no requirement and no help of its own.
ghost use Rattle.std.specs.Prelude.{◌≡◌, false, IfOk};
ghost use Rattle.clap.specs.Words.{app_of, rule_of};
ghost use Rattle.command_words.specs.TableApp.{app_for, files_rule, flag_rule, option_rule, table_of};

use crate::table::WordTable;
use clap::{Arg, ArgAction, Command};
use std::alloc::{AllocError, Global};

/// The name under which the files stand among what was matched.
pub const FILES: &str = "files";

/// The command for a table.
pub fn command_for<'a>(alloc: Global, table: &WordTable<'a>) -> Result<Command<'a>, AllocError>
    ensures { IfOk result (λ command. app_of command ≡ app_for (table_of table.now)) }
{
    let mut command = Command::new(alloc, "command")
        .no_binary_name(true)
        .disable_help_flag(true);
    for option in table.options {
        command = command.arg(option_argument(alloc, option))?;
    }
    for flag in table.flags {
        command = command.arg(flag_argument(alloc, flag))?;
    }
    if !table.files {
        return Ok(command);
    }
    command.arg(files_argument(alloc))
}

/// An option with one value.
fn option_argument<'a>(alloc: Global, name: &'a str) -> Arg<'a>
    ensures rule { rule_of result ≡ option_rule name.entry.now }
    ensures local { result.global ≡ false }
{
    Arg::new(alloc, name).long(name)
}

fn flag_argument<'a>(alloc: Global, name: &'a str) -> Arg<'a>
    ensures rule { rule_of result ≡ flag_rule name.entry.now }
    ensures local { result.global ≡ false }
{
    Arg::new(alloc, name).long(name).action(ArgAction::SetTrue)
}

/// The names of files: a list that grows by each word, so that an option may stand between two of them.
fn files_argument(alloc: Global) -> Arg<'static>
    ensures rule { rule_of result ≡ files_rule }
    ensures local { result.global ≡ false }
{
    Arg::new(alloc, FILES).action(ArgAction::Append)
}
