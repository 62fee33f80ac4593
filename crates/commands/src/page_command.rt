//! `ms_print`: the page of one Massif file.
ghost use Rattle.commands.specs.PageCommand.{page};

use crate::command::{Command, Ran, Request, take_with_file};
use crate::number_words::{number_or, percent_or};
use command_frame::RunContext;
use command_words::{TakenWords, WordsFault};
use hp_outside::{Sink, Store};
use profile_reports::{PageReport, PageSize, run_massif_file};
use std::alloc::Global;

/// What `ms_print` is to do.
#[derive(Clone, Copy)]
pub struct PageRequest<'a> {
    /// The name of the Massif file.
    pub file: &'a str,
    /// How its page is made.
    pub size: PageSize,
    /// The words behind the command, as the page shows them.
    pub words: &'a [String],
}

impl Command for PageRequest<'_> {
    type Rest = Vec<u8>;

    ghost command = { page };

    fn run<S: Store, O: Sink>(&self, context: &RunContext, store: &mut S, out: &mut O) -> Ran {
        let report = PageReport {
            size: self.size,
            words: self.words,
        };
        run_massif_file(context, self.file, report, store, out)
    }
}

impl<'a> Request<'a> for PageRequest<'a> {
    fn take(alloc: Global, words: &'a [String]) -> Result<TakenWords<'a>, WordsFault> {
        take_with_file(alloc, &["threshold", "x", "y"], words)
    }

    fn request_in(words: &'a [String], taken: &TakenWords<'a>) -> Option<Self> {
        let file = taken.only_file()?;
        let threshold = percent_or(taken.value("threshold"))?;
        let x = number_or(72, 4, 1000, taken.value("x"))?;
        let y = number_or(20, 4, 1000, taken.value("y"))?;
        let size = PageSize {
            threshold,
            x: x as u32,
            y: y as u32,
        };
        Some(PageRequest { file, size, words })
    }
}
