//! `dhat_view`: the view of one DHAT profile.
ghost use Rattle.commands.specs.ViewCommand.{view};

use crate::command::{Command, Ran, Request, take_with_file};
use crate::key_words::key_or;
use crate::number_words::{number_or, percent_or};
use command_frame::RunContext;
use command_words::{TakenWords, WordsFault};
use dhat_view::ViewOptions;
use hp_outside::{Sink, Store};
use profile_reports::{ViewReport, run_dhat_file};
use std::alloc::Global;

/// What `dhat_view` is to do.
#[derive(Clone, Copy)]
pub struct DhatViewRequest<'a> {
    /// The name of the profile.
    pub profile: &'a str,
    /// What is shown of it.
    pub options: ViewOptions,
}

impl Command for DhatViewRequest<'_> {
    type Rest = Vec<u8>;

    ghost command = { view };

    fn run<S: Store, O: Sink>(&self, context: &RunContext, store: &mut S, _out: &mut O) -> Ran {
        let report = ViewReport {
            options: self.options,
        };
        run_dhat_file(context, self.profile, report, store)
    }
}

impl<'a> Request<'a> for DhatViewRequest<'a> {
    fn take(alloc: Global, words: &'a [String]) -> Result<TakenWords<'a>, WordsFault> {
        take_with_file(alloc, &["sort", "threshold", "depth"], words)
    }

    fn request_in(_words: &'a [String], taken: &TakenWords<'a>) -> Option<Self> {
        let profile = taken.only_file()?;
        let key = key_or(taken.value("sort"))?;
        let threshold = percent_or(taken.value("threshold"))?;
        let depth = number_or(30, 1, 200, taken.value("depth"))?;
        let options = ViewOptions {
            key,
            threshold,
            depth: depth as u32,
        };
        Some(DhatViewRequest { profile, options })
    }
}
