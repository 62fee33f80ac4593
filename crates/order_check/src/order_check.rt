//! The check of a trace line by line: what was compared with a recording is let go. Where the lines come from is no part
//! of it.
ghost use Rattle.std.specs.Prelude.{◌≡◌, ◌+◌, ◌≤◌, true, false, [], length, drop, None, Some, IfErr, IfOk, OnErr, OnOk};
ghost use Rattle.std.specs.Arc.{arc_value};
ghost use Rattle.record_book.specs.Spelled.{named};
ghost use Rattle.order_check.specs.CheckState.{FollowsLine, HasTaken, TellsEvents, following_of, turn_step};
ghost use Rattle.order_check.specs.Following.{is_empty, past_line, thread_for};
ghost use Rattle.order_check.specs.KeptTurn.{KeepsOneTurn};
ghost use Rattle.order_check.specs.TakenLine.{TakesLine};

use crate::verdict::CheckRefusal;
use hp_num::{NoMemory, parse_dec};
use record_book::TraceStream;
use record_scripts::Scripts;
use std::alloc::Global;
use std::marker::Model;
use std::sync::Arc;

/// A trace that is compared with the recordings of scripts.
///
/// Contracts see it as the scripts with their modules, the order of the turns that the lines have begun, and the bytes of
/// its recording that are kept and that are to come. It keeps no more of the recording than that of one turn.
#[derive(Drop)]
pub struct OrderCheck {
    stream: TraceStream,
    compared: usize,
}

/// No further field, in which lines could be kept.
const _: () = prove!(size_of::<OrderCheck>() == size_of::<TraceStream>() + size_of::<usize>());

impl Model for OrderCheck {
    ghost use Rattle.std.specs.Prelude.{◌≤◌, drop, length};
    ghost use Rattle.order_check.specs.CheckState.{CheckState};

    ghost Value = { CheckState };

    ghost view = { λ c. record {
      job = c.stream.job;
      order = c.stream.order;
      kept = c.stream.text;
      coming = drop c.compared c.stream.text;
    } };

    ghost invariant = { λ c. c.compared ≤ length c.stream.text };
}

impl OrderCheck {
    /// The check of a trace against these scripts, of which no line is taken.
    pub fn new(alloc: Global, job: Arc<Scripts>) -> Result<OrderCheck, NoMemory>
        ensures job { IfOk result (λ check. check.job ≡ arc_value job) }
        ensures none { IfOk result (λ check. HasTaken check []) }
        ensures kept { IfOk result (λ check. KeepsOneTurn check) }
    {
        let stream = TraceStream::new(alloc, job)?;
        Ok(OrderCheck {
            stream,
            compared: 0,
        })
    }

    /// Takes the next line of the trace, without its line feed.
    ///
    /// - `NotRecorded` exactly where no recording begins with the lines up to this one;
    /// - `NoMemory` only where memory is wanting.
    ///
    /// After a refusal the check is of no use.
    pub fn line(&mut self, line: &[u8]) -> Result<(), CheckRefusal>
        ensures { TakesLine self.old self.new line.now result }
    {
        self.step(line)
    }

    /// The number of events, where the lines are all of a recording in which all turns are taken. `ended` says whether the
    /// last line ended with its line feed, which it does where there is none.
    pub fn end(&self, ended: bool) -> Option<u64>
        ensures events { TellsEvents self.now ended result }
    {
        if !ended {
            return None;
        }
        if !self.is_compared() {
            return None;
        }
        let order = self.stream.order();
        if !self.stream.is_complete() {
            return None;
        }
        Some(order.len() as u64)
    }

    /// One line further.
    fn step(&mut self, line: &[u8]) -> Result<(), CheckRefusal>
        ensures line { FollowsLine self.old self.new line.now result }
        ensures kept { KeepsOneTurn self.old → KeepsOneTurn self.new }
        ensures job { self.new.job ≡ self.old.job }
    {
        if self.is_compared() {
            return self.begin_with(line);
        }
        self.compare(line)
    }

    /// Begins the turn that a line calls for, and compares the line; nothing is to come.
    fn begin_with(&mut self, line: &[u8]) -> Result<(), CheckRefusal>
        requires { self.old.coming ≡ [] }
        ensures line { FollowsLine self.old self.new line.now result }
        ensures kept { KeepsOneTurn self.new }
        ensures job { self.new.job ≡ self.old.job }
    {
        match self.begin_turn(line) {
            Ok(()) => self.compare(line),
            Err(refusal) => Err(refusal),
        }
    }

    /// Whether nothing is to come of the turns that were begun.
    fn is_compared(&self) -> bool
        ensures { result ≡ is_empty self.now.coming }
    {
        self.compared == self.stream.text().len()
    }

    /// Begins the turn that a line calls for; nothing is to come.
    fn begin_turn(&mut self, line: &[u8]) -> Result<(), CheckRefusal>
        requires { self.old.coming ≡ [] }
        ensures begun { OnOk result
            (turn_step self.old line.now ≡ Some (following_of self.new)) }
        ensures refused { result ≡ Err CheckRefusal.NotRecorded
            → turn_step self.old line.now ≡ None }
        ensures kept { OnOk result (self.new.kept ≡ self.new.coming) }
        ensures gone { OnErr result (self.new.kept ≡ []) }
        ensures job { self.new.job ≡ self.old.job }
    {
        self.stream.let_go();
        self.compared = 0;
        let Some(thread) = thread_for(line, self.stream.order()) else {
            return Err(CheckRefusal::NotRecorded);
        };
        if thread >= u64::from(self.stream.scripts().threads()) {
            return Err(CheckRefusal::NotRecorded);
        }
        if self.stream.step(thread as u32)? {
            return Ok(());
        }
        Err(CheckRefusal::NotRecorded)
    }

    fn compare(&mut self, line: &[u8]) -> Result<(), CheckRefusal>
        ensures passed { OnOk result
            (past_line line.now self.old.coming ≡ Some self.new.coming) }
        ensures refused { OnErr result (past_line line.now self.old.coming ≡ None) }
        ensures fault { IfErr result (λ refusal. refusal ≡ CheckRefusal.NotRecorded) }
        ensures order { self.new.order ≡ self.old.order }
        ensures kept { self.new.kept ≡ self.old.kept }
        ensures job { self.new.job ≡ self.old.job }
    {
        let coming = &self.stream.text()[self.compared..];
        if !begins_with_line(coming, line) {
            return Err(CheckRefusal::NotRecorded);
        }
        self.compared += line.len() + 1;
        Ok(())
    }
}

/// Whether a text begins with a line and its line feed.
fn begins_with_line(text: &[u8], line: &[u8]) -> bool
    ensures begins { result ≡ true
        → past_line line.now text.now ≡ Some (drop (length line.now + 1) text.now) }
    ensures within { result ≡ true → length line.now + 1 ≤ length text.now }
    ensures other { result ≡ false → past_line line.now text.now ≡ None }
{
    let count = line.len();
    if count >= text.len() {
        return false;
    }
    if text[count] != b'\n' {
        return false;
    }
    &text[..count] == line
}

/// The thread whose turn a line begins, behind the events of these threads.
fn thread_for(line: &[u8], order: &[u8]) -> Option<u64>
    ensures { result ≡ thread_for order.now line.now }
{
    match named_thread(line) {
        Some(thread) => Some(thread),
        None => order.last().map(|last| u64::from(*last)),
    }
}

fn named_thread(line: &[u8]) -> Option<u64>
    ensures { result ≡ named line.now }
{
    match line.strip_prefix(b"# thread ") {
        Some(digits) => parse_dec(digits),
        None => None,
    }
}
