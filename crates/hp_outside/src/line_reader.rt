//! The lines of a file, taken from a store in reads of any length. Which bytes are one line is
//! judged elsewhere; how bytes are kept between reads too.
ghost use Rattle.std.specs.Prelude.{◌≡◌, ◌≢◌, ◌+◌, ◌-◌, ◌<◌, ◌≤◌, [], ◌⊎◌, None, Some, Option, IsTrue, IfOk, IfErr, IfSome, IfNone, IsSome, OnOk, OnErr, ◌↔◌, is_some, is_ok, true, false, length, take, drop, if◌then◌else◌, ◌++◌, ℕ, List, All, nat_eq, min};
ghost use Rattle.std.specs.Io.KnownBytes.{prepend_known};
ghost use Rattle.hp_outside.specs.Faults.{Faulted};
ghost use Rattle.hp_outside.specs.Taken.{WhereTold};
ghost use Rattle.hp_outside.specs.LineReaderState.{IsReadyCount, LineReaderState, at_start};
ghost use Rattle.hp_outside.specs.Lines.{lines_of};
ghost use Rattle.hp_outside.specs.NewReader.{IsAtStart};
ghost use Rattle.hp_outside.specs.NextCall.{CountsNext, HasFile, OnlyReads};
ghost use Rattle.hp_outside.specs.NextCall.{GivesNextOfFile, KeepsUngiven, RepeatsFault};
ghost use Rattle.hp_outside.specs.ReaderCalls.{Gives, GivesLast, MayGive, MayTakeMore, Passes, StandsAt, TakesMore};
ghost use Rattle.hp_outside.specs.StoreCalls.{ReadsOn};
ghost use Rattle.hp_outside.specs.NextLine.{IsLine};
ghost use Rattle.hp_outside.specs.WholeLines.{IsLineText, IsWholeLines, text_of_lines};

use crate::limits::Limits;
use crate::line_end::{Judgement, judge};
use crate::span::{LineFault, Span};
use crate::store::Store;
use crate::window::Window;
use hp_num::NoMemory;
use std::alloc::Global;
use std::marker::Model;

/// A line must be allowed so many bytes where lines are lent before they are judged.
const LONGEST_READY: u32 = 16;

/// Reads a file line by line. All its memory was reserved by `new`.
///
/// Contracts see its limits, the bytes that were taken and not yet given, and the line given last.
#[derive(Drop)]
pub struct LineReader {
    limits: Limits,
    window: Window,
    passed: u64,
    ended: bool,
    number: u64,
    line_ended: bool,
    fault: Option<LineFault>,
}

impl Model for LineReader {
    ghost use Rattle.std.specs.Prelude.{◌≡◌, ◌+◌, ◌<◌, ◌≤◌, true, false, length, if◌then◌else◌};
    ghost use Rattle.hp_outside.specs.LineReaderState.{LineReaderState};

    ghost Value = { LineReaderState };

    ghost view = { λ r. record {
      input = r.limits.input;
      line_limit = r.limits.line;
      passed = r.passed;
      kept = r.window.kept;
      ended = r.ended;
      number = r.number;
      given = if r.line_ended then r.passed else r.passed + 1;
      line_ended = r.line_ended;
      fault = r.fault;
      line = r.window.shown;
      span = r.window.span;
    } };

    ghost invariant = { λ r.
        (r.window.most ≡ r.limits.line) × (r.passed + length r.window.kept ≤ r.limits.input + 1)
        × (r.passed ≤ r.limits.input)
        × (r.number ≤ (if r.line_ended then r.passed else r.passed + 1))
        × (r.ended ≡ false → r.line_ended ≡ true) × (0 < length r.window.kept → r.line_ended ≡ true)
        × (r.ended ≡ true → r.passed + length r.window.kept ≤ r.limits.input) };
}

impl LineReader {
    /// A reader with room for lines of `limits.line` bytes. It reserves 2 * `limits.line` + 65,536
    /// bytes, of which it touches only what reads need, and answers `NoMemory` where memory is
    /// wanting.
    pub fn new(alloc: Global, limits: &Limits) -> Result<LineReader, NoMemory>
        ensures input { IfOk result (λ reader. reader.input ≡ limits.now.input) }
        ensures line { IfOk result (λ reader. reader.line_limit ≡ limits.now.line) }
        ensures new { IfOk result
            (λ reader. IsAtStart reader) }
        ensures line_ended { IfOk result (λ reader. reader.line_ended ≡ true) }
    {
        let window = Window::new(alloc, limits.line as usize)?;
        Ok(LineReader {
            limits: *limits,
            window,
            passed: 0,
            ended: false,
            number: 0,
            line_ended: true,
            fault: None,
        })
    }

    /// Begins a new file, the one that is current in the store at the next call of `next`, and
    /// forgets an earlier fault. Bytes that were taken and not given are dropped, and the count of
    /// lines begins again at 0.
    pub fn start(&mut self)
        ensures { self.new ≡ at_start self.old }
    {
        self.window.clear();
        self.passed = 0;
        self.ended = false;
        self.number = 0;
        self.line_ended = true;
        self.fault = None;
    }

    /// The line that `next` gave last, without its line feed. The span must be the one that came
    /// with it.
    pub fn line(&self, span: &Span) -> &[u8]
        requires { span.now ≡ self.now.span }
        ensures { result.now ≡ self.now.line }
    {
        let _span = span;
        self.window.shown()
    }

    /// Gives the next line, or none at the end of the file. A fault is answered again until `start`.
    /// It reads only where the bytes that were taken show neither the next line nor a length fault,
    /// and not behind the end of the file.
    ///
    /// A file must be current in the store, and once its end was seen, the store must have nothing
    /// left of it.
    ///
    /// A line of at most `limits.line` bytes is given only where it ends with its line feed within the
    /// first `limits.input` bytes of the file, or with the file within those. `LineTooLong` comes
    /// where the next line has more than `limits.line` bytes within the first `limits.input`, and
    /// `InputTooLong` where the file has more than those and the next line with its line feed is not
    /// within them. Where both hold, `LineTooLong` comes.
    ///
    /// A new `ReadFailed` comes only where the store's faults rose, and another answer only where they
    /// did not. A fault of a length yields to a read that failed before the bytes that show it were
    /// taken.
    pub fn next<S: Store>(&mut self, store: &mut S) -> Result<Option<Span>, LineFault>
        requires { HasFile S.Store self.old store.old }
        ensures again { RepeatsFault store.old store.new self.old self.new result }
        ensures next { GivesNextOfFile S.Store store.old store.new self.old self.new result }
        ensures store { OnlyReads S.Store store.old store.new self.old self.new result }
        ensures reader { CountsNext self.old self.new result }
        ensures unmoved { KeepsUngiven S.Store store.old store.new self.old self.new result }
    {
        if let Some(fault) = self.fault {
            return Err(fault);
        }
        let mut scanned = 0;
        'reads: loop {
            let room = (self.limits.input - self.passed) as usize;
            match judge(self.window.kept(), scanned, self.limits.line as usize, room) {
                Judgement::Line(count) => return Ok(Some(self.give(count, 1))),
                Judgement::TooLong(fault) => return Err(self.refuse(fault)),
                Judgement::Open => {}
            }
            scanned = self.window.kept().len();
            if self.ended {
                return Ok(self.give_last(scanned));
            }
            // By cases, and not by `?`: what is proved of the exit speaks of this fault.
            match self.take_more(store) {
                Ok(()) => {}
                Err(fault) => return Err(fault),
            }
        }
    }

    /// How many lines were given since `start`. A fault leaves the number as it was.
    pub fn number(&self) -> u64
        ensures count { result ≡ self.now.number }
        ensures within { result ≤ self.now.given }
    {
        self.number
    }

    /// Whether the line given last ended with its line feed, which only the last line of a file may lack. It is true
    /// where no line was given since `start`.
    pub fn ended(&self) -> bool
        ensures { result ≡ self.now.line_ended }
    {
        self.line_ended
    }

    /// The most bytes that a line may have.
    pub fn line_limit(&self) -> u32
        ensures { result ≡ self.now.line_limit }
    {
        self.limits.line
    }

    /// Lends the bytes that were taken and not yet given, as many as the limit of the file allows. It is for whole lines
    /// of fewer than 16 bytes each, which `pass` then drops; it is empty where a line may have fewer bytes than those,
    /// and after a fault.
    pub fn ready_lines(&self) -> &[u8]
        ensures front { take (length result.now) self.now.kept ≡ result.now }
        ensures held { length result.now ≤ length self.now.kept }
        ensures within { self.now.passed + length result.now ≤ self.now.input }
        ensures whole { IsReadyCount self.now (length result.now) }
        ensures short { 0 < length result.now → 16 ≤ self.now.line_limit }
        ensures given { 0 < length result.now → self.now.given ≡ self.now.passed }
        ensures sound { 0 < length result.now → self.now.fault ≡ None }
    {
        if self.limits.line < LONGEST_READY || self.fault.is_some() {
            return &[];
        }
        let kept = self.window.kept();
        let within = self.limits.input - self.passed;
        &kept[..kept.len().min(within as usize)]
    }

    /// Drops the next `count` bytes, which are `lines` whole lines with their line feeds, as if `next` had given them.
    /// They must stand within the limit of the file. What `next` gave last is what `line` goes on to give.
    pub fn pass(&mut self, count: usize, lines: u64)
        requires held { count ≤ length self.old.kept }
        requires within { self.old.passed + count ≤ self.old.input }
        requires whole { IsWholeLines (take count self.old.kept) lines }
        ensures { Passes self.old self.new count lines }
    {
        self.window.pass(count);
        self.passed += count as u64;
        self.number += lines;
    }

    /// Gives the next `count` bytes as a line, and passes over `skipped` bytes behind them.
    fn give(&mut self, count: usize, skipped: usize) -> Span
        requires { MayGive self.old count skipped }
        ensures { Gives self.old self.new count skipped result }
    {
        self.window.show(count, skipped);
        self.passed += (count + skipped) as u64;
        self.line_ended = skipped == 1;
        self.number += 1;
        self.window.span()
    }

    /// Gives all `count` bytes that are kept as the last line, if there are any.
    fn give_last(&mut self, count: usize) -> Option<Span>
        requires all { count ≡ length self.old.kept }
        requires within { self.old.passed + count ≤ self.old.input }
        requires ended { self.old.ended ≡ true }
        ensures { GivesLast self.old self.new count result }
    {
        if count == 0 {
            return None;
        }
        Some(self.give(count, 0))
    }

    /// Keeps a fault.
    fn refuse(&mut self, fault: LineFault) -> LineFault
        ensures result { result ≡ fault }
        ensures after { self.new ≡ record self.old { fault = Some fault } }
    {
        self.fault = Some(fault);
        fault
    }

    /// Takes more bytes from the store, or sees the end of the file.
    fn take_more<S: Store>(&mut self, store: &mut S) -> Result<(), LineFault>
        requires current { IsTrue (S.current store.old) }
        requires more { MayTakeMore self.old }
        ensures store { ReadsOn S.Store store.old store.new }
        ensures same { StandsAt self.old self.new }
        ensures took { TakesMore S.Store store.old store.new self.old self.new result }
    {
        let kept = self.window.kept().len();
        let limit = (self.limits.input - self.passed) as usize - kept + 1;
        match self.window.fill(store, limit) {
            Ok(0) => {
                self.ended = true;
                Ok(())
            }
            Ok(_) => Ok(()),
            Err(_) => Err(self.refuse(LineFault::ReadFailed)),
        }
    }
}
