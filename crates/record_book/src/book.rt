//! The book: a recording with all of its trace. How a turn is taken, and how its lines are made, is no part of it.
ghost use Rattle.std.specs.Prelude.{◌≡◌, ◌<◌, ◌≤◌, [], ◌++◌, length, IfOk, OnOk, OnErr};
ghost use Rattle.std.specs.Arc.{arc_value};
ghost use Rattle.record_scripts.specs.Job.{IsSameWork};
ghost use Rattle.record_scripts.specs.Playable.{IsPlayable};
ghost use Rattle.record_book.specs.BookState.{CompletesThread, GoesOn, IsStep, TakesFewer, TakesTurns};
ghost use Rattle.record_book.specs.HeapPlaces.{LieApart};
ghost use Rattle.record_book.specs.Orders.{Continues, IsInterleaving, IsUnder};
ghost use Rattle.record_book.specs.RecordedTrace.{recorded};
ghost use Rattle.record_book.specs.ScriptFigures.{HasScriptFigures};
ghost use Rattle.record_book.specs.SummaryText.{book_summary};

use crate::summary::put_summary;
use crate::trace_stream::TraceStream;
use hp_num::NoMemory;
use record_scripts::Scripts;
use std::alloc::Global;
use std::marker::Model;
use std::sync::Arc;

/// The recording of scripts, as far as their threads have come.
///
/// Contracts see it as the scripts with their modules, and the order: the thread of each event so far. At every moment the
/// order is one under the scripts, and the bytes are its trace.
#[derive(Drop)]
pub struct Book {
    stream: TraceStream,
    alloc: Global,
}

impl Model for Book {
    ghost use Rattle.std.specs.Prelude.{◌≡◌};
    ghost use Rattle.record_book.specs.BookState.{Recording};
    ghost use Rattle.record_book.specs.RecordedTrace.{recorded};

    ghost Value = { Recording };

    ghost view = { λ book. record { job = book.stream.job; order = book.stream.order } };

    ghost invariant = { λ book. book.stream.text ≡ recorded book.stream.job book.stream.order };
}

impl Book {
    /// The book of these scripts, of which no turn is taken.
    pub fn new(alloc: Global, job: Arc<Scripts>) -> Result<Book, NoMemory>
        ensures empty { IfOk result (λ book. book ≡ record { job = arc_value job; order = [] }) }
    {
        let stream = TraceStream::new(alloc, job)?;
        Ok(Book { stream, alloc })
    }

    /// Takes the next turn of a thread, whose script has to be there: the thread is appended to the order, twice for a
    /// reallocation and else once, and its lines to the trace. It answers `true`, or `false` exactly where the script is
    /// done. On `NoMemory` the book is as before.
    pub fn step(&mut self, thread: u32) -> Result<bool, NoMemory>
        requires { thread < length self.old.job.scripts }
        ensures step { IfOk result (IsStep self.old.job thread self.old.order self.new.order) }
        ensures job { self.new.job ≡ self.old.job }
        ensures unchanged { OnErr result (self.new ≡ self.old) }
    {
        self.stream.step(thread)
    }

    /// Takes turns of a thread, whose script has to be there, until `most` are taken, from 1 to 64, or the script is done,
    /// and answers how many. The answer is below `most` exactly where the script is done with fewer. On `NoMemory` the
    /// turns that were taken before in this call stay.
    pub fn steps(&mut self, thread: u32, most: u32) -> Result<u32, NoMemory>
        requires there { thread < length self.old.job.scripts }
        requires some { 1 ≤ most }
        requires few { most ≤ 64 }
        ensures taken { IfOk result
            (TakesTurns self.old.job thread most self.old.order self.new.order) }
        ensures part { OnErr result
            (TakesFewer self.old.job thread most self.old.order self.new.order) }
        ensures job { self.new.job ≡ self.old.job }
    {
        for count in 0..most {
            if !self.step(thread)? {
                return Ok(count);
            }
        }
        Ok(most)
    }

    /// The trace so far.
    pub fn bytes(&self) -> &[u8]
        ensures trace { result.now ≡ recorded self.now.job self.now.order }
    {
        self.stream.text()
    }

    /// The trace so far, which is all that stays of the book.
    pub fn into_bytes(self) -> Vec<u8>
        ensures trace { result.items ≡ recorded self.job self.order }
    {
        self.stream.into_text()
    }

    /// The thread of each event so far.
    pub fn order(&self) -> &[u8]
        ensures order { result.now ≡ self.now.order }

        // The order.
        ensures under { IsUnder self.now.job.scripts self.now.order }
        ensures apart { LieApart self.now.job.scripts self.now.order }
    {
        self.stream.order()
    }

    /// How many scripts there are, at most 64.
    pub fn threads(&self) -> u32
        ensures count { result ≡ length self.now.job.scripts }
        ensures few { result ≤ 64 }
        ensures under { IsUnder self.now.job.scripts self.now.order }
        ensures playable { IsPlayable self.now.job }
    {
        self.stream.scripts().threads()
    }

    /// Appends the six lines of the summary: threads, events, calls, allocated bytes, what is live at the end, and the peak
    /// of this order between its bounds. All turns have to be taken, as in a book that `finish` gives. On `NoMemory`,
    /// `out` holds what it held before.
    pub fn put_summary(&self, out: &mut Vec<u8>) -> Result<(), NoMemory>
        requires { IsInterleaving self.now.job.scripts self.now.order }
        ensures appended { OnOk result
            (out.new.items ≡ out.old.items ++ book_summary self.now) }
        ensures unchanged { OnErr result (out.new.items ≡ out.old.items) }
        ensures figures { HasScriptFigures self.now.job.scripts self.now.order }
    {
        put_summary(self.alloc, self.stream.scripts(), self.stream.order(), out)
    }

    /// The book of these scripts with all turns taken. Where this is a book of the same scripts and modules, however many
    /// events there may be, its order stays and goes on; else they are recorded from nothing on. On `NoMemory` the book is
    /// given up.
    pub fn finish(self, job: Arc<Scripts>) -> Result<Book, NoMemory>
        ensures job { IfOk result (λ book. book.job ≡ arc_value job) }
        ensures all { IfOk result (λ book. IsInterleaving book.job.scripts book.order) }
        ensures figures { IfOk result (λ book. HasScriptFigures book.job.scripts book.order) }
        ensures grown { IfOk result (GoesOn self (arc_value job)) }
    {
        let mut book = self.for_job(job)?;
        book.complete()?;
        Ok(book)
    }

    /// This book with these scripts where they and their modules are the same, else a new one.
    fn for_job(self, job: Arc<Scripts>) -> Result<Book, NoMemory>
        ensures job { IfOk result (λ book. book.job ≡ arc_value job) }
        ensures same { IsSameWork self.job (arc_value job)
            → IfOk result (λ book. book.order ≡ self.order) }
    {
        if self.stream.scripts().is_same(&job) {
            return Ok(self.with_job(job));
        }
        Book::new(self.alloc, job)
    }

    /// This book with other scripts, which are the same and have the same modules.
    fn with_job(mut self, job: Arc<Scripts>) -> Book
        requires { IsSameWork self.job (arc_value job) }
        ensures job { result.job ≡ arc_value job }
        ensures order { result.order ≡ self.order }
    {
        self.stream.take_job(job);
        self
    }

    /// Takes the turns that are left of all threads.
    fn complete(&mut self) -> Result<(), NoMemory>
        ensures all { OnOk result (IsInterleaving self.new.job.scripts self.new.order) }
        ensures job { self.new.job ≡ self.old.job }
        ensures grown { OnOk result (Continues self.old.order self.new.order) }
    {
        for thread in 0..self.threads() {
            self.complete_thread(thread)?;
        }
        Ok(())
    }

    /// Takes the turns that are left of a thread, whose script has to be there.
    fn complete_thread(&mut self, thread: u32) -> Result<(), NoMemory>
        requires { thread < length self.old.job.scripts }
        ensures completed { OnOk result (CompletesThread thread self.old self.new) }
        ensures job { self.new.job ≡ self.old.job }
    {
        'turns: while self.step(thread)? {}
        Ok(())
    }
}
