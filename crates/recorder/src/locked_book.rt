//! A book behind a lock, and one hold of it.
ghost use Rattle.std.specs.Prelude.{◌≡◌, IfOk, OnErr, is_none};
ghost use Rattle.record_book.specs.BookState.{TakesFewer};
ghost use Rattle.record_book.specs.HeapPlaces.{LieApart};
ghost use Rattle.record_book.specs.Orders.{IsUnder};
ghost use Rattle.recorder.specs.Ending.{TellsLast};
ghost use Rattle.recorder.specs.Holds.{IsHold};

use crate::ended::Ended;
use hp_num::NoMemory;
use record_book::Book;
use std::sync::{Mutex, Wait};

/// The most turns of one hold.
const HOLD_TURNS: u32 = 64;

/// A book that threads share. Whenever its lock is free, the book is what its type says: its order is one under its
/// scripts, and its bytes are the trace of that order. No clause says which scripts it has.
#[derive(Drop)]
pub struct Recorder {
    book: Mutex<Book>,
}

impl Recorder {
    /// A lock around this book.
    pub fn new(book: Book) -> Recorder {
        Recorder {
            book: Mutex::new(book),
        }
    }

    /// The book, as its threads have left it.
    pub fn close(self) -> Book
        ensures under { IsUnder result.job.scripts result.order }
        ensures apart { LieApart result.job.scripts result.order }
    {
        let book = self.book.into_inner();
        let _order = book.order();
        book
    }

    /// Takes the lock for one hold of a thread. It was the last where the answer says that the thread's worker has ended.
    pub(crate) fn hold<R: Wait>(&self, rt: &R, thread: u32) -> Result<Option<Ended>, NoMemory>
        ensures { IfOk result (TellsLast thread) }
    {
        take_turns(&mut self.book.lock(rt), thread)
    }
}

/// The turns of one hold: those of a thread until 64 are taken or its script is done, and none where the book has no such
/// script. More may be left where it doesn't say that the worker has ended. On `NoMemory` those that were taken stay.
fn take_turns(book: &mut Book, thread: u32) -> Result<Option<Ended>, NoMemory>
    ensures job { book.new.job ≡ book.old.job }
    ensures hold { IfOk result (λ last. IsHold book.old book.new thread (is_none last)) }
    ensures ended { IfOk result (TellsLast thread) }
    ensures part { OnErr result
        (TakesFewer book.old.job thread 64 book.old.order book.new.order) }
{
    if thread >= book.threads() {
        return Ok(Some(Ended::one(thread)));
    }
    let taken = book.steps(thread, HOLD_TURNS)?;
    if taken == HOLD_TURNS {
        return Ok(None);
    }
    Ok(Some(Ended::one(thread)))
}
