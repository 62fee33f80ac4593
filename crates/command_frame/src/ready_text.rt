//! Texts that are ready to be written: what writing needs of memory was taken before. Which text it is, is the business of
//! the commands.
ghost use Rattle.std.specs.Prelude.{◌≡◌, ◌+◌, ◌<◌, ◌≤◌, ◌++◌, ℕ, List, [], Ok, true, false, IfOk, IsOk, OnOk, OnErr, vec_len, vec_capacity};
ghost use Rattle.hp_outside.specs.Taken.{GainsFront};
ghost use Rattle.command_frame.specs.PageRoom.{HasPageRoom, IsEmptied, IsPassedOn};
ghost use Rattle.command_frame.specs.SinkCalls.{CutsPage, HasFailed, PassesOn, SameFaults, Writes, WritesLess};

use crate::lines::PIECE;
use hp_num::NoMemory;
use hp_outside::{Failed, Sink, write_whole};
use std::alloc::Global;
use std::marker::Model;

/// A text that is ready to be written.
pub trait ReadyText {
    /// Its bytes.
    ghost bytes: { Self → List ℕ };

    /// Writes all of it, and takes no memory. After `Failed`, which comes only where the output's faults rose, a front of it was
    /// taken, and not all; where all of it was, the faults are what they were. The text is of no use then.
    fn write<O: Sink>(&mut self, out: &mut O) -> Result<(), Failed>
        ensures faults { O.faults out.old ≤ O.faults out.new }
        ensures written { OnOk result
            (Writes O.Sink out.old out.new (bytes self.old)) }
        ensures front { GainsFront (O.written out.old) (O.written out.new) (bytes self.old) }
        ensures cut { OnErr result
            (WritesLess O.Sink out.old out.new (bytes self.old)) }
        ensures sound { OnOk result (SameFaults O.Sink out.old out.new) }
        ensures failed { OnErr result (HasFailed O.Sink out.old out.new) };
}

impl ReadyText for Vec<u8> {
    ghost use Rattle.std.specs.Prelude.{vec_items};

    ghost bytes = { vec_items };

    fn write<O: Sink>(&mut self, out: &mut O) -> Result<(), Failed> {
        write_whole(out, self)
    }
}

/// No text.
#[derive(Clone, Copy)]
pub struct NoText;

impl ReadyText for NoText {
    ghost use Rattle.std.specs.Prelude.{[]};

    ghost bytes = { λ _. [] };

    fn write<O: Sink>(&mut self, _out: &mut O) -> Result<(), Failed> {
        Ok(())
    }
}

/// What makes a text, one piece after another, in memory that it has.
pub trait PieceMaker {
    /// What is yet to be made of the text.
    ghost rest: { Self → List ℕ };

    /// How many pieces are yet to be made, at most.
    ghost pieces: { Self → ℕ };

    /// How many bytes a piece has, at most.
    ghost longest: { Self → ℕ };

    /// How many bytes a piece has, at most.
    fn longest_piece(&self) -> usize
        ensures { result ≡ longest self.now };

    /// Appends the next piece, and answers whether there was one: `false` is the end of the text. It can't fail where `output` has
    /// room for the longest piece; after `NoMemory` the maker is of no use.
    fn piece(&mut self, output: &mut Vec<u8>) -> Result<bool, NoMemory>
        ensures made { OnOk result
            (output.new.items ++ rest self.new ≡ output.old.items ++ rest self.old) }
        ensures fewer { result ≡ Ok true → pieces self.new < pieces self.old }
        ensures all { result ≡ Ok false → rest self.new ≡ [] }
        ensures longest { longest self.new ≡ longest self.old }
        ensures capacity { vec_capacity output.old ≤ vec_capacity output.new }
        ensures room { vec_len output.old + longest self.old ≤ vec_capacity output.old
            → IsOk result };
}

/// A text that is made piece by piece while it is written, with a page for the pieces.
#[derive(Drop)]
pub struct Paged<M: PieceMaker> {
    maker: M,
    page: Vec<u8>,
}

impl<M: PieceMaker> Model for Paged<M> {
    ghost use Rattle.std.specs.Prelude.{ℕ, List};
    ghost use Rattle.command_frame.specs.PageRoom.{HasPageRoom};

    ghost Value = { List ℕ };

    ghost view = { λ text. M.rest text.maker };

    ghost invariant = { λ text. HasPageRoom (M.longest text.maker) text.page };
}

impl<M: PieceMaker + Drop> Paged<M> {
    /// What the maker makes, with memory for a page and the longest piece. `NoMemory` where that is wanting.
    pub fn new(alloc: Global, maker: M) -> Result<Paged<M>, NoMemory>
        ensures { IfOk result (λ text. text ≡ M.rest maker) }
    {
        let page = new_page(alloc, maker.longest_piece())?;
        Ok(Paged { maker, page })
    }
}

/// An empty page with room for a piece of so many bytes behind it.
fn new_page(alloc: Global, longest: usize) -> Result<Vec<u8>, NoMemory>
    ensures { IfOk result (λ page. HasPageRoom longest page) }
{
    let Some(room) = PIECE.checked_add(longest) else {
        return Err(NoMemory);
    };
    Ok(Vec::with_capacity(alloc, room)?)
}

impl<M: PieceMaker> ReadyText for Paged<M> {
    ghost bytes = { λ text. text };

    fn write<O: Sink>(&mut self, out: &mut O) -> Result<(), Failed> {
        write_pieces(&mut self.maker, &mut self.page, out)
    }
}

/// Writes all that is made, page by page.
fn write_pieces<M: PieceMaker, O: Sink>(
    maker: &mut M,
    page: &mut Vec<u8>,
    out: &mut O,
) -> Result<(), Failed>
    requires page { HasPageRoom (M.longest maker.old) page.old }
    ensures page { HasPageRoom (M.longest maker.new) page.new }
    ensures written { OnOk result
        (Writes O.Sink out.old out.new (M.rest maker.old)) }
    ensures cut { OnErr result
        (WritesLess O.Sink out.old out.new (M.rest maker.old)) }
    ensures sound { OnOk result (SameFaults O.Sink out.old out.new) }
    ensures failed { OnErr result (HasFailed O.Sink out.old out.new) }
    ensures faults { O.faults out.old ≤ O.faults out.new }
{
    'pieces: loop {
        match maker.piece(page) {
            Ok(true) => match pass_on_full(page, out) {
                Ok(()) => {}
                Err(Failed) => return Err(Failed),
            },
            Ok(false) => return pass_on(page, out),
            Err(NoMemory) => unreachable!(),
        }
    }
}

/// Writes the page where it is full.
fn pass_on_full<O: Sink>(page: &mut Vec<u8>, out: &mut O) -> Result<(), Failed>
    ensures passed { OnOk result (PassesOn O.Sink out.old out.new page.old page.new) }
    ensures page { IsPassedOn result page.old page.new }
    ensures cut { CutsPage O.Sink out.old out.new page.old result }
    ensures sound { OnOk result (SameFaults O.Sink out.old out.new) }
    ensures failed { OnErr result (HasFailed O.Sink out.old out.new) }
    ensures faults { O.faults out.old ≤ O.faults out.new }
{
    if page.len() < PIECE {
        return Ok(());
    }
    pass_on(page, out)
}

/// Writes the page.
fn pass_on<O: Sink>(page: &mut Vec<u8>, out: &mut O) -> Result<(), Failed>
    ensures passed { OnOk result
        (Writes O.Sink out.old out.new page.old.items) }
    ensures page { IsEmptied page.old page.new }
    ensures cut { CutsPage O.Sink out.old out.new page.old result }
    ensures sound { OnOk result (SameFaults O.Sink out.old out.new) }
    ensures failed { OnErr result (HasFailed O.Sink out.old out.new) }
    ensures faults { O.faults out.old ≤ O.faults out.new }
{
    let wrote = write_whole(out, page);
    page.clear();
    wrote
}
