//! The trace that is recorded, turn by turn, with the nodes and the heap that its lines speak of. Whose turn it is, is no
//! part of it.
#![tactic(auto, using(hp_num::proofs::Laws::extends_same, hp_num::proofs::Laws::extends_more, hp_num::proofs::Laws::extends_trans))]

ghost use Rattle.std.specs.Prelude.{◌≡◌, ◌≤◌, [], ◌++◌, length, IfOk, IsOk, OnOk, OnErr};
ghost use Rattle.hp_num.specs.Extends.{Extends};
ghost use Rattle.record_scripts.specs.Turns.{IsBounded, allocates};
ghost use Rattle.record_scripts.specs.declared.script_line.ScriptLine.TheVariants.{Allocation as AllocationLine};
ghost use Rattle.record_book.specs.HeapState.{entry_at};
ghost use Rattle.record_book.specs.MappedNodes.{ips_of};
ghost use Rattle.record_book.specs.RecordedTrace.{allocation_text, free_text, switch_text, thread_line};
ghost use Rattle.record_book.specs.TakenTurn.{AddsTurn, CanTake, HasLineRoom, HasRoom, IsUndone, PutsTurn, TakesTurn};
ghost use Rattle.record_book.specs.TraceState.{IsTrace};

use crate::heap::{Heap, address};
use crate::live_blocks::LiveEntry;
use crate::node_lines::put_stack;
use crate::turn_stack::TurnStack;
use hp_num::{LONGEST_NUMBER_LINE, NoMemory, put_bytes, put_dec, put_number_line};
use record_scripts::ScriptLine;
use stack_table::Nodes;
use std::alloc::Global;

/// The text so far but for a front that was let go, its nodes, its heap, and the thread that its last event is of.
#[derive(Drop)]
pub struct Trace {
    pub text: Vec<u8>,
    pub nodes: Nodes,
    pub heap: Heap,
    pub last: Option<u32>,
}

impl Trace {
    /// The trace of so many threads without events, behind the lines of modules.
    pub fn new(alloc: Global, modules: &[u8], threads: u32) -> Result<Trace, NoMemory>
        requires { threads ≤ 64 }
        ensures new { IfOk result (λ trace. IsTrace [] trace modules.now []) }
        ensures no_nodes { IfOk result (λ trace. length trace.nodes ≡ 0) }
        ensures end { IfOk result (λ trace. trace.heap.end ≡ 65536) }
    {
        let heap = Heap::new(alloc, threads)?;
        let mut text = Vec::new(alloc);
        put_bytes(&mut text, b"v 10500 2\nX heaprec\n")?;
        put_bytes(&mut text, modules)?;
        Ok(Trace {
            text,
            nodes: Nodes::new(alloc),
            heap,
            last: None,
        })
    }

    /// Appends the events of a turn of a thread. On `NoMemory` the trace is as before.
    pub fn add(&mut self, thread: u32, turn: ScriptLine, stack: TurnStack) -> Result<u32, NoMemory>
        requires { CanTake self.old thread turn stack }
        ensures added { OnOk result (AddsTurn self.old self.new thread turn stack.entry) }
        ensures kept { Extends self.old.text.items self.new.text.items }
        ensures takes { TakesTurn self.old self.new stack.entry result }
        ensures undone { OnErr result (IsUndone self.old self.new) }
    {
        let text_len = self.text.len();
        let node_count = self.nodes.len();
        let added = self.put_turn(thread, turn, stack);
        if added.is_err() {
            self.text.truncate(text_len);
            self.nodes.cut(node_count);
        }
        added
    }

    /// The same; on `NoMemory` the text and the nodes may have more at their ends.
    fn put_turn(&mut self, thread: u32, turn: ScriptLine, stack: TurnStack) -> Result<u32, NoMemory>
        requires { CanTake self.old thread turn stack }
        ensures added { OnOk result (AddsTurn self.old self.new thread turn stack.entry) }
        ensures kept { Extends self.old.text.items self.new.text.items }
        ensures takes { TakesTurn self.old self.new stack.entry result }
    {
        put_switch(&mut self.text, self.last, thread)?;
        let node = self.put_events(thread, turn, stack)?;
        self.last = Some(thread);
        Ok(node)
    }

    /// Appends the lines of a turn's events, without that of its thread.
    fn put_events(
        &mut self,
        thread: u32,
        turn: ScriptLine,
        stack: TurnStack,
    ) -> Result<u32, NoMemory>
        requires { CanTake self.old thread turn stack }
        ensures put { OnOk result (PutsTurn self.old self.new thread turn stack.entry) }
        ensures kept { Extends self.old.text.items self.new.text.items }
        ensures takes { TakesTurn self.old self.new stack.entry result }
    {
        match turn {
            ScriptLine::Allocation { id, size } => {
                self.put_allocation(thread, id, None, size, stack)
            }
            ScriptLine::Free { id } => {
                self.text.reserve(LONGEST_NUMBER_LINE)?;
                let ptr = self.heap.release(thread, id)?;
                put_free(&mut self.text, ptr)?;
                Ok(0)
            }
            ScriptLine::Reallocation { id, size } => {
                let left = self.heap.entry(thread, id);
                put_free(&mut self.text, address(left))?;
                self.put_allocation(thread, id, left, size, stack)
            }
        }
    }

    /// Appends the lines of an allocation, and puts its block into the heap. The live block of its ID lies at `left`.
    fn put_allocation(
        &mut self,
        thread: u32,
        id: u64,
        left: Option<LiveEntry>,
        size: u64,
        stack: TurnStack,
    ) -> Result<u32, NoMemory>
        requires left { left ≡ entry_at self.old.heap thread id }
        requires bounded { IsBounded (allocates id size (ips_of self.old.nodes stack)) }
        requires room { HasRoom self.old stack }
        ensures put { OnOk result
            (PutsTurn self.old self.new thread (AllocationLine id size) stack.entry) }
        ensures kept { Extends self.old.text.items self.new.text.items }
        ensures takes { TakesTurn self.old self.new stack.entry result }
    {
        let node = put_stack(&mut self.nodes, stack, &mut self.text)?;
        self.text.reserve(LONGEST_NUMBER_LINE)?;
        let ptr = self.heap.put(thread, id, left, size)?;
        put_alloc(&mut self.text, size, u64::from(node), ptr)?;
        Ok(node)
    }
}

/// Appends the line of an allocation. It can't fail where there is room for 53 bytes.
fn put_alloc(text: &mut Vec<u8>, size: u64, trace: u64, ptr: u64) -> Result<(), NoMemory>
    ensures appended { OnOk result
        (text.new.items ≡ text.old.items ++ allocation_text size trace ptr) }
    ensures kept { Extends text.old.items text.new.items }
    ensures room { HasLineRoom text.old → IsOk result }
{
    put_number_line(text, b'+', &[size, trace, ptr])
}

/// Appends the line of a free. It can't fail where there is room for 53 bytes.
fn put_free(text: &mut Vec<u8>, ptr: u64) -> Result<(), NoMemory>
    ensures appended { OnOk result (text.new.items ≡ text.old.items ++ free_text ptr) }
    ensures kept { Extends text.old.items text.new.items }
    ensures room { HasLineRoom text.old → IsOk result }
{
    put_number_line(text, b'-', &[ptr])
}

/// Appends the line that names a thread, where the event before is of another or there is none.
fn put_switch(text: &mut Vec<u8>, last: Option<u32>, thread: u32) -> Result<(), NoMemory>
    ensures appended { OnOk result (text.new.items ≡ text.old.items ++ switch_text last thread) }
    ensures kept { Extends text.old.items text.new.items }
{
    match last {
        Some(last) => {
            if last == thread {
                return Ok(());
            }
            put_thread(text, thread)
        }
        None => put_thread(text, thread),
    }
}

/// Appends the line that names a thread.
fn put_thread(text: &mut Vec<u8>, thread: u32) -> Result<(), NoMemory>
    ensures appended { OnOk result (text.new.items ≡ text.old.items ++ thread_line thread) }
    ensures kept { Extends text.old.items text.new.items }
{
    put_bytes(text, b"# thread ")?;
    put_dec(text, u64::from(thread))?;
    put_bytes(text, b"\n")
}
