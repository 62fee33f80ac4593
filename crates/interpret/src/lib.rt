//! From raw traces of heaptrack to interpreted ones: tables of symbols, and the lines that each raw line gives. Files
//! and outputs are no part of it.
//!
//! `Symbols` is the list of the symbols of a table in the order of its lines. `line` takes one more line, or answers
//! the fault that it has after the symbols before it (`symbol_fault`), and then leaves them as they were. Inside,
//! `texts_at` gives the texts of the symbol that holds an offset of a module (`symbol_at`), found by search: beside the
//! list stands an ordered map from module and start to place, so the last start up to an offset is the only symbol that
//! may hold it, and the last start within a new range the only one that tells whether it meets another.
//!
//! `Interpreter` stands for the lines of a raw trace, with some symbols (`StandsFor`). What it promises:
//!
//! - `line` takes one more and appends exactly the lines of the interpreted trace that it gives (`AddsLine`,
//!   `interpreted_lines`), or answers its fault after those lines (`RefusesLine`, `raw_fault`) and leaves the output as it
//!   was; `end` answers the fault of the trace's end. A fault that leaves the interpreter unfit, which are a full table
//!   and want of memory, is answered from then on; after every other it stands for the same lines. The definitions
//!   number names, instructions and pairs of a size and a node by the lists of those that the lines call for without
//!   their repeats (`RawTables`), and say of a pointer that the last line which names it tells what it stands for
//!   (`RawBlocks`).
//! - `take_front` does the same for the line at the front of some bytes (`TakesFront`), where it is of the form in which
//!   nearly all are written and can't be refused; it may pass over any line.
//! - Nothing is lost (`ledger` of `AddsLine`): for every node, the blocks of the raw trace that no line freed have the
//!   bytes and the number that the events of the interpreted lines leave live, and the instruction pointers outwards
//!   from the node are those of the raw trace (`KeepsLedger`, `IpLists`). Its proof keeps that a pointer's block stands
//!   once among all, isn't freed, and is that of no other pointer (`RawLedgerLemmas`), that a line's events are those
//!   of the blocks that it allocates and frees (`LedgerLemmas`), that the lists of the interpreted trace are the tables
//!   of the raw one (`ToldLemmas`), and that the two lists of nodes are alike (`IpLemmas`).
//! - The law `interpreted_traces`, of all written lines (`interpreted_trace`) of a raw trace without a fault
//!   (`IsReadAgain`): read as an interpreted trace they have the same file version and say what was meant (`version`,
//!   `reads_back`, `events`), they have no fault there but where a table of suppressions would have too many patterns
//!   (`no_fault`, `end`), and their events none but where the sizes pass 2^62 bytes in all (`free_fault`,
//!   `event_fault`), they have no line feed where lines and symbols have none (`one_line`), and the ledger is kept
//!   (`ledger`). The lines must be shorter than 2^32 bytes and the texts of symbols than 2^64 (`AreInterpretable`), as
//!   all are that a program can hold; that there is no fault also asks that the texts of a symbol are those that a line
//!   of a table may have (`HasFrames`).
//!
//! Memory grows with names, instructions, nodes, pairs and pointers, and never with lines. The tests of these calls are
//! runs of `interpret` in the crate `commands_tests`.
//!
//! | File | Does |
//! |---|---|
//! | `interpreter.rt` | a method for each kind of line (`TakesSaid`); one lemma leads to `line` |
//! | `front.rt` | lines in their usual form at the front of bytes, taken where nothing is in doubt |
//! | `name_table.rt`, `known_ips.rt`, `infos.rt`, `pointers.rt`, `modules.rt` | one table each |
//! | `address_index.rt` | which module counts at an address |
//! | `instruction_lines.rt`, `node_lines.rt`, `allocation_lines.rt` | add to tables, and write what is new |
//! | `resolved.rt`, `symbol_frame.rt` | what stands at an address |
//! | `symbols.rt`, `symbol_line.rt`, `start_index.rt` | a table's symbols; one line of it; their places |
//! | `fault.rt` | why a line of a table of symbols is refused |
//! | `read_again.rt` | what the interpretation is when it is read again |
#![tactic(auto)]

mod address_index;
mod allocation_lines;
mod fault;
mod front;
mod infos;
mod instruction_lines;
mod interpreter;
mod known_ips;
mod modules;
mod name_table;
mod node_lines;
mod pointers;
mod read_again;
mod resolved;
mod start_index;
mod symbol_frame;
mod symbol_line;
mod symbols;

pub use fault::SymbolFault;
pub use interpreter::Interpreter;
pub use read_again::interpreted_traces;
pub use symbols::Symbols;
