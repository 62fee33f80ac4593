//! The tables of a heap trace: its strings, instructions, nodes, infos and suppressions, filled line by line. What one
//! line says is the grammar's part, and what the events add up to is the ledger's.
//!
//! `Tables` stands for the lines that it took, after the texts of suppressions that it was given before them
//! (`StandsAfter`, and `StandsFor` where there were none). What it promises:
//!
//! - `line` takes one more and answers what it brings to the figures (`step_of`), or the line's fault after those lines
//!   (`line_fault_after`), and then still stands for the same lines. `end` answers the fault of the trace's end.
//! - Four clauses of `line` are for a ledger that is kept beside the tables step by step: `can_take` says that it has
//!   room for the next step, `grows` what the step adds to both, `stack_held` that the stack of an info or an event is
//!   held, and `least_length` how many bytes the line of an event has at least.
//! - Tables only grow: `Continues` says that each list is the old one and more, and so each stack keeps its frames, and
//!   each frame its text and function. `continues` of `stacks` and `goes_on` of `line` and `suppress` are its laws.
//! - `PassesLine`: a line has no fault, brings an event and leaves the tables as they are. By the law `passes_event` this
//!   holds of the line of an allocation or a free of a held info. So a caller that reads it by `event_line` and asks the
//!   ledger for the info may leave `line` out.
//! - `info` gives an info by its number, whose stack is held; `command` the first command.
//! - `frames_into` gives the frames of a stack, 1 to 4,096, as the numbers of their instructions and their places
//!   there: each `IsFrame`, which stays so. `put_frame` appends such a frame's text in one of two styles
//!   (`frame_text`), and `frame_function` gives the name of its function, `None` exactly where it has none.
//! - `node` gives a stack's own instruction and the stack that it is called from, whose frames together are the stack's;
//!   `instruction_frames_into` gives those of an instruction, of which there are `instructions`; and `innermost_frame`
//!   a stack's first frame in constant time. So what is asked of a frame may be asked once for all stacks that have it.
//! - `suppress` and `S` lines append the pattern of a text, where it has one (`pattern_of`); `suppression` gives a
//!   pattern by its number, and `suppressions` their count.
//! - `may_stand_first` says whether a line may stand before the version line; it holds of raw traces as well.
//!
//! The crates above may cite its `proofs/Laws`: what one more line of either form says and its fault, and what stays as tables
//! grow. The tests of these calls are in the crate `ht_trace_tests`.
//!
//! | File | Does |
//! |---|---|
//! | `tables.rt`, `tables/kinds.rt`, `tables/frames.rt` | the tables; what each kind of line adds or why it is refused; frames |
//! | `version_lines.rt` | which lines may stand before the version line, of both forms of trace |
//! | `strings.rt`, `instructions.rt`, `infos.rt`, `patterns.rt` | one table each; the nodes are `stack_table`'s |
//! | `push_frames.rt` | the frames of an instruction line |
//! | `frame.rt`, `stack_frames.rt`, `frame_text.rt` | how frames are named; those of a stack; their texts |
//! | `step.rt` | what a line brings to the figures |
//! | `error.rt` | why a line is refused, and what each reason is called |
#![tactic(auto)]

mod error;
mod frame;
mod frame_text;
mod infos;
mod instructions;
mod patterns;
mod push_frames;
mod stack_frames;
mod step;
mod strings;
mod tables;
mod version_lines;

pub use error::LineError;
pub use frame::{FrameAt, Style};
pub use step::Step;
pub use tables::Tables;
pub use version_lines::may_stand_first;
