//! Traces of any size from a seed: so many names, instructions, nodes and infos, and then so many events, each an
//! allocation or, where its info has a live block, a free.
//!
//! What it promises: `generated_text` is that trace, over whole lists of lines, draws and events. `Generator::new` has
//! all of its lines to make (`lines`), at most 10,016,003 (`few`). `line` makes the next one, of at most 40 bytes and
//! its line feed, from the state of the draws and the live blocks of each info (`Gives`), so its memory depends on the
//! stacks and not on the events. As a `TextMaker` it makes the same lines. `next_event` draws the event of the next line,
//! of which `line` makes that line (`Draws`): one maker for what writes the trace and for what reads it. The ranges of
//! its numbers are facts of `GeneratorOptions`.
//!
//! Traces are tried by runs of `gen`, in the crate `commands_tests`.
#![tactic(auto)]

mod draws;
mod event;
mod generator;
mod lines;
mod options;

pub use event::GeneratedEvent;
pub use generator::Generator;
pub use options::GeneratorOptions;
