//! Scripts of threads: what each thread allocates and frees, line by line. How they are run, and the program's files
//! and words, are no part of it.
//!
//! `Scripts` is what is to be recorded (`Job`): how many events there may be, the text of the modules, and the script
//! of each thread as a list of turns. What it promises:
//!
//! - `module_line` takes a line of a modules file, `begin` opens the script of the next thread, and `line` takes a line
//!   of the script that was opened last. Each answers the first fault of its line after the lines before it
//!   (`module_fault`, `line_fault`), and then leaves all as it was; else the line adds exactly what it says
//!   (`with_module_line`, `with_line`). `share` gives the same behind a pointer that threads can share.
//! - `turn` gives a turn of a thread by its number, with the node of its stack, and tells that its block and its stack
//!   are bounded; `stack_into` the pointers of a node, and `nodes` how many nodes there are (`nodes_in`). `modules` gives
//!   the text of the modules, and `events` how many events there are. `is_same` says whether other scripts and modules
//!   are the same (`IsSameWork`).
//! - The scripts are ones that threads can take (`IsPlayable`, told by `threads`): each turn follows those before it, so
//!   that none allocates a live block or frees another.
//! - The text of the modules is whole lines about modules (`AreModuleLines`, told by `modules`): a text with a line feed is no
//!   line of a module.
//!
//! A turn is kept with the node of its stack, so each distinct stack is kept once, and the IDs that are live are kept
//! for the last script alone. A stack whose text was read lately is found by that text, and its ips aren't looked at again. The
//! tests of these calls are in the crate `record_tests`.
//!
//! | File | Does |
//! |---|---|
//! | `scripts.rt` | the scripts of all threads, and the modules, by the lines of their files |
//! | `script.rt`, `turn_entry.rt` | the script of one thread, and how a turn of it is kept |
//! | `stacks.rt`, `known_stacks.rt` | the nodes of stacks, and the stacks that were read lately |
//! | `live_ids.rt` | the IDs that are live |
//! | `script_line.rt`, `number.rt` | one line of a script, and the number at its front |
//! | `module_text.rt` | the text of the modules, and one line more |
//! | `fault.rt` | why a line is refused |
#![tactic(auto)]

mod fault;
mod known_stacks;
mod live_ids;
mod module_text;
mod number;
mod script;
mod script_line;
mod scripts;
mod stacks;
mod turn_entry;

pub use fault::ScriptFault;
pub use module_text::FILE_VERSION;
pub use script_line::ScriptLine;
pub use scripts::Scripts;
