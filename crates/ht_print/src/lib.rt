//! The texts of reports on a heap trace: its summary, its histogram of sizes, its flame stacks, its report by stacks;
//! and which of its stacks are suppressed. What the figures are, and how a trace is read, are the parts of the crates
//! below.
//!
//! What it promises. Each call appends exactly its text, or answers `NoMemory` and leaves the vector's bytes as they
//! were:
//!
//! - `put_summary`: the six lines of the events that the peaks stand for (`summary_text`); `put_totals_summary` those of totals that
//!   are kept without peaks.
//! - `put_histogram`: the nine ranges of sizes (`histogram_text`); its ledger is beside its tables (`IsBeside`).
//! - `put_flame`: the flame stacks by one of four costs. For each list of texts that some stacks have there is a line
//!   with these stacks' sum, told by the tables and the peaks (`appended`) and by the tables and the events (`trace`).
//!   Its steps are calls of their own, for a caller that lets the peaks go after the first and the tables after the second:
//!   `stack_costs`, `lists_from_root` of `stack_trees`, and `put_flame_of_lists`.
//! - `FlameLines`: the same lines one after another, for a caller that writes them while they are made. All memory that they
//!   need is taken before the first one, which `put_next` can't fail to append where there is room for the longest line.
//! - `put_report`: a report by `PrintOptions`, up to four sections of the stacks, the histogram, and the summary
//!   (`report_of_trace`).
//! - `Suppressed::build` answers for each stack whether a pattern of the tables stands in the text of one of its
//!   frames, and `has` gives one stack's answer.
//!
//! How: flame stacks are a walk over the tree of the stacks from the root, with a list of the nodes that are left, the next
//! one last; it finds the nodes that have a line, in their order. The text of a node's front is made of the one before it (`FrontText`), which is cut back to what both fronts
//! begin with, so that a node's text is read once and a line is one append. A section is made of the figures of all stacks:
//! those that aren't 0 become entries, which are sorted once (`ordered_stacks`). Where stacks are merged, the text of an
//! innermost frame is made once a report and numbered, and each stack has its number (`TellPlaces`). By these numbers each
//! stack of a section is linked to the last one before it with the same text (`ArePlaced`); along the links a group is summed
//! up (`ordered_groups`), and its stacks are found in their order. Only what is shown is written, each frame's text straight
//! into the output. Patterns of suppressions are asked once for a frame: of those in order that don't begin with another, a
//! text can begin only with the last that isn't behind it (`AreLeast`); what a stack's own instruction and its caller answer
//! is the stack's answer.
//!
//! The tests of these calls are runs of `summary`, `print` and `flame` in the crate `commands_tests`; that of `put_flame`, which no
//! command calls, is in `ht_trace_tests`.
//!
//! | File | Does |
//! |---|---|
//! | `summary.rt`, `histogram.rt` | the six lines; the nine ranges of sizes |
//! | `costs.rt` | what each stack costs by one of four figures |
//! | `flame.rt`, `flame_lines.rt` | flame stacks, and their lines one after another |
//! | `flame_nodes.rt`, `front_text.rt` | which nodes of a tree have a line, and how long one may be; the text of a front |
//! | `report.rt`, `options.rt`, `layout.rt` | the report, and which parts of it are asked for |
//! | `sections.rt`, `section.rt` | which sections there are, as data; a section around its entries, without suppressed stacks where it leaves them out |
//! | `entry.rt` | the stacks that have a figure, and the order |
//! | `place_table.rt`, `places.rt` | innermost frames' texts by numbers, and those of a trace's stacks |
//! | `placed_stacks.rt`, `groups.rt` | the stacks of a section by these numbers, and in groups |
//! | `report_lines.rt`, `scale.rt` | the lines of a stack and of a group; a figure with its unit and its share |
//! | `suppressed.rt` | which stacks are suppressed |
//! | `met_frames.rt`, `least_patterns.rt` | in which frames a pattern stands; whether one of some patterns stands in a text |
#![tactic(auto)]

mod costs;
mod entry;
mod flame;
mod flame_lines;
mod flame_nodes;
mod front_text;
mod groups;
mod histogram;
mod layout;
mod least_patterns;
mod met_frames;
mod options;
mod place_table;
mod placed_stacks;
mod places;
mod report;
mod report_lines;
mod scale;
mod section;
mod sections;
mod summary;
mod suppressed;

pub use costs::stack_costs;
pub use flame::{FlameCost, put_flame, put_flame_of_lists};
pub use flame_lines::FlameLines;
pub use histogram::put_histogram;
pub use options::PrintOptions;
pub use report::put_report;
pub use summary::{put_summary, put_totals_summary};
pub use suppressed::Suppressed;
