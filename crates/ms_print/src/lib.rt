//! The page of a Massif profile: a graph of its snapshots, a table of them, and their trees. How a profile is read is
//! `massif_file`'s part.
//!
//! What it promises: `put_page` appends the page of a profile (`page_text`): its title, a graph of its snapshots, which
//! of them have a tree, and a table of them with their trees. `cell` gives one cell of the graph and takes no memory.
//! Both need a profile that may be written, as every profile is that was read; the ranges of the options' numbers are
//! facts of `PageOptions`.
//!
//! How: the graph is defined cell by cell from the snapshots (`cell_at`). The code finds the bar of each column once,
//! in one walk over the snapshots, and carries the nearest bar along each row. A tree is defined on trees (`trees_of`,
//! `shown`, `entries_text`), and written from the list of its lines: one walk from the last line on says where each
//! line's own tree ends, so that a child is passed over in one step, and what is still to be written is a list, the
//! next entry last. The prefix of an entry is a front of the one before it.
//!
//! The tests of these calls are runs of `ms_print` in the crate `commands_tests`.
//!
//! | File | Does |
//! |---|---|
//! | `page.rt`, `options.rt` | the page, and its title; what a page is asked for |
//! | `plot.rt`, `bars.rt`, `cells.rt` | the column and the height of a snapshot; the bar of a column; a cell |
//! | `graph.rt`, `label.rt` | rows and axis; numbers in units |
//! | `snapshots.rt` | which snapshots have a tree |
//! | `table.rt` | the rows of snapshots |
//! | `tree.rt`, `ends.rt`, `children.rt`, `entry.rt` | the walk; where lines' trees end; what stands below; one entry |
#![tactic(auto)]

mod bars;
mod cells;
mod children;
mod ends;
mod entry;
mod graph;
mod label;
mod options;
mod page;
mod plot;
mod snapshots;
mod table;
mod tree;

pub use cells::cell;
pub use options::PageOptions;
pub use page::put_page;
