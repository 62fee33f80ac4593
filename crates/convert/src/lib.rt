//! Conversions: any DHAT profile or Massif file as folded lines, of which flame graphs are drawn, and a DHAT profile as a
//! Massif profile. How files are read and written is the part of `dhat_json` and `massif_file`.
//!
//! What it promises:
//!
//! - `put_folded_dhat` appends the folded lines of a profile's points by a figure (`folded_text` of `point_items`), and
//!   `put_folded_massif` those of a snapshot's tree (`chosen_items`): a line for each list of texts, from the outermost to
//!   the innermost, with what is held by exactly that list. The law beside both says so in one sentence (`AreFolded`): for
//!   each list the sum of the items with that list, and no line for a list whose sum is 0. `PointSums` are what is read of a DHAT
//!   profile for its lines, so that it may be let go before they are written.
//! - `massif_of_dhat` gives the Massif profile of a DHAT profile (`converted`), which may be written. Its trees have for
//!   each front of at most 200 texts the sum of the points that begin with it (`HaveTreeSums`).
//! - Each fault comes exactly where its definition says (`folded_fault`, `folded_massif_fault`, `converted_fault`), unless
//!   memory was wanting, and leaves the output as it was.
//!
//! For folded lines a text of a table or a tree is hashed once, and a list by the numbers of its texts. The tests of these
//! calls are runs of `convert` in the crate `commands_tests`.
//!
//! | File | Does |
//! |---|---|
//! | `points.rt`, `massif.rt`, `converted.rt` | the three conversions |
//! | `point_lists.rt` | the lists of which trees are made |
//! | `list_sums.rt`, `lines.rt` | sums by lists of shown texts under numbers; their lines |
//! | `chosen.rt` | which snapshot is folded |
//! | `left_bytes.rt`, `path.rt` | what children leave of a line's bytes; the labels from the root down to a line |
//! | `fault.rt` | why there is no conversion |
#![tactic(auto)]

mod chosen;
mod converted;
mod fault;
mod left_bytes;
mod lines;
mod list_sums;
mod massif;
mod path;
mod point_lists;
mod points;

pub use converted::massif_of_dhat;
pub use fault::ConvertFault;
pub use massif::put_folded_massif;
pub use points::{PointSums, put_folded_dhat};
