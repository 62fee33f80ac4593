//! DHAT's JSON profile: as values, written as the one compact text, and read from any document of that form. What a
//! profile's figures mean and how they are shown is the work of the crates above.
//!
//! What it promises:
//!
//! - `read_profile` gives the profile that a document says, or its first fault, as `document_of` names it for every
//!   list of bytes (`exact`). What it gives is what the document says (`read`), each document that says a profile is
//!   taken (`only`), and what was read may be written (`writable`: points are few enough to be numbered, have the parts
//!   that the profile tells of, and frames within the table).
//! - `DhatFault::put_message` appends what is told of a fault.
//! - `profile_text` gives exactly `dhat_text`, which reads as the same profile (`reads_back`). `PointWriter` gives the same text
//!   of a profile whose points come one by one, so that they need not be held at once.
//! - The laws: `dhat_documents` says that a JSON value says one profile or has a fault and not both, and
//!   `dhat_round_trip` that the value of every sound profile says that profile.
//! - `Point::figure` gives a figure by its key, `Dhat::has_figures` whether the points have it. `put_shown` appends the
//!   shown form of a text, of which `shown_texts` says that no line can be broken by it.
//!
//! The tests of these calls are in the crate `profile_tests`.
//!
//! | File | Does |
//! |---|---|
//! | `profile.rt`, `lists.rt` | what a file says, as values; its lists |
//! | `key.rt`, `figure.rt` | its keys, and the figures of a point by their keys |
//! | `value.rt`, `number.rt`, `opening.rt` | a JSON value of a document, its numbers, and what a token begins |
//! | `pass.rt`, `outline.rt` | passing over a value, and a value without its parts |
//! | `survey.rt`, `gathered.rt`, `shape.rt`, `table.rt` | a document member by member, its points as they come, the shape in which they are read, and their frames |
//! | `reader.rt`, `parts.rt`, `point.rt`, `member.rt` | a document, the parts of a profile, a point, one member |
//! | `writer.rt`, `point_writer.rt`, `tokens.rt` | a profile as its one text, point by point, and the members of an object one by one |
//! | `shown.rt` | the shown form of a text |
//! | `fault.rt` | why a document is no profile, and what is told of it |
//! | `laws.rt` | the laws |
#![tactic(auto)]

mod fault;
mod figure;
mod gathered;
mod key;
mod laws;
mod lists;
mod member;
mod number;
mod opening;
mod outline;
mod parts;
mod pass;
mod point;
mod point_writer;
mod profile;
mod reader;
mod shape;
mod shown;
mod survey;
mod table;
mod tokens;
mod value;
mod writer;

pub use fault::DhatFault;
pub use figure::FigureKey;
pub use key::Key;
pub use laws::{dhat_documents, dhat_round_trip, shown_texts};
pub use lists::{FrameList, Points, Texts};
pub use point_writer::PointWriter;
pub use profile::{Access, Dhat, Life, Point};
pub use reader::read_profile;
pub use shown::put_shown;
pub use writer::profile_text;
