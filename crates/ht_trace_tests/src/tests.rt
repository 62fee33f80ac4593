//! The tests, and what they share.

mod figures;
mod flames;
mod frames;
mod fronts;
mod lines;
mod names;
mod nodes;
mod written_lines;
