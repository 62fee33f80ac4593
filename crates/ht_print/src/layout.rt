//! What the sections of a report are written by: what is to be shown, and the tables that name the stacks.
use crate::options::PrintOptions;
use crate::places::Places;
use ht_trace::Tables;

/// What is to be shown of a trace, its tables, and the places of its stacks where it has groups.
#[derive(Clone, Copy)]
pub(crate) struct Layout<'r> {
    pub(crate) options: PrintOptions,
    pub(crate) tables: &'r Tables,
    pub(crate) places: &'r Places,
}
