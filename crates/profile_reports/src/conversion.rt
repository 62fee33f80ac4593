//! Which conversions of a profile there are. What each makes of it is a report of `convert_reports`, and their run that of
//! `conversion_run`.
use dhat_json::FigureKey;

/// Which conversion is made, and by which of the options that have an effect on it.
#[derive(Clone, Copy)]
pub enum Conversion {
    /// A DHAT profile as folded lines, by a figure of its points.
    FoldedDhat(FigureKey),
    /// A Massif file as folded lines: the snapshot with a number, or the last peak or detailed one.
    FoldedMassif(Option<u32>),
    /// A DHAT profile as a Massif file.
    MassifOfDhat,
}
