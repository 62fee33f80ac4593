//! What a profile says of all its points.

/// The parts that its points have, and the length of the table of frames.
#[derive(Clone, Copy)]
pub(crate) struct Shape {
    pub(crate) bklt: bool,
    pub(crate) bkacc: bool,
    pub(crate) frames: usize,
}
