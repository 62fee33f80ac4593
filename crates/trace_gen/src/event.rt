//! An event of a generated trace: what its line says.

/// An allocation, or a free of a block of an info.
#[derive(Clone, Copy)]
pub struct GeneratedEvent {
    /// Whether it frees a block; else it allocates one.
    pub frees: bool,
    /// The info, from 0.
    pub info: u32,
}
