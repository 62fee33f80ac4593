//! What stands in the array of snapshots, and what is offered to it.
//! Which offers are taken is decided by the array.

/// The kind of a snapshot that is kept.
#[derive(Clone, Copy)]
pub enum Kind {
    /// A snapshot without a tree.
    Normal,
    /// A snapshot with a tree.
    Detailed,
    /// The snapshot of the last peak, with a tree.
    Peak,
}

/// Whether an offer is taken, and as a snapshot of which kind.
#[derive(Clone, Copy)]
pub enum Taken {
    /// It isn't taken.
    No,
    /// As a normal snapshot.
    Normal,
    /// As a detailed snapshot.
    Detailed,
    /// As the peak.
    Peak,
}

/// A snapshot that may be taken.
#[derive(Clone, Copy)]
pub struct Offer {
    /// How many events come before it.
    pub place: u64,
    /// Its time, in the chosen unit.
    pub time: u64,
    /// The bytes that are live.
    pub total: u64,
    /// Whether it's offered as a peak, and not as a normal snapshot.
    pub peak: bool,
}

/// A snapshot that is kept.
#[derive(Clone, Copy)]
pub struct SnapEntry {
    /// How many events come before it.
    pub place: u64,
    /// Its time, in the chosen unit.
    pub time: u64,
    /// The bytes that are live.
    pub total: u64,
    /// What it's kept as.
    pub kind: Kind,
}

/// Where a snapshot stands: how many stand before it, and its place.
#[derive(Clone, Copy)]
pub(crate) struct NumberedSnap {
    pub index: u32,
    pub place: u32,
}
