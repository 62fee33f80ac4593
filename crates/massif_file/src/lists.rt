//! The lists of a profile.
use crate::profile::Snap;
use hp_num::Items;

/// The snapshots of a profile.
pub type Snaps = Items<Snap>;
