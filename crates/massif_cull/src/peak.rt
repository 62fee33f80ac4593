//! The peak among the entries.
//! When a peak is taken is decided by the array.
ghost use Rattle.std.specs.Prelude.{◌≡◌};
ghost use Rattle.massif_cull.specs.Entries.{is_peak, kind_after_peak};

use crate::snapshot::{Kind, SnapEntry};

/// The kind that an entry has once a later peak is taken.
pub(crate) fn after_peak(kind: Kind) -> Kind
    ensures { result ≡ kind_after_peak kind }
{
    match kind {
        Kind::Normal | Kind::Peak => Kind::Normal,
        Kind::Detailed => Kind::Detailed,
    }
}

/// Whether the entry is the peak.
pub(crate) fn is_peak_entry(entry: &SnapEntry) -> bool
    ensures { result ≡ is_peak entry.now }
{
    match entry.kind {
        Kind::Normal | Kind::Detailed => false,
        Kind::Peak => true,
    }
}
