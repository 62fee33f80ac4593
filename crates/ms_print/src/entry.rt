//! The lines of a tree's entries, one at a time. Which of them stand, and in which order, is the tree's part.
#![tactic(auto, using(hp_num::proofs::Laws::extends_same, hp_num::proofs::Laws::extends_more, hp_num::proofs::Laws::extends_trans))]

ghost use Rattle.std.specs.Prelude.{◌≡◌, ◌≤◌};
ghost use Rattle.hp_num.specs.Extends.{Extends};
ghost use Rattle.ms_print.specs.Appends.{Appends};
ghost use Rattle.ms_print.specs.Entries.{entry_text, gathered_label, is_small, places_text, share_text};

use hp_num::{NoMemory, hundredths, put_bytes, put_commas, put_dec, put_percent};

/// What all entries of a tree have in common: the whole of their shares, and the least share that has an entry of its own.
#[derive(Clone, Copy)]
pub(crate) struct Scale {
    /// The bytes of the snapshot.
    pub(crate) sum: u64,
    /// The least share that is shown by itself, in hundredths of a percent.
    pub(crate) threshold: u64,
}

impl Scale {
    /// Whether these bytes are too few to be shown by themselves.
    pub(crate) fn is_small(self, bytes: u64) -> bool
        ensures { result ≡ is_small self bytes }
    {
        10_000 * u128::from(bytes) < u128::from(self.threshold) * u128::from(self.sum)
    }
}

/// Appends an entry: the share of its bytes, the bytes, and its label.
#[tactic(auto, unfolding(crate::specs::Entries::entry_text))]
pub(crate) fn put_entry(
    scale: Scale,
    bytes: u64,
    label: &[u8],
    out: &mut Vec<u8>,
) -> Result<(), NoMemory>
    ensures appended { Appends (entry_text scale bytes label.now) out.old out.new result }
    ensures kept { Extends out.old.items out.new.items }
{
    put_share(scale, bytes, out)?;
    put_bytes(out, label)
}

/// Appends the entry of places that are gathered.
#[tactic(auto, unfolding(crate::specs::Entries::entry_text, crate::specs::Entries::gathered_label))]
pub(crate) fn put_gathered(
    scale: Scale,
    places: u64,
    bytes: u64,
    out: &mut Vec<u8>,
) -> Result<(), NoMemory>
    requires threshold { scale.threshold ≤ 10000 }
    ensures appended { Appends (entry_text scale bytes (gathered_label scale places)) out.old out.new result }
    ensures kept { Extends out.old.items out.new.items }
{
    put_share(scale, bytes, out)?;
    put_places(places, out)?;
    put_bytes(out, b" ms_print's threshold (")?;
    put_percent(out, scale.threshold)?;
    put_bytes(out, b")")
}

/// Appends what stands before an entry's label.
#[tactic(auto, unfolding(crate::specs::Entries::share_text))]
fn put_share(scale: Scale, bytes: u64, out: &mut Vec<u8>) -> Result<(), NoMemory>
    ensures appended { Appends (share_text scale bytes) out.old out.new result }
    ensures kept { Extends out.old.items out.new.items }
{
    put_percent(out, hundredths(bytes.min(scale.sum), scale.sum))?;
    put_bytes(out, b" (")?;
    put_commas(out, bytes)?;
    put_bytes(out, b"B) ")
}

/// Appends how many places are gathered.
#[tactic(auto, unfolding(crate::specs::Entries::places_text))]
fn put_places(places: u64, out: &mut Vec<u8>) -> Result<(), NoMemory>
    ensures appended { Appends (places_text places) out.old out.new result }
    ensures kept { Extends out.old.items out.new.items }
{
    if places == 1 {
        return put_bytes(out, b"in 1 place, below");
    }
    put_bytes(out, b"in ")?;
    put_dec(out, places)?;
    put_bytes(out, b" places, all below")
}
