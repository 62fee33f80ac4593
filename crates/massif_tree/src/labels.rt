//! The labels of a tree's lines that name no frame: that of the root, and that of places that are gathered.
ghost use Rattle.std.specs.Prelude.{◌≡◌, ◌++◌, OnOk};
ghost use Rattle.hp_num.specs.Percent.{two_digits};
ghost use Rattle.massif_tree.specs.Labels.{gathered_label, places_label, root_label, threshold_text};

use hp_num::{NoMemory, put_bytes, put_dec};

/// The label of the root.
#[tactic(auto, unfolding(crate::specs::Labels::root_label))]
pub(crate) fn root_label() -> &'static [u8]
    ensures { result.now ≡ root_label }
{
    b"(heap allocation functions) malloc/new/new[], --alloc-fns, etc."
}

/// Puts the label of so many places that are gathered below the threshold in the place of what the buffer holds.
pub(crate) fn put_gathered_label(
    threshold: u64,
    places: u64,
    label: &mut Vec<u8>,
) -> Result<(), NoMemory>
    ensures label { OnOk result (label.new.items ≡ gathered_label threshold places) }
{
    label.clear();
    put_gathered(threshold, places, label)
}

/// Appends the label of so many places that are gathered below the threshold, in hundredths of a percent.
fn put_gathered(threshold: u64, places: u64, out: &mut Vec<u8>) -> Result<(), NoMemory>
    ensures appended { OnOk result
        (out.new.items ≡ out.old.items ++ gathered_label threshold places) }
{
    put_places(places, out)?;
    put_threshold(threshold, out)?;
    put_bytes(out, b")")
}

/// Appends how many places are gathered, up to their threshold.
fn put_places(places: u64, out: &mut Vec<u8>) -> Result<(), NoMemory>
    ensures appended { OnOk result (out.new.items ≡ out.old.items ++ places_label places) }
{
    if places == 1 {
        return put_bytes(out, b"in 1 place, below massif's threshold (");
    }
    put_bytes(out, b"in ")?;
    put_dec(out, places)?;
    put_bytes(out, b" places, all below massif's threshold (")
}

/// Appends the hundredths of a percent: the whole percents, a point, two digits and `%`.
fn put_threshold(hundredths: u64, out: &mut Vec<u8>) -> Result<(), NoMemory>
    ensures appended { OnOk result (out.new.items ≡ out.old.items ++ threshold_text hundredths) }
{
    put_dec(out, hundredths / 100)?;
    put_bytes(out, b".")?;
    put_two_digits(hundredths % 100, out)?;
    put_bytes(out, b"%")
}

/// Appends the number in two digits at least.
fn put_two_digits(number: u64, out: &mut Vec<u8>) -> Result<(), NoMemory>
    ensures appended { OnOk result (out.new.items ≡ out.old.items ++ two_digits number) }
{
    if number < 10 {
        put_bytes(out, b"0")?;
    }
    put_dec(out, number)
}
