//! The lines of a view, one at a time. Which of them stand, and in which order, is the tree's part.
#![tactic(auto, using(hp_num::proofs::Laws::extends_same, hp_num::proofs::Laws::extends_more, hp_num::proofs::Laws::extends_trans))]

ghost use Rattle.std.specs.Prelude.{◌≡◌, ◌≤◌, ◌<◌, ◌^◌, ◌++◌, OnOk};
ghost use Rattle.hp_num.specs.Extends.{Extends};
ghost use Rattle.dhat_view.specs.Lines.{gathered_line, places_text, share_text, view_line};

use cost_tree::Scale;
use hp_num::{NoMemory, hundredths, put_bytes, put_commas, put_dec, put_percent, put_right};

/// Appends the line of a cost: two blanks for each level, the cost's share, the cost and a text.
pub(crate) fn put_line(
    scale: Scale,
    level: usize,
    cost: u64,
    text: &[u8],
    out: &mut Vec<u8>,
) -> Result<(), NoMemory>
    requires level { level ≤ 2 ^ 32 }
    requires part { cost ≤ scale.total }
    ensures appended { OnOk result
        (out.new.items ≡ out.old.items ++ view_line scale level cost text.now) }
    ensures kept { Extends out.old.items out.new.items }
{
    put_share(scale, level, cost, out)?;
    put_bytes(out, text)?;
    put_bytes(out, b"\n")
}

/// Appends the line of the places that are gathered, of which there is one at least.
pub(crate) fn put_gathered(
    scale: Scale,
    level: usize,
    cost: u64,
    places: u64,
    out: &mut Vec<u8>,
) -> Result<(), NoMemory>
    requires level { level ≤ 2 ^ 32 }
    requires part { cost ≤ scale.total }
    requires threshold { scale.threshold ≤ 10000 }
    ensures appended { OnOk result
        (out.new.items ≡ out.old.items ++ gathered_line scale level cost places) }
    ensures kept { Extends out.old.items out.new.items }
{
    put_share(scale, level, cost, out)?;
    put_places(places, out)?;
    put_percent(out, scale.threshold)?;
    put_bytes(out, b"\n")
}

/// Appends what stands before a line's text.
fn put_share(scale: Scale, level: usize, cost: u64, out: &mut Vec<u8>) -> Result<(), NoMemory>
    requires level { level ≤ 2 ^ 32 }
    requires part { cost ≤ scale.total }
    ensures appended { OnOk result (out.new.items ≡ out.old.items ++ share_text scale level cost) }
    ensures kept { Extends out.old.items out.new.items }
{
    put_right(out, b"", 2 * level)?;
    put_percent(out, hundredths(cost, scale.total))?;
    put_bytes(out, b" (")?;
    put_commas(out, cost)?;
    put_bytes(out, b") ")
}

/// Appends how many places are gathered.
fn put_places(places: u64, out: &mut Vec<u8>) -> Result<(), NoMemory>
    ensures appended { OnOk result (out.new.items ≡ out.old.items ++ places_text places) }
    ensures kept { Extends out.old.items out.new.items }
{
    if places == 1 {
        return put_bytes(out, b"in 1 place below ");
    }
    put_bytes(out, b"in ")?;
    put_dec(out, places)?;
    put_bytes(out, b" places below ")
}
