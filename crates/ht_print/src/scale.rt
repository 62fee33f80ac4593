//! How the figures of a section are told: in their unit, and as shares of their sum.
#![tactic(auto, using(hp_num::proofs::Laws::extends_same, hp_num::proofs::Laws::extends_more, hp_num::proofs::Laws::extends_trans))]

ghost use Rattle.std.specs.Prelude.{◌≡◌, ◌≤◌};
ghost use Rattle.hp_num.specs.Extends.{Extends};
ghost use Rattle.ht_print.specs.Appends.{Appends};
ghost use Rattle.ht_print.specs.ReportLines.{figure_text, unit_text};

use hp_num::{NoMemory, hundredths, put_bytes, put_dec, put_percent};

/// What figures count.
#[derive(Clone, Copy)]
pub(crate) enum Unit {
    Calls,
    Bytes,
    Temporary,
}

/// The unit of a section's figures, and the sum of all of them.
#[derive(Clone, Copy)]
pub(crate) struct Scale {
    pub(crate) unit: Unit,
    pub(crate) total: u64,
}

impl Unit {
    fn text(self) -> &'static [u8]
        ensures { result.now ≡ unit_text self }
    {
        match self {
            Unit::Calls => b"calls",
            Unit::Bytes => b"bytes",
            Unit::Temporary => b"temporary",
        }
    }
}

impl Scale {
    /// Appends a figure with its unit and its share of the sum.
    #[tactic(auto, unfolding(crate::specs::ReportLines::figure_text))]
    pub(crate) fn put(self, figure: u64, out: &mut Vec<u8>) -> Result<(), NoMemory>
        requires within { figure ≤ self.total }
        ensures appended { Appends (figure_text self figure) out.old out.new result }
        ensures kept { Extends out.old.items out.new.items }
    {
        put_dec(out, figure)?;
        put_bytes(out, b" ")?;
        put_bytes(out, self.unit.text())?;
        put_bytes(out, b" (")?;
        put_percent(out, hundredths(figure, self.total))?;
        put_bytes(out, b")")
    }
}
