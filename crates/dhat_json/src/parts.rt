//! Parts of a profile, as the reader reads them one after the other.
ghost use Rattle.std.specs.Prelude.{◌≡◌, Ok, Err, IfOk, IfErr, length};
ghost use Rattle.dhat_json.specs.Parts.{joined};

use crate::fault::DhatFault;
use crate::lists::{Points, Texts};
use crate::profile::Dhat;
use crate::shape::Shape;
use hp_num::Text;

/// How a profile was made, and what its points tell of.
#[derive(Drop)]
pub(crate) struct Head {
    pub(crate) mode: Text,
    pub(crate) verb: Text,
    pub(crate) bklt: bool,
    pub(crate) bkacc: bool,
}

/// The units of its numbers.
#[derive(Drop)]
pub(crate) struct Units {
    pub(crate) block: BlockUnits,
    pub(crate) time: TimeUnits,
}

/// The units of sizes and of blocks.
#[derive(Drop)]
pub(crate) struct BlockUnits {
    pub(crate) bu: Option<Text>,
    pub(crate) bsu: Option<Text>,
    pub(crate) bksu: Option<Text>,
}

/// The unit of time, and how short a lifetime is worth a remark.
#[derive(Drop)]
pub(crate) struct TimeUnits {
    pub(crate) tu: Text,
    pub(crate) mtu: Text,
    pub(crate) tuth: Option<u64>,
}

/// The run that was profiled.
#[derive(Drop)]
pub(crate) struct Run {
    pub(crate) cmd: Text,
    pub(crate) pid: u64,
    pub(crate) te: u64,
    pub(crate) tg: Option<u64>,
}

/// All parts but the points.
#[derive(Drop)]
pub(crate) struct Front {
    pub(crate) head: Head,
    pub(crate) units: Units,
    pub(crate) run: Run,
    pub(crate) ftbl: Texts,
}

impl Front {
    /// What it says of all points.
    pub(crate) fn shape(&self) -> Shape
        ensures bklt { result.bklt ≡ self.now.head.bklt }
        ensures bkacc { result.bkacc ≡ self.now.head.bkacc }
        ensures frames { result.frames ≡ length self.now.ftbl }
    {
        Shape {
            bklt: self.head.bklt,
            bkacc: self.head.bkacc,
            frames: self.ftbl.len(),
        }
    }
}

/// Both parts, or the fault of the second, where the first is let go.
pub(crate) fn beside<A: Drop, B>(
    first: A,
    second: Result<B, DhatFault>,
) -> Result<(A, B), DhatFault>
    ensures ok { IfOk result (λ both. (second ≡ Ok both.1) × (both.0 ≡ first)) }
    ensures err { IfErr result (λ fault. second ≡ Err fault) }
{
    match second {
        Ok(second) => Ok((first, second)),
        Err(fault) => {
            drop(first);
            Err(fault)
        }
    }
}

/// The profile of these parts.
pub(crate) fn join_parts(front: Front, pps: Points) -> Dhat
    ensures { result ≡ joined front pps }
{
    let Front {
        head,
        units,
        run,
        ftbl,
    } = front;
    Dhat {
        mode: head.mode,
        verb: head.verb,
        bklt: head.bklt,
        bkacc: head.bkacc,
        bu: units.block.bu,
        bsu: units.block.bsu,
        bksu: units.block.bksu,
        tu: units.time.tu,
        mtu: units.time.mtu,
        tuth: units.time.tuth,
        cmd: run.cmd,
        pid: run.pid,
        te: run.te,
        tg: run.tg,
        pps,
        ftbl,
    }
}
