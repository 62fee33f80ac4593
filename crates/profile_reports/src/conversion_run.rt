//! The run of a conversion, by the kind of file that it reads. What it makes of the profile is the part of its report.
ghost use Rattle.std.specs.Prelude.{◌^◌, ◌<◌, [], ◌∷◌};
ghost use Rattle.command_frame.specs.RunsTo.{Runs};
ghost use Rattle.profile_reports.specs.ConvertReport.{conversion_plan};

use crate::conversion::Conversion;
use crate::convert_reports::{FoldedPoints, FoldedSnapshot, PointsOverTime};
use crate::dhat_file::run_dhat_file;
use crate::massif_file_taker::run_massif_file;
use command_frame::{Halt, RunContext};
use hp_outside::{Sink, Store};

/// Reads the named file, by lines or whole as its kind says, and gives what it is converted to.
pub fn run_conversion<S: Store, O: Sink>(
    context: &RunContext,
    name: &str,
    conversion: Conversion,
    store: &mut S,
    out: &mut O,
) -> Result<Vec<u8>, Halt>
    requires { S.opens store.old < 2 ^ 63 }
    ensures { Runs S.Store O.Sink context.now (name.now ∷ []) (conversion_plan name.now conversion)
        store.old store.new out.old out.new result }
{
    match conversion {
        Conversion::FoldedDhat(key) => run_dhat_file(context, name, FoldedPoints { key }, store),
        Conversion::FoldedMassif(snapshot) => {
            run_massif_file(context, name, FoldedSnapshot { snapshot }, store, out)
        }
        Conversion::MassifOfDhat => run_dhat_file(context, name, PointsOverTime, store),
    }
}
