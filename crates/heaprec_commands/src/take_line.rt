//! One line of a modules file or of a script.
ghost use Rattle.std.specs.Prelude.{◌≡◌, ◌^◌, ◌<◌, length, IfErr, None, OnOk};
ghost use Rattle.record_scripts.specs.ScriptFaults.{Tells};
ghost use Rattle.heaprec_commands.specs.declared.reader.InputKind.TheVariants.{Script};
ghost use Rattle.heaprec_commands.specs.FileLines.{one_fault, with_one};

use crate::reader::InputKind;
use record_scripts::{ScriptFault, Scripts};

/// Takes the next line of a file. For a script, one of them is open.
pub fn take_line(kind: InputKind, scripts: &mut Scripts, line: &[u8]) -> Result<(), ScriptFault>
    requires open { kind ≡ Script → 0 < length scripts.old.scripts }
    requires short { length line.now < 2 ^ 32 }
    ensures taken { OnOk result (scripts.new ≡ with_one kind scripts.old line.now) }
    ensures no_fault { OnOk result (one_fault kind scripts.old line.now ≡ None) }
    ensures fault { IfErr result (λ fault. Tells fault (one_fault kind scripts.old line.now)) }
{
    match kind {
        InputKind::Modules => scripts.module_line(line),
        InputKind::Script => scripts.line(line),
    }
}
