//! Two files, of which the second is refused at its end where the first has no line.
ghost use Rattle.std.specs.Prelude.{◌≡◌};

use crate::echo::Echo;
use crate::signs::Signs;
use command_frame::FilePair;
use hp_num::NoMemory;
use std::alloc::Global;

/// No options.
#[derive(Clone, Copy, Debug)]
pub struct Refusing;

impl FilePair for Refusing {
    ghost use Rattle.command_frame_tests.specs.Echo.{refusing_report};

    type First = Signs;

    type Second = Echo;

    ghost second_report = { λ _. refusing_report };

    fn second(&self, _: Global, first: Signs) -> Result<Echo, NoMemory> {
        Ok(Echo {
            refuses: first.taken == 0,
        })
    }
}
