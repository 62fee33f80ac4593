//! A file that is read whole is given back, and one that says `bad` is refused.
use crate::echo::{Bad, Echo};
use command_frame::{DocumentReport, LineRefusal};
use hp_num::put_bytes;
use hp_outside::Bytes;
use std::alloc::Global;

impl DocumentReport for Echo {
    ghost use Rattle.command_frame_tests.specs.Echo.{echo_verdict};

    type Fault = Bad;

    ghost verdict = { λ _. echo_verdict };

    fn report(&self, alloc: Global, bytes: Bytes) -> Result<Vec<u8>, LineRefusal<Bad>> {
        if bytes.bytes() == b"bad".as_slice() {
            return Err(LineRefusal::Fault(Bad));
        }
        let mut output = Vec::new(alloc);
        put_bytes(&mut output, bytes.bytes())?;
        Ok(output)
    }
}
