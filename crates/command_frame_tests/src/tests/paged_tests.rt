//! A text that is made while it is delivered, page by page, over outputs of which one call fails.
ghost use Rattle.std.specs.Prelude.{◌≡◌};

use crate::countdown::Countdown;
use crate::tests::runs::{TEXTS, sink};
use command_frame::{Halt, Paged, deliver};
use hp_num::{NoMemory, put_bytes, put_dec};
use std::alloc::Global;

/// 14,000 lines of ten bytes are two pages of 65,540 bytes, and the rest in a third.
const LINES: u64 = 14_000;

/// Appends how many bytes of the text were taken, the message, and the status in brackets, where standard output has so much room, and the call of
/// this number on it fails. A call of number 0 never fails.
fn put_delivery(
    alloc: Global,
    room: usize,
    failing_call: u64,
    all: &mut Vec<u8>,
) -> Result<(), NoMemory> {
    let mut out = sink(alloc, room, failing_call)?;
    let mut err = sink(alloc, 99, 0)?;
    let text = Paged::new(alloc, Countdown { left: LINES })?;
    let ran: Result<Paged<Countdown>, Halt> = Ok(text);
    let status = deliver(ran, &TEXTS, &mut out, &mut err);
    put_dec(all, out.bytes().len() as u64)?;
    put_bytes(all, b" [")?;
    put_dec(all, u64::from(status))?;
    put_bytes(all, b"] ")?;
    put_bytes(all, err.bytes())?;
    put_bytes(all, b"\n")
}

/// Each write of a page is failed once, then the flush, and then no call; and then the room ends within each page.
fn put_deliveries(alloc: Global, all: &mut Vec<u8>) -> Result<(), NoMemory> {
    for call in 1..6 {
        put_delivery(alloc, 200_000, call, all)?;
    }
    for room in [0, 65_539, 65_540, 131_080, 139_999] {
        put_delivery(alloc, room, 0, all)?;
    }
    Ok(())
}

static DELIVERIES: &str = "0 [4] echo: write failed

65540 [4] echo: write failed

131080 [4] echo: write failed

140000 [4] 
140000 [0] 
0 [4] echo: write failed

65539 [4] echo: write failed

65540 [4] echo: write failed

131080 [4] echo: write failed

139999 [4] echo: write failed

";

#[test]
fn each_page_fails(rt: HostRuntime) {
    let mut all = Vec::new(rt.alloc());
    put_deliveries(rt.alloc(), &mut all).expect(&rt, "memory");
    assert_eq!(rt; all.as_slice(), DELIVERIES.as_bytes());
}
