//! Worked arrays of snapshots, whose texts are known by hand.
ghost use Rattle.std.specs.Prelude.{◌≡◌};
ghost use Rattle.massif_cull.specs.Entries.{last_time};

use hp_num::{NoMemory, put_bytes, put_dec};
use massif_cull::{Kind, Offer, SnapArray, SnapEntry, Taken};
use std::alloc::Global;
use std::cell::Cell;
use std::process::Abort;

/// Of how many snapshots half are culled, of how many normal ones one is detailed, and by how many hundredths of a percent a
/// peak passes the last one.
pub(crate) type Settings = (u32, u64, u64);

/// What is done with an array.
#[derive(Clone, Copy)]
enum Step {
    /// A normal offer is made, at this time and of so many bytes.
    Normal(u64, u64),
    /// Normal offers of no bytes are made, one at each time from the first on up to the second, which are steps of their own.
    Empty(u64, u64),
    /// A peak is offered.
    Peak(u64, u64),
    Show,
    Cull,
    /// The first snapshot is taken out.
    First,
}

/// An array, and what is done with it.
struct Case {
    settings: Settings,
    steps: &'static [Step],
    /// A letter for each offer, for what it is taken as, or `-`, and lines of the snapshots that are shown and taken out: the
    /// place, the time, the bytes, as load the number of the step, and the kind. How many loads have been dropped is told where
    /// snapshots are shown, and when the array is gone.
    text: &'static str,
}

static CASES: [Case; 6] = [
    // The interval is 0 up to the tenth snapshot, which is culled.
    Case {
        settings: (10, 1_000_000, 100),
        steps: &[
            Step::Show,
            Step::Empty(0, 9),
            Step::Show,
            Step::Normal(9, 0),
            Step::Show,
            Step::Empty(10, 12),
            Step::Show,
        ],
        text: "
next from 0, dropped 0
nnnnnnnnn
0 0 0 1 normal
1 1 0 2 normal
2 2 0 3 normal
3 3 0 4 normal
4 4 0 5 normal
5 5 0 6 normal
6 6 0 7 normal
7 7 0 8 normal
8 8 0 9 normal
next from 8, dropped 0
n
0 0 0 1 normal
2 2 0 3 normal
4 4 0 5 normal
6 6 0 7 normal
9 9 0 11 normal
next from 11, dropped 5
-n
0 0 0 1 normal
2 2 0 3 normal
4 4 0 5 normal
6 6 0 7 normal
9 9 0 11 normal
11 11 0 14 normal
next from 13, dropped 6
dropped 12
",
    },
    // A peak stands among the offers.
    Case {
        settings: (10, 1_000_000, 100),
        steps: &[
            Step::Empty(0, 3),
            Step::Peak(2, 5),
            Step::Empty(3, 9),
            Step::Show,
        ],
        text: "nnnpnnnnnn
0 0 0 0 normal
2 2 5 3 peak
4 4 0 5 normal
6 6 0 7 normal
8 8 0 9 normal
next from 10, dropped 5
dropped 10
",
    },
    // A peak is compared with the last one, which one percent more doesn't pass.
    Case {
        settings: (100, 1_000_000, 100),
        steps: &[
            Step::Normal(0, 0),
            Step::Peak(1, 1000),
            Step::Peak(2, 1010),
            Step::Peak(3, 1011),
            Step::Show,
        ],
        text: "np-p
0 0 0 0 normal
1 1 1000 1 normal
3 3 1011 3 peak
next from 3, dropped 1
dropped 4
",
    },
    // Normal offers alone are counted for detail.
    Case {
        settings: (100, 3, 0),
        steps: &[
            Step::Normal(0, 0),
            Step::Peak(0, 7),
            Step::Normal(1, 0),
            Step::Normal(2, 9),
            Step::Show,
            Step::Empty(3, 6),
        ],
        text: "npnd
0 0 0 0 normal
0 0 7 1 peak
1 1 0 2 normal
2 2 9 3 detailed
next from 2, dropped 0
nnddropped 7
",
    },
    // What is culled and taken out when asked.
    Case {
        settings: (10, 1_000_000, 0),
        steps: &[
            Step::Empty(0, 7),
            Step::Cull,
            Step::Show,
            Step::First,
            Step::First,
            Step::Show,
        ],
        text: "nnnnnnn
0 0 0 0 normal
2 2 0 2 normal
4 4 0 4 normal
6 6 0 6 normal
next from 8, dropped 3
0 0 0 0 normal
2 2 0 2 normal

4 4 0 4 normal
6 6 0 6 normal
next from 8, dropped 5
dropped 7
",
    },
    Case {
        settings: (10, 1, 0),
        steps: &[
            Step::Empty(0, 2),
            Step::Show,
            Step::First,
            Step::Show,
            Step::First,
            Step::First,
        ],
        text: "dd
0 0 0 0 detailed
1 1 0 1 detailed
next from 1, dropped 0
0 0 0 0 detailed

1 1 0 1 detailed
next from 1, dropped 1
1 1 0 1 detailed
none
dropped 2
",
    },
];

/// A load, which is the number of its step, and counts where it is dropped.
pub(crate) struct Load<'a> {
    pub number: u64,
    pub drops: &'a Cell<u64>,
}

impl Drop for Load<'_> {
    fn drop(self) {
        self.drops.set(self.drops.get().wrapping_add(1));
        let Load {
            number: _,
            drops: _,
        } = self;
    }
}

/// The time of the last snapshot, and 0 of none.
fn last_time(array: &SnapArray<Load>) -> u64
    ensures { result ≡ last_time array.now.kept.entries }
{
    let count = array.len();
    if count == 0 {
        return 0;
    }
    array.entry(count - 1).time
}

/// Makes an offer at an early time and of few bytes.
pub(crate) fn offer<'a>(
    rt: &impl Abort,
    array: &mut SnapArray<Load<'a>>,
    time: u64,
    bytes: u64,
    peak: bool,
    load: Load<'a>,
) -> Taken {
    let offer = Offer {
        place: time,
        time: time.min(10_000),
        total: bytes.min(10_000),
        peak,
    };
    assert!(rt; last_time(array) <= offer.time);
    assert!(rt; array.len() > 0 || !peak);
    let judged = array.judge(&offer);
    let taken = array.offer(offer, load);
    assert!(rt; taken == judged);
    taken
}

/// A letter for what an offer was taken as.
fn letter(taken: Taken) -> &'static [u8] {
    match taken {
        Taken::No => b"-",
        Taken::Normal => b"n",
        Taken::Detailed => b"d",
        Taken::Peak => b"p",
    }
}

fn kind_line(kind: Kind) -> &'static [u8] {
    match kind {
        Kind::Normal => b"normal\n",
        Kind::Detailed => b"detailed\n",
        Kind::Peak => b"peak\n",
    }
}

/// Appends a line of a snapshot: its place, its time, its bytes and its load, and what it is kept as.
fn put_entry(entry: &SnapEntry, load: u64, out: &mut Vec<u8>) -> Result<(), NoMemory> {
    for figure in &[entry.place, entry.time, entry.total, load] {
        put_dec(out, *figure)?;
        put_bytes(out, b" ")?;
    }
    put_bytes(out, kind_line(entry.kind))
}

/// Appends how many loads have been dropped.
fn put_drops(drops: &Cell<u64>, out: &mut Vec<u8>) -> Result<(), NoMemory> {
    put_bytes(out, b"dropped ")?;
    put_dec(out, drops.get())?;
    put_bytes(out, b"\n")
}

/// Appends lines of the snapshots, and the time from which on a normal offer is taken.
fn put_array(array: &SnapArray<Load>, out: &mut Vec<u8>) -> Result<(), NoMemory> {
    put_bytes(out, b"\n")?;
    for i in 0..array.len() {
        put_entry(&array.entry(i), array.load(i).number, out)?;
    }
    put_bytes(out, b"next from ")?;
    put_dec(out, array.next_time())?;
    put_bytes(out, b", ")
}

/// Takes the first snapshot out, and appends its line.
fn put_first(array: &mut SnapArray<Load>, out: &mut Vec<u8>) -> Result<(), NoMemory> {
    match array.take_first() {
        Some((entry, load)) => {
            let number = load.number;
            drop(load);
            put_entry(&entry, number, out)
        }
        None => put_bytes(out, b"none\n"),
    }
}

/// Makes normal offers of no bytes, of which the first has this number, and appends a letter for each.
fn put_empty<'a>(
    rt: &impl Abort,
    array: &mut SnapArray<Load<'a>>,
    drops: &'a Cell<u64>,
    first: u64,
    end: u64,
    number: u64,
    out: &mut Vec<u8>,
) -> Result<(), NoMemory> {
    for time in first..end {
        let number = number.wrapping_add(time.wrapping_sub(first));
        let taken = offer(rt, array, time, 0, false, Load { number, drops });
        put_bytes(out, letter(taken))?;
    }
    Ok(())
}

/// Does a step, which has this number, and appends what it comes to.
fn put_step<'a>(
    rt: &impl Abort,
    array: &mut SnapArray<Load<'a>>,
    drops: &'a Cell<u64>,
    step: Step,
    number: u64,
    out: &mut Vec<u8>,
) -> Result<(), NoMemory> {
    match step {
        Step::Normal(time, bytes) => {
            let taken = offer(rt, array, time, bytes, false, Load { number, drops });
            put_bytes(out, letter(taken))
        }
        Step::Empty(first, end) => put_empty(rt, array, drops, first, end, number, out),
        Step::Peak(time, bytes) => {
            let taken = offer(rt, array, time, bytes, true, Load { number, drops });
            put_bytes(out, letter(taken))
        }
        Step::Show => {
            put_array(array, out)?;
            put_drops(drops, out)
        }
        Step::Cull => {
            assert!(rt; array.len() >= 6);
            array.cull();
            Ok(())
        }
        Step::First => put_first(array, out),
    }
}

/// Does the steps, and appends what they come to.
fn put_steps<'a>(
    rt: &impl Abort,
    array: &mut SnapArray<Load<'a>>,
    drops: &'a Cell<u64>,
    steps: &[Step],
    out: &mut Vec<u8>,
) -> Result<(), NoMemory> {
    let mut number = 0u64;
    for step in steps {
        put_step(rt, array, drops, *step, number, out)?;
        number = number.wrapping_add(count_of(*step));
    }
    Ok(())
}

/// How many steps of its own a step is.
fn count_of(step: Step) -> u64 {
    match step {
        Step::Empty(first, end) => end.saturating_sub(first),
        _ => 1,
    }
}

/// An array without snapshots.
pub(crate) fn array_of<'a>(
    rt: &impl Abort,
    alloc: Global,
    settings: Settings,
) -> SnapArray<Load<'a>> {
    let (max, detailed_freq, inaccuracy) = settings;
    SnapArray::new(
        alloc,
        max.max(10).min(1000),
        detailed_freq.max(1).min(1_000_000),
        inaccuracy.min(10_000),
    )
    .expect(rt, "memory")
}

/// What the steps of the case come to is its text.
fn works(rt: &impl Abort, alloc: Global, case: &Case) {
    let drops = Cell::new(0);
    let mut array = array_of(rt, alloc, case.settings);
    let mut out = Vec::new(alloc);
    put_steps(rt, &mut array, &drops, case.steps, &mut out).expect(rt, "memory");
    drop(array);
    put_drops(&drops, &mut out).expect(rt, "memory");
    assert_eq!(rt; out.as_slice(), case.text.as_bytes());
}

#[test]
fn arrays(rt: HostRuntime) {
    for case in &CASES {
        works(&rt, rt.alloc(), case);
    }
}
