//! Cells of the graph of a worked Massif file. Whole pages are runs of `ms_print` in `commands_tests`.
ghost use Rattle.std.specs.Prelude.{◌≡◌, ◌≢◌, All, IfOk, true};
ghost use Rattle.massif_file.specs.IsWritable.{IsLine, IsWritable};

use hp_num::Text;
use massif_file::{Profile, ProfileFault, ProfileReader};
use ms_print::{PageOptions, cell};
use std::alloc::Global;

/// A file of five snapshots, of which one is the peak, without its tree's children.
static LINES: [&[u8]; 29] = [
    b"desc: heapsuite massif",
    b"cmd: demo",
    b"time_unit: B",
    b"snapshot=0",
    b"time=0",
    b"mem_heap_B=0",
    b"mem_heap_extra_B=0",
    b"mem_stacks_B=0",
    b"heap_tree=empty",
    b"snapshot=1",
    b"time=120",
    b"mem_heap_B=100",
    b"mem_heap_extra_B=20",
    b"mem_stacks_B=0",
    b"heap_tree=peak",
    b"n0: 100 main",
    b"snapshot=2",
    b"time=240",
    b"mem_heap_B=0",
    b"mem_heap_extra_B=0",
    b"mem_stacks_B=0",
    b"heap_tree=empty",
    b"snapshot=3",
    b"time=360",
    b"mem_heap_B=100",
    b"mem_heap_extra_B=20",
    b"mem_stacks_B=0",
    b"heap_tree=empty",
    b"",
];

/// The rows of its graph of eight columns, from the top.
static ROWS: [&[u8; 8]; 4] = [b"  ##   :", b"  #    :", b"  #    :", b"  #    :"];

/// Whether the text has no line feed.
fn is_line(text: &[u8]) -> bool
    ensures { result ≡ true → IsLine text.now }
{
    text.iter().all(|byte| *byte != b'\n')
}

/// The profile that the lines are. That a line has a line feed is no case.
fn profile_of(alloc: Global, lines: &[&[u8]]) -> Result<Profile, ProfileFault>
    ensures { IfOk result (λ profile. IsWritable profile) }
{
    let mut reader = ProfileReader::new(alloc);
    'lines: for line in lines {
        if !is_line(line) {
            return Err(ProfileFault::Truncated);
        }
        reader.line(line)?;
    }
    reader.finish()
}

#[test]
fn cells(rt: HostRuntime) {
    let profile = profile_of(rt.alloc(), &LINES).expect(&rt, "a profile");
    let options = PageOptions {
        threshold: 100,
        x: 8,
        y: 4,
        words: Text::new(rt.alloc(), b"").expect(&rt, "memory"),
    };
    for y in 1..=4 {
        for x in 1..=8 {
            let row = ROWS[4 - y as usize];
            assert_eq!(rt;
                cell(&options, &profile, x, y),
                row[x as usize - 1],
                "at {x}, {y}"
            );
        }
    }
}
