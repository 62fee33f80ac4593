//! The fields of peaks. Patterns without `..` take them apart, so that one more, such as a second copy of what each stack has live,
//! isn't passed over.

use crate::mark::Mark;
use crate::peaks::Peaks;

#[test]
fn no_other_fields(rt: HostRuntime) {
    let peaks = Peaks::new(rt.alloc()).expect(&rt, "peaks");
    let Peaks {
        ledger,
        saved,
        blocks,
        stamps,
        mark,
    } = &peaks;
    let Mark {
        total,
        moment,
        counter,
    } = mark;
    let lengths = [ledger.stacks(), saved.len(), blocks.len(), stamps.len()];
    assert_eq!(rt; lengths, [1, 1, 1, 1]);
    assert_eq!(rt; [*total, *moment, *counter], [0, 0, 1]);
}
