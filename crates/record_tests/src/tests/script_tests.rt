//! Scripts of other lines that say the same. Lines of scripts are tried by runs.

use crate::tests::script_text::scripts_of;

/// What scripts that differ come to is a clause.
#[test]
fn scripts_that_say_the_same(rt: HostRuntime) {
    let scripts = scripts_of(&rt, rt.alloc(), b"a 1 8 2\nf 1|a 1 8 3");
    let others = scripts_of(&rt, rt.alloc(), b"a 01 8 2\n\nf 1|a 1 8 3");
    assert!(rt; scripts.is_same(&others));
}
