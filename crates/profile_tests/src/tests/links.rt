//! Places in an order of their own, one of which is unlinked and given again.

use massif_cull::Links;

#[test]
fn links(rt: HostRuntime) {
    let mut links = Links::new(rt.alloc(), 3).expect(&rt, "memory");
    let first = links.push();
    let middle = links.push();
    let last = links.push();
    assert_eq!(rt; links.first(), Some(first));
    assert_eq!(rt; links.next(first), Some(middle));
    links.unlink(middle);
    assert_eq!(rt; links.next(first), Some(last));
    assert_eq!(rt; links.next(last), None);
    assert_eq!(rt; links.prev(last), Some(first));
    assert_eq!(rt; links.len(), 2);
    assert_eq!(rt; links.push(), middle);
}
