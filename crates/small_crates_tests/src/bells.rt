//! A bell that rings after it was heard and before the sleep.

use bell::Bell;

// Where a ring in between is missed, the sleep has no end, and the test fails by its time.
#[test]
fn a_ring_before_the_sleep_ends_it(rt: HostRuntime) {
    let bell = Bell::new();
    let heard = bell.heard();
    bell.ring();
    bell.sleep(&rt, heard);
}
