//! What threads may move.

use crate::Board;

fn may_move<T: Send>() {}

// A thread may hand a board on to another.
fn crosses_threads() {
    may_move::<Board>();
}
