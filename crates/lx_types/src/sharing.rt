//! What threads may share and move.

use crate::Module;

fn may_be_shared<T: Send + Sync>() {}

fn may_move<T: Send>() {}

// Threads may share a module, and hand it on.
fn crosses_threads() {
    may_be_shared::<Module>();
    may_move::<Module>();
}
