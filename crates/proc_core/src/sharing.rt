//! What threads may share and move.

use crate::loader::Loader;
use crate::proc::Proc;

fn may_be_shared<T: Send + Sync>() {}

fn may_move<T: Send>() {}

// Threads share a loader, and each moves its processes.
fn crosses_threads() {
    may_be_shared::<Loader>();
    may_move::<Proc>();
}
