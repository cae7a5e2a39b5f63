//! What threads may share and move.

use crate::{Frames, Keeper, KeptResidence, Residence};
use std::sync::Arc;

fn may_be_shared<T: Send + Sync>() {}

fn may_move<T: Send>() {}

// Threads may share a residence, and hand on who holds or keeps it.
fn crosses_threads() {
    may_be_shared::<Residence>();
    may_move::<Residence>();
    may_move::<Arc<Frames>>();
    may_move::<KeptResidence>();
    may_move::<Keeper>();
}
