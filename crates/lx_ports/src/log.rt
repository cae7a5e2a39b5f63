//! The calls that files have had, with their answers. They exist only in proofs: a log takes no
//! memory, and noting a call does nothing when it runs.
ghost use Rattle.std.specs.Prelude.{◌≡◌, List, []};
ghost use base.Fml.{ftrue};
ghost use Rattle.lx_ports.specs.Calls.{Call};
ghost use Rattle.lx_ports.specs.CallCode.{calls_code};

use crate::{LoadFault, SaveFault};
use std::marker::Model;

/// A call and its answer, as it is noted.
#[derive(Clone, Copy, Drop)]
pub enum Note<'a> {
    Load {
        name: &'a str,
        answer: &'a Result<Vec<u8>, LoadFault>,
    },
    Save {
        name: &'a str,
        bytes: &'a [u8],
        answer: &'a Result<(), SaveFault>,
    },
}

/// The calls so far, in their order.
#[derive(Drop)]
pub struct Log {
    pub ghost calls: { List Call } by { calls_code },
}

impl Model for Log {
    ghost also_owns = { λ _. ftrue };
}

impl Log {
    ghost use Rattle.lx_ports.specs.Notes.{with_call};

    /// A log without calls.
    pub fn new() -> Log
        ensures { result.calls ≡ [] }
    {
        Log {}
    }

    /// The log with one call more.
    #[inline(always)]
    pub fn and(&self, _note: &Note<'_>) -> Log
        ensures { result.calls ≡ with_call self.now.calls _note.now }
    {
        Log {}
    }
}
