//! What the calls of a board answer.

use page_fix::FixRight;
use page_frames::Residence;

/// What a start or a load comes to. Each has its entry in the history.
#[derive(Drop)]
pub enum Loaded {
    /// It was done. These are the residences of the modules that the process did not reach before, each after what
    /// it imports.
    Done { joined: Vec<Residence> },
    /// Nothing was loaded, since an object of module `of`, of `size` bytes, has no place.
    Full { of: u32, object: u32, size: u32 },
    /// Nothing was loaded, since the initialisation of module `by` failed.
    Failed { by: u32 },
}

/// What the claim of a page comes to. A right has to be spent, so that no page is claimed and left.
pub enum Claim {
    /// The page had no fault: who holds the right fixes the page and publishes it.
    Right(FixRight),
    /// The page had its fault: another holds or held the right, and the page is or will be published.
    Taken,
}

/// What is told to a process that asked something.
pub enum Answer {
    /// It was done. What was read stands in the buffer.
    Done,
    /// A start or a load was asked.
    Loaded(Loaded),
    /// A page was asked for.
    Claimed(Claim),
}
