//! Which residences stand and where, where those of a load are to stand, and what an entry calls in them.
#![tactic(auto)]

mod calls;
mod entry;
mod failing;
mod laws;
mod placement;
mod placing;
mod residence_row;
mod table;

pub use entry::{Entering, Failure, Leaving};
pub use failing::{failing_module, gone_again};
pub use laws::legal_residences_stand;
pub use placement::Placement;
pub use placing::NoRoom;
pub use residence_row::ResidenceRow;
pub use table::ResidenceTable;
