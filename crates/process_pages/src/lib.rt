//! The pages that a process has mapped, with its own writes in them, and where each stands among them.
#![tactic(auto)]

mod freeing;
mod mapped_page;
mod name_hints;
mod page_rows;
mod reached_residences;
mod reading;
mod residence_finder;
mod spare_pages;
mod writing;

pub use freeing::{keep_places, keep_reached};
pub use mapped_page::MappedPage;
pub use name_hints::NameHints;
pub use page_rows::PageRows;
pub use reached_residences::{ReachedResidence, residence_place};
pub use reading::{copy_out, run_at};
pub use residence_finder::ResidenceFinder;
pub use spare_pages::SparePages;
pub use writing::{covered_count, put_covered};
