//! Reads a session: which bytes are one, and otherwise the first line that is wrong.
#![tactic(auto)]

mod arguments;
mod draft;
mod kept;
mod keyword;
mod lines;
mod numbers;
mod places;
mod processors;
mod reading;
mod said;
mod statements;
mod threads;

pub use kept::{KeptCut, ReadLine, first_kept};
pub use lines::{WordCut, first_word};
pub use processors::halvings;
pub use reading::read_session;
pub use threads::read_session_by_threads;
