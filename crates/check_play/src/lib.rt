//! The player of the items of a transcript, in one thread, over a board and the views of the processes.
#![tactic(auto)]

mod asking;
mod deeds;
mod faults;
mod hands;
mod player;
mod replies;
mod standing;
mod steady;
mod touches;
mod untouched;

pub use hands::Hands;
pub use player::SessionPlayer;
pub use replies::answer_of;
pub use standing::{AttachedResidence, Standing};
