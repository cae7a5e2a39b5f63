//! What a transcript tells, judged against a session in one thread.
#![tactic(auto)]

mod ahead;
mod commands;
mod counts;
mod entries;
mod faulted;
mod fronts;
mod headings;
mod items;
mod judging;
mod laws;
mod lines;
mod merged;
mod next;
mod player;
mod playing;
mod same_answers;
mod same_deeds;
mod sameness;
mod summary;
mod told;
mod whole;

pub use ahead::next_items;
pub use commands::asks_for;
pub use counts::{are_counts, height, line_after};
pub use entries::is_last;
pub use faulted::FaultedPages;
pub use fronts::beyond_fault;
pub use headings::heading_fault;
pub use items::{ToldEntry, ToldItem, ToldLine};
pub use judging::judge_items;
pub use laws::{
    commands_are_counted, entries_are_the_historys, places_are_judged_in_turn,
    touched_pages_decide_places, views_answer_at_places,
};
pub use lines::{all_lines, by_front};
pub use merged::merged_items;
pub use next::{all_done, count_command, entry_is_next, line_is_next};
pub use player::Player;
pub use playing::{JudgedBy, judge_item};
pub use sameness::Same;
pub use summary::summary_fault;
pub use told::ToldRun;
pub use whole::{ItemsJudged, judge};
