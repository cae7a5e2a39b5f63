//! What a run means: the loader with one thread, its steps, and which histories are legal.
#![tactic(auto)]

mod commands;
mod deeds;
mod laws;
mod worked;

pub use commands::{Ask, Command, Place, Refusal, Reply};
pub use deeds::{
    Call, CallKind, Calls, Deed, Entry, Fresh, Gone, History, How, Leavers, Newcomers,
};
pub use laws::{
    agreement_is_enough, asks_decide, commands_are_asked, commands_are_told, counts_are_small,
    failed_loads_leave_nothing, faults_are_given, faults_come_once, first_causes_count,
    gone_is_unreached, histories_grow, names_are_known, others_change_nothing, others_leave_alike,
    own_writes_are_held, reached_is_fit, residences_stand, residences_stay, residents_are_reached,
    serials_are_few, serials_rise, steps_are_sources, touched_pages_decide, views_answer,
    views_stand,
};
