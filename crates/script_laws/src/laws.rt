//! How far a process has come with its script. Each law is the contract of a function that does nothing, which a crate above
//! calls where it needs the law.

ghost use Rattle.script_laws.specs.Commands.{EntryGoesOn, ProgressBegins, ReadGoesOn, RefusedGoesOn, TouchGoesOn};
ghost use Rattle.script_laws.specs.Ends.{ScriptsAreRun, ScriptsHaveARun};

/// A process that has done nothing has carried out nothing.
pub fn progress_begins()
    ensures { ProgressBegins }
{
    load_model::histories_grow();
    load_model::views_stand();
    merge_laws::account_grows();
    merge_laws::touched_pages_are_followed();
}

/// A command that the process's view refuses, or answers by what it has, is a line, and carried out.
pub fn steady_lines_go_on()
    ensures refused { RefusedGoesOn }
    ensures read { ReadGoesOn }
{
    merge_laws::account_grows();
    merge_laws::touched_pages_are_followed();
    merge_laws::views_account();
}

/// A command whose entry the process made, after entries of others, is carried out.
pub fn entries_go_on()
    ensures { EntryGoesOn }
{
    merge_laws::account_grows();
    merge_laws::account_goes_on();
    merge_laws::own_states_are_the_historys();
    merge_laws::touched_pages_are_followed();
}

/// A touch whose faults the process made, with entries of others between them, is carried out with its line.
pub fn touches_go_on()
    ensures { TouchGoesOn }
{
    load_model::histories_grow();
    load_model::views_stand();
    merge_laws::account_goes_on();
    merge_laws::own_states_are_the_historys();
    merge_laws::touch_grows();
    merge_laws::touched_pages_are_followed();
    merge_laws::views_touch();
}

/// Processes that have carried out all scripts over one history have run them.
pub fn scripts_are_run()
    ensures { ScriptsAreRun }
{
    merge_laws::account_goes_on();
    merge_laws::accounts_merge();
}

/// Scripts of at most sixteen processes have a run: one after the other is one.
pub fn scripts_have_a_run()
    ensures { ScriptsHaveARun }
{
    progress_begins();
    steady_lines_go_on();
    entries_go_on();
    touches_go_on();
    scripts_are_run();
    load_model::histories_grow();
    load_model::serials_rise();
    load_model::commands_are_asked();
    load_model::names_are_known();
    load_model::views_stand();
    load_model::views_answer();
    merge_laws::account_goes_on();
    merge_laws::views_touch();
}
