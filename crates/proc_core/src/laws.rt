//! What the definitions say of an entry that a process makes, and the most tickets written out.

ghost use Rattle.std.specs.Prelude.{◌≡◌};
ghost use Rattle.load_model.specs.Accepted.{AcceptedMayAsk, TouchedIsApart};
ghost use Rattle.load_model.specs.Laws.{OneMoreIsLegal};
ghost use Rattle.load_model.specs.Outcomes.{NamesAreKnown, RefusedIsTold};
ghost use Rattle.load_model.specs.ViewLaws.{RefusedByView};

use crate::deeds::MAX_TICKETS;
use load_model::{
    commands_are_asked, commands_are_told, histories_grow, names_are_known, views_answer,
};

/// A law: the most tickets that one process draws.
pub fn ticket_limit()
    ensures { MAX_TICKETS ≡ 4294901760 }
{}

// A command that the view does not refuse names a module and may be asked, and the history is legal with its entry.
pub(crate) fn entries_are_known()
    ensures known { NamesAreKnown }
    ensures refusals { RefusedByView }
    ensures told { RefusedIsTold }
    ensures may { AcceptedMayAsk }
    ensures apart { TouchedIsApart }
    ensures grows { OneMoreIsLegal }
{
    names_are_known();
    views_answer();
    commands_are_told();
    commands_are_asked();
    histories_grow();
}
