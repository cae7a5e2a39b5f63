//! What holds at the places of a transcript. Each law is the contract of a function that does nothing, which a crate above calls
//! where it needs the law.

ghost use Rattle.play_laws.specs.ViewAnswers.{RepliesAtPlaces};
ghost use Rattle.play_laws.specs.CommandAsks.{EntriesByRefusals};
ghost use Rattle.play_laws.specs.FaultAsks.{FaultsByPages};
ghost use Rattle.play_laws.specs.MappedPages.{NothingMapped, MappedIsTouched, MappedAfterEntry, MappedAfterLine, MappedAfterTouch, MappedAfterFault, MappedAfterOthers};

use check_core::{touched_pages_decide_places, views_answer_at_places};
use load_model::others_leave_alike;

/// What a view answers by itself at a place is what the loader answers there.
pub fn views_reply_at_places()
    ensures { RepliesAtPlaces }
{
    views_answer_at_places();
}

/// Which entries of commands may be asked, and which of those use touched pages alone, by the refusals of the commands.
pub fn entries_by_refusals()
    ensures { EntriesByRefusals }
{}

/// Which faults may be asked, by the pages that all processes share.
pub fn faults_by_pages()
    ensures { FaultsByPages }
{}

/// Which pages a process has mapped goes on from item to item.
pub fn mapped_pages_move()
    ensures nothing { NothingMapped }
    ensures touched { MappedIsTouched }
    ensures entry { MappedAfterEntry }
    ensures line { MappedAfterLine }
    ensures touch { MappedAfterTouch }
    ensures fault { MappedAfterFault }
    ensures others { MappedAfterOthers }
{
    touched_pages_decide_places();
    others_leave_alike();
}
