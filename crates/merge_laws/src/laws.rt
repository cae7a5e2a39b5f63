//! What accounts say. Each law is the contract of a function that does nothing, which a crate above calls where
//! it needs the law.

ghost use Rattle.merge_laws.specs.OwnStates.{OwnItemsHaveHistory, OwnStateIsTheHistorys, FollowingReplies, NothingTouched, TouchedAfterEntry, TouchedAfterLine, TouchedGoesOn, TouchedDecides, TouchFollowsFaults};
ghost use Rattle.merge_laws.specs.ViewAccounts.{ViewRefuses, ViewReplies, TouchAccepted, TouchFixed, FaultForTouch, TouchMapped, WrittenMapped, LeftMapped};
ghost use Rattle.merge_laws.specs.AccountLaws.{AccountsMerge, AccountBegins, OthersEntryStays, OwnEntryAdds, OwnLineAdds, TouchBegins, TouchWaits, TouchFaults, TouchEnds, AccountGoesOn, TouchGoesOn};

/// What all processes say of themselves over one history is a merge of it, for every library, whichever
/// initialisations fail and whatever objects hold.
pub fn accounts_merge()
    ensures { AccountsMerge }
{}

/// What a process says of itself grows item by item: from nothing; it stands after an entry of another; an entry of
/// its own that is no fault adds a command, and so does a line.
pub fn account_grows()
    ensures begins { AccountBegins }
    ensures residences { OthersEntryStays }
    ensures entry { OwnEntryAdds }
    ensures line { OwnLineAdds }
{}

/// A touch that makes faults: it begins with what was said, others go on meanwhile, each fault of the process is one
/// for this touch, and the accepted touch ends it.
pub fn touch_grows()
    ensures begins { TouchBegins }
    ensures waits { TouchWaits }
    ensures faults { TouchFaults }
    ensures ends { TouchEnds }
{}

/// Over a history that goes on without the process, what it said of a prefix it says of the whole, also in the midst of
/// a touch; and it touches no page meanwhile.
pub fn account_goes_on()
    ensures account { AccountGoesOn }
    ensures midst { TouchGoesOn }
    ensures touched { TouchedGoesOn }
{}

/// The state that a process accounts by is the history's but for touched pages: so what follows the history is
/// answered there, and a touch follows where the history has fixed what it covers.
pub fn own_states_are_the_historys()
    ensures items { OwnItemsHaveHistory }
    ensures state { OwnStateIsTheHistorys }
    ensures replies { FollowingReplies }
    ensures faults { TouchFollowsFaults }
{}

/// Which pages a process has touched: none at first, then by its entries and its lines; and they alone decide what its
/// own state has beyond the history's.
pub fn touched_pages_are_followed()
    ensures nothing { NothingTouched }
    ensures entries { TouchedAfterEntry }
    ensures lines { TouchedAfterLine }
    ensures decide { TouchedDecides }
{}

/// A view that stands for the history, and has mapped what its process touched, refuses and replies what the process
/// has to account for.
pub fn views_account()
    ensures refusals { ViewRefuses }
    ensures replies { ViewReplies }
{
    load_model::views_answer();
}

/// A touch by a view: one that it does not refuse is accepted; where its pages are mapped, they had their faults; each
/// fault that the process makes of a page that it had not touched is one for the touch; and after the line it has
/// touched what the view has mapped. A write maps no page more, and after a free or an exit it has touched what the
/// view keeps.
pub fn views_touch()
    ensures accepted { TouchAccepted }
    ensures fixed { TouchFixed }
    ensures faults { FaultForTouch }
    ensures mapped { TouchMapped }
    ensures written { WrittenMapped }
    ensures left { LeftMapped }
{
    load_model::views_answer();
}
