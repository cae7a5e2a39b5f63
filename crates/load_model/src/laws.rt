//! What the definitions say together. Each law is the contract of a function that does nothing, which a
//! crate above calls where it needs the law.

ghost use Rattle.load_model.specs.Laws.{AsksDecide, PrefixIsLegal, EachFollows, OneMoreIsLegal, NothingIsLegal, OneMoreIsAfter, FaultOnce, ReachedIsResident, AttachedIsReached, GoneIsUnreached, ResidenceStays, ReachStays, OthersRefuseAlike, OthersAnswerAlike, OthersBytesAlike, HeldAnswersAlike, HeldHistoriesAlike, CountsAreResidence};
ghost use Rattle.load_model.specs.Accepted.{AcceptedMayAsk, TouchedIsApart, AcceptedFollows};
ghost use Rattle.load_model.specs.FailedLoads.{FailingStays, FailedLeavesNothing};
ghost use Rattle.load_model.specs.FailedCalls.{FailedCallsTold};
ghost use Rattle.load_model.specs.Causes.{FirstCauseCounts};
ghost use Rattle.load_model.specs.Serials.{SerialsRise, SerialsAreOwn, FaultsAreGiven};
ghost use Rattle.load_model.specs.Fitness.{ReachedIsFit, FitnessIsClosed};
ghost use Rattle.load_model.specs.ResidenceBases.{BasesStand, ResidentsFit};
ghost use Rattle.load_model.specs.ViewLaws.{NewStands, StandsOn, StandsQuiet, StandsMapped, StandsWritten, StandsEntered, RefusedByView, AnsweredByView};
ghost use Rattle.load_model.specs.ViewLeaving.{StandsLeft, KeptAreReached, KeptAreTouched};
ghost use Rattle.load_model.specs.HeldWrites.{OwnWritesAreHeld};
ghost use Rattle.load_model.specs.TouchSteps.{OthersCountNothing, FaultCounts, MappedCounts};
ghost use Rattle.load_model.specs.Outcomes.{NamesAreKnown, RefusedIsTold, AcceptedIsTold};
ghost use Rattle.load_model.specs.Bounds.{CountsAreSmall, OrdersAreFew, SerialsAreFew};
ghost use Rattle.load_model.specs.Touched.{AnsweredByPages, EntriesMoveTouched};
ghost use Rattle.load_model.specs.Alike.{OthersLeaveAlike, BasesAreAlike, BasesSeenStay};

/// Two legal histories whose entries ask the same are the same: nothing else in them was free.
pub fn asks_decide()
    ensures { AsksDecide }
{}

/// A legal history grows by one entry that follows it, and each of its entries follows those before.
pub fn histories_grow()
    ensures nothing { NothingIsLegal }
    ensures grows { OneMoreIsLegal }
    ensures shrinks { PrefixIsLegal }
    ensures follows { EachFollows }
    ensures after { OneMoreIsAfter }
{}

/// A page of a residence has its fault once.
pub fn faults_come_once()
    ensures { FaultOnce }
{}

/// A module is resident exactly while some process reaches it, and a process has attached what it
/// reaches.
pub fn residents_are_reached()
    ensures resident { ReachedIsResident }
    ensures attached { AttachedIsReached }
    ensures counts { CountsAreResidence }
{}

/// What is gone with an entry is what was resident and no process reaches after it.
pub fn gone_is_unreached()
    ensures { GoneIsUnreached }
{}

/// Each command has a list of causes for which it is refused, and the first that holds is its refusal.
pub fn first_causes_count()
    ensures { FirstCauseCounts }
{}

/// Which initialisations fail is fixed from the start; and what begins with a load that fails ends with it, while
/// residences and processes stay as they were. It calls what it would have called up to the first that fails, and
/// then terminates what it had attached before that, the last first.
pub fn failed_loads_leave_nothing()
    ensures fixed { FailingStays }
    ensures nothing { FailedLeavesNothing }
    ensures called { FailedCallsTold }
{}

/// A residence whose module is still reached stands as it was; and while one stands, so do those of all
/// modules that its module reaches, with their bases.
pub fn residences_stay()
    ensures still { ResidenceStays }
    ensures reach { ReachStays }
    ensures bases { BasesSeenStay }
{
    lx_model::order_is_reach();
}

/// An entry of another process changes no refusal of a process, no answer of a touch, a peek, a query or the
/// search for a resource, whatever was touched, and no byte of code or of the process's own data.
pub fn others_change_nothing()
    ensures refusals { OthersRefuseAlike }
    ensures answers { OthersAnswerAlike }
    ensures bytes { OthersBytesAlike }
{
    lx_model::order_is_reach();
}

/// Where two ways to say what objects hold agree on what a process can see, each command has one answer,
/// and the same histories are legal.
pub fn agreement_is_enough()
    ensures answers { HeldAnswersAlike }
    ensures histories { HeldHistoriesAlike }
{}

/// Residences stand by rising serial numbers, so each has its own.
pub fn serials_rise()
    ensures rise { SerialsRise }
    ensures own { SerialsAreOwn }
{}

/// A command that is not refused and has an entry may ask for it, and the entry is what the loader does
/// then; what was touched decides neither. So the entry follows the history.
pub fn commands_are_asked()
    ensures accepted { AcceptedMayAsk }
    ensures touched { TouchedIsApart }
    ensures follows { AcceptedFollows }
{}

/// An entry of another process leaves a process as it was, and the residences that it reaches, but for shared
/// writes; so it sees the same bases in them.
pub fn others_leave_alike()
    ensures alike { OthersLeaveAlike }
    ensures bases { BasesAreAlike }
{
    lx_model::order_is_reach();
}

/// A fault names a serial number that was given: no page of a residence to come has one.
pub fn faults_are_given()
    ensures { FaultsAreGiven }
{}

/// Each residence has a base for each object of its module: a multiple of 65,536 from which on the object lies
/// within the module's arena.
pub fn residences_stand()
    ensures bases { BasesStand }
    ensures fit { ResidentsFit }
{}

/// What a process reaches is a module of the library, and fit; and what a fit module reaches is fit.
pub fn reached_is_fit()
    ensures reached { ReachedIsFit }
    ensures closed { FitnessIsClosed }
{
    lx_model::order_is_reach();
}

/// Of what was touched it counts for a process which pages it touched itself; and an entry changes all else in
/// one way, whatever was touched.
pub fn touched_pages_decide()
    ensures answers { AnsweredByPages }
    ensures entries { EntriesMoveTouched }
{}

/// What a process's own view stands for: nothing at first; it goes on through entries of other processes, after
/// entries of its own that change nothing in it, with a page more that is mapped, and after a write, a load, a
/// free and an exit of its own.
pub fn views_stand()
    ensures new { NewStands }
    ensures on { StandsOn }
    ensures quiet { StandsQuiet }
    ensures mapped { StandsMapped }
    ensures written { StandsWritten }
    ensures entered { StandsEntered }
    ensures left { StandsLeft }
    ensures kept { KeptAreReached }
    ensures touched { KeptAreTouched }
{
    lx_model::order_is_reach();
}

/// A view's refusals are the loader's; and where it refuses nothing, so is its reply to each command without an
/// entry.
pub fn views_answer()
    ensures refusals { RefusedByView }
    ensures replies { AnsweredByView }
{
    lx_model::order_is_reach();
}

/// The name in a command that is not refused means a module.
pub fn names_are_known()
    ensures { NamesAreKnown }
{}

/// No process holds more than 65,535 loads of one module.
pub fn counts_are_small()
    ensures { CountsAreSmall }
{}

/// A module of a library reaches no more modules than it has; so each entry gives 64 serial numbers at most.
pub fn serials_are_few()
    ensures orders { OrdersAreFew }
    ensures serials { SerialsAreFew }
{
    lx_model::order_is_reach();
}

/// A process's own writes lie in residences that it reaches, in private objects or code.
pub fn own_writes_are_held()
    ensures { OwnWritesAreHeld }
{}

/// A refused command is told why. One that is not refused is told that its entry of this number is done, or of want
/// of a place or an initialisation that failed, with that number, exactly where the entry says so.
pub fn commands_are_told()
    ensures refused { RefusedIsTold }
    ensures accepted { AcceptedIsTold }
{}

/// The steps of a touch grow with each fault that it makes, and each private page that it maps, by the sources of
/// that page's fixups; entries of other processes, and other pages that it maps, count nothing.
pub fn steps_are_sources()
    ensures others { OthersCountNothing }
    ensures fault { FaultCounts }
    ensures mapped { MappedCounts }
{}
