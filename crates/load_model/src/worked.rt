//! Worked values of the definitions, from outside them: each function's contract is a table of values
//! that the definitions give.

ghost use Rattle.load_model.specs.WorkedLoads.{WorkedDiamond, WorkedPlaces, WorkedCalls};
ghost use Rattle.load_model.specs.WorkedBytes.{WorkedWrites};
ghost use Rattle.load_model.specs.WorkedCycles.{WorkedCycles};
ghost use Rattle.load_model.specs.WorkedFailures.{WorkedFailures};
ghost use Rattle.load_model.specs.WorkedChains.{WorkedChains, WorkedTwoFail};
ghost use Rattle.load_model.specs.WorkedOrder.{WorkedEnterOrder, WorkedEnded, WorkedPlaceOrder};
ghost use Rattle.load_model.specs.WorkedDebug.{WorkedDebug};
ghost use Rattle.load_model.specs.WorkedResources.{WorkedResources};
ghost use Rattle.load_model.specs.WorkedSteps.{WorkedSteps};
ghost use Rattle.load_model.specs.WorkedViews.{WorkedViews};
ghost use Rattle.load_model.specs.WorkedRefusals.{WorkedLoadRefusals, WorkedPlaceRefusals, WorkedQueries};

/// A diamond of imports: what is new at each load, in which order it is initialised, and what leaves.
pub fn diamond_loads()
    ensures { WorkedDiamond }
{}

/// Libraries that are called for each process, loads that are counted, and sixteen processes.
pub fn processes_are_called()
    ensures { WorkedCalls }
{}

/// Where objects stand beside others, and where there is no place for one.
pub fn objects_stand()
    ensures { WorkedPlaces }
{}

/// What two processes see of each other's writes, and when writes and touches end.
pub fn writes_are_seen()
    ensures { WorkedWrites }
{}

/// One case of each refusal of a start, a load, a free and an exit.
pub fn loads_are_refused()
    ensures { WorkedLoadRefusals }
{}

/// One case of each refusal of a place.
pub fn places_are_refused()
    ensures { WorkedPlaceRefusals }
{}

/// Addresses of entry points, and one case of each refusal of a query.
pub fn queries_are_answered()
    ensures { WorkedQueries }
{}

/// Libraries that import each other, or themselves, and forwarders that come back.
pub fn cycles_load()
    ensures { WorkedCycles }
{}

/// Initialisations that fail: what is called then, and what is left.
pub fn initialisations_fail()
    ensures { WorkedFailures }
{}

/// A chain of four one of whose members fails, with what stood before, and two that fail in one load.
pub fn chains_are_undone()
    ensures chains { WorkedChains }
    ensures two { WorkedTwoFail }
{}

/// Of two causes to refuse a command, which one it is told.
pub fn refusals_are_ordered()
    ensures enter { WorkedEnterOrder }
    ensures ended { WorkedEnded }
    ensures places { WorkedPlaceOrder }
{}

/// Who sees a write to code, and when it ends.
pub fn code_is_written()
    ensures { WorkedDebug }
{}

/// Resources that a module has, and one that it has not.
pub fn resources_are_asked()
    ensures { WorkedResources }
{}

/// What a process's own view refuses and replies, before and after a write of its own.
pub fn views_are_worked()
    ensures { WorkedViews }
{}

/// How many steps touches of code and of private pages take, where others fixed some of them.
pub fn steps_are_worked()
    ensures { WorkedSteps }
{}
