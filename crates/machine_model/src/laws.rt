//! Laws of the machine, which the layers above cite. The functions do nothing. `O` is what a checked
//! operation is.

ghost use Rattle.machine_model.specs.Laws.{LastWriteCounts, ArrivalsInAnyOrder, ArrivalsInAnyOrderFlattened, SilentUntilDispatched, SilentAtTeardown, SilentRuns, ReadingsStayCurrent, ReadingsStayCurrentInRuns, ClosedTicketsStay, ClosedTicketsStayInRuns, AnswersClose, OneRun};

/// The cache is one plain map after the present results of all operations, in order of first sending.
pub fn last_write_counts()
    ensures { LastWriteCounts }
{}

/// The order in which results come doesn't matter.
pub fn arrivals_in_any_order()
    ensures history { ArrivalsInAnyOrder }
    ensures map { ArrivalsInAnyOrderFlattened }
{}

/// Nothing is told of an operation after its teardown, until it is dispatched again.
pub fn silent_after_teardown<O>()
    ensures teardown { SilentAtTeardown O }
    ensures command { SilentUntilDispatched O }
    ensures run { SilentRuns O }
{}

/// After each command the last reading of each live query is the one over the flattened map.
pub fn readings_stay_current<O>()
    ensures command { ReadingsStayCurrent O }
    ensures run { ReadingsStayCurrentInRuns O }
{}

/// What a ticket without an open fetch or mutation holds stays for good.
pub fn closed_tickets_stay<O>()
    ensures command { ClosedTicketsStay O }
    ensures run { ClosedTicketsStayInRuns O }
{}

/// After its answer the ticket of a query is finished and closed.
pub fn answers_close<O>()
    ensures { AnswersClose O }
{}

/// A command has one run at most.
pub fn one_run<O>()
    ensures { OneRun O }
{}
