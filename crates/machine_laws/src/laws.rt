ghost use Rattle.machine_laws.specs.Tickets.{TicketsInOrderAtFirst, TicketsInOrder, TicketsInOrderInRuns};
ghost use Rattle.machine_laws.specs.Answers.{FinalAnswersClose};
ghost use Rattle.machine_laws.specs.Endings.{EveryRunEnds};
ghost use Rattle.machine_laws.specs.Closings.{TicketsApartAtFirst, TicketsApart, QueriesAlone, MutationsAlone, QueriesClose, MutationsClose, OpenQueriesClose, OpenMutationsClose, TeardownsClose, FullQueuesClose, TicketsApartInRuns};
ghost use Rattle.machine_laws.specs.Results.{ResultsAtFirst, ResultsGoOn, RunsHaveResults, OneMapOfResults};
ghost use Rattle.machine_laws.specs.Listings.{CellsAreListed, OneListing};

use machine_model::answers_close;

/// Each ticket has one open fetch at most, and tickets are drawn in order of first sending.
pub fn tickets_in_order<O>()
    ensures first { TicketsInOrderAtFirst O }
    ensures command { TicketsInOrder O }
    ensures run { TicketsInOrderInRuns O }
{}

/// After the last that it gets the ticket of a mutation is finished and closed.
pub fn final_answers_close<O>()
    ensures { FinalAnswersClose O }
{}

/// Each command has a run, where the listener asks for no more than was given to follow.
pub fn every_run_ends<O>()
    ensures { EveryRunEnds O }
{}

/// What nothing is open for is finished, and an open fetch shares its ticket with a mutation where it has no key.
pub fn tickets_apart<O>()
    ensures first { TicketsApartAtFirst O }
    ensures command { TicketsApart O }
    ensures run { TicketsApartInRuns O }
{}

/// Each open fetch is alone with its ticket but for its own mutation.
pub fn fetches_alone<O>()
    ensures query { QueriesAlone O }
    ensures mutation { MutationsAlone O }
{}

/// Whichever command ends the open fetch of a query, or a mutation, its ticket is finished and closed then.
pub fn what_ends_closes<O>()
    ensures query { QueriesClose O }
    ensures mutation { MutationsClose O }
{}

/// After an answer to an open fetch its ticket is finished and closed.
pub fn open_fetches_close<O>()
    ensures query { OpenQueriesClose O }
    ensures mutation { OpenMutationsClose O }
{
    answers_close::<O>();
}

/// What the last teardown of a key or a full queue gives up is emptied, finished and closed.
pub fn given_up_closes<O>()
    ensures teardown { TeardownsClose O }
    ensures queue { FullQueuesClose O }
{}

/// The cache is the map of what was sent under each ticket and of what came of it, so two runs with the
/// same tickets and results have one map, whatever the order.
pub fn one_map_of_results<O>()
    ensures first { ResultsAtFirst O }
    ensures command { ResultsGoOn O }
    ensures run { RunsHaveResults O }
    ensures map { OneMapOfResults O }
{}

/// What `flat` is answered with is the listing of the flattened map, and there is no other.
pub fn cells_are_listed()
    ensures cells { CellsAreListed }
    ensures one { OneListing }
{}
