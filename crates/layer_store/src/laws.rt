//! Laws of what a store stands for, which the layers above cite. The functions do nothing.

ghost use Rattle.layer_store.specs.Laws.{ShowsFlattened, CountsTickets, OpensUnfinished, UnfinishedWhereOpen, FinishesSettled, StandsUnchanged};

/// Whatever the store stands for, look-ups show its one plain map.
pub fn shows_flattened()
    ensures { ShowsFlattened }
{}

/// The drawn tickets are those of the history.
pub fn counts_tickets()
    ensures { CountsTickets }
{}

/// Which tickets are open, and which can be finished, is seen in the history.
pub fn opens_unfinished()
    ensures opened { OpensUnfinished }
    ensures unfinished { UnfinishedWhereOpen }
    ensures settled { FinishesSettled }
{}

/// What a refusal leaves stands for the same histories.
pub fn stands_unchanged()
    ensures { StandsUnchanged }
{}
