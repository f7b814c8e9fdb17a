ghost use Rattle.machine_rows.specs.Meanings.{no_rules};
ghost use Rattle.machine_rows.specs.Dialogs.{Dialog};
ghost use Rattle.machine_rows.specs.Queries as run;

/// The same is asked in other words while it is fetched: one fetch is sent, and its answer is told to both.
pub fn one_query_for_two()
    ensures { Dialog no_rules run.one_query_for_two }
{}

/// The last that listens leaves: the fetch is cancelled, its answer is refused, and its ticket is given up.
pub fn teardown_in_flight()
    ensures { Dialog no_rules run.teardown_in_flight }
{}

/// Two answers about one user come in the other order than their fetches were sent: what was sent last
/// counts, and no ticket is kept.
pub fn answers_out_of_order()
    ensures { Dialog no_rules run.answers_out_of_order }
{}

/// What follows the first reply tears its own query down, dispatches another one and takes that out again
/// before it ran.
pub fn followed_by_a_torn_down_dispatch()
    ensures { Dialog no_rules run.followed_by_a_torn_down_dispatch }
{}

/// A network-only answer without an id leads the root to another object: what others read there is a miss,
/// and only the cache-first query is sent again.
pub fn cache_only_beside_network_only()
    ensures { Dialog no_rules run.cache_only_beside_network_only }
{}
