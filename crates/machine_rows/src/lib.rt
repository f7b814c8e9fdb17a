//! Worked runs of the machine (`machine_model`), as laws on functions that do nothing: which outputs each of
//! some commands gives, in order, by the machine's own definitions. It stands on these and on what they need.
//!
//! `specs/` has a small meaning of a few operations over one schema (`Operations.antt` to `Meanings.antt`), then
//! commands and outputs by short names (`Dialogs.antt`), and the runs (`Queries.antt`, `Mutations.antt`). Only the
//! machine is shown here: what documents read and write is proved of the layers below, over every document.
#![tactic(auto)]

mod mutations;
mod policies;
mod queries;
mod rows;

pub use mutations::{
    a_guess_and_another_answer, a_guess_and_its_answer, an_older_answer_brings_nothing_back,
    another_listener_stays_at_a_miss, answers_in_order_of_sending, blocked_while_guessed,
};
pub use policies::{cache_and_network, cache_first, cache_only, network_only};
pub use queries::{
    answers_out_of_order, cache_only_beside_network_only, followed_by_a_torn_down_dispatch,
    one_query_for_two, teardown_in_flight,
};
pub use rows::{queued_and_offered_again, sent_again_under_its_ticket};
