//! Further laws of the machine (`machine_model`), which the layers above cite. The functions do
//! nothing: each has a law as its clause, and `specs/` states the laws. `O` is what a checked operation
//! is.
//!
//! What every change of tickets, fetches and mutations keeps, every command keeps
//! (`proofs/Walk.antt`): a further law of this kind needs only the changes one by one.
#![tactic(auto)]

mod laws;

pub use laws::{
    cells_are_listed, every_run_ends, fetches_alone, final_answers_close, given_up_closes,
    one_map_of_results, open_fetches_close, tickets_apart, tickets_in_order, what_ends_closes,
};
