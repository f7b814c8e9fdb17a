//! The machine that the gateway is, defined: what one command does to its state, and what it gives
//! out. It stands on the terms of the cache (`cache_model`), on the request policies of `send_rules`
//! and on the queue of mutations of `queue_model`.
//!
//! It has types and no functions but laws. Its contract for the layers above is its `specs/`, which
//! begin at `Operations.antt` and are read in the order of `Lib.antt`. What operations mean comes to
//! the machine as a record of functions, so it knows nothing of documents; nor does it know how the
//! gateway keeps cells, finds queries or passes commands on. `laws.rt` says what holds of it whatever
//! operations mean.
#![tactic(auto)]

mod command;
mod laws;
mod output;

pub use command::{Command, Commands, Dispatch, Told};
pub use laws::{
    answers_close, arrivals_in_any_order, closed_tickets_stay, last_write_counts, one_run,
    readings_stay_current, silent_after_teardown,
};
pub use output::{Ending, Out, Outs, Refusal, Stop, Tickets};
