//! A machine with a state of its own that the run of a queue of commands drives, to show that the
//! contract of the run is enough to prove such a machine over every queue. It stands on
//! `stream_core` for the run and on `entity_keys` for counted steps.
#![tactic(auto)]

mod attempts;

pub use attempts::{Attempt, handle_all};
