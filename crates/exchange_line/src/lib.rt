//! The gate: it takes the lines of one client and tells what is to be written, one line at a time.
//!
//! It stands on the reading of frames, the judgement of dispatches and the machine's definitions. Its one contract
//! for the layer above is [`Gate::take_line`]: what it writes and the state after are those of the
//! machine's definition, for every line of bytes in every state.
#![tactic(auto)]

mod answer;
mod gate;
mod history;
mod line;
mod object_key;
mod reading;

pub use gate::Gate;
