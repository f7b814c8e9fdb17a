//! The lines that the gateway writes.
//!
//! It stands on the texts of values and on the outputs of `machine_model`. Its one contract for the
//! layer above is [`line_of`]: it appends the exact text of an output (`specs/Lines.antt`). After want
//! of memory what stood there still stands, with a part of the line behind it.
#![tactic(auto)]

mod cells;
mod fault;
mod line;
mod output;
mod part;
mod refusal;

pub use output::line_of;
