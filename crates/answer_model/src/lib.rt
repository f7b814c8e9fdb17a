//! What answers and the normalised cache mean to each other: the writes that an answer makes, the
//! reading of an operation from a map of cells, and the answer cut to what the client asked. It stands on
//! what `execution_model` says an operation asks, and on the keys, cells and writes of the cache.
//!
//! It has the types of a reading and of a place in an answer, and no functions. Its contract for the
//! layers above is its `specs/`: total functions, said of an operation of a document that no rule of
//! validation refuses.
#![tactic(auto)]

mod cache_reading;
mod step;

pub use cache_reading::Reading;
pub use step::{Path, Step};
