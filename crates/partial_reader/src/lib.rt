//! What an operation reads in the normalised cache (GraphQL October 2021, 6.3 and 6.4.4; partial results
//! after urql's Graphcache). It stands on the definitions of `answer_model`, on what `field_asking` says an
//! operation asks of an object, and on the counted look-ups of `entity_keys`.
//!
//! Its one contract: [`read`] gives exactly the reading that `answer_model` defines over the map of cells that
//! a `Lookup` stands for, with the places of the cells that it looked at, in order. It is one walk, whose time
//! is linear in these cells, and each of them is one step. [`project`] cuts an answer to what the client asked.
#![tactic(auto)]

mod cells;
mod cutting;
mod fields;
mod laws;
mod object;
mod projection;
mod reader;
mod root;
mod trail;

pub use answer_model::Reading;
pub use laws::readings_are_local;
pub use projection::project;
pub use root::read;
