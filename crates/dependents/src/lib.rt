//! Which live queries depend on the cells that writes change. It stands on the terms of the cache
//! that `entity_keys` hands on.
//!
//! An [`Index`] is what each live query has visited. The layer above puts a query's visited cells
//! after each of its readings, takes the query out when it ends, and asks which queries are woken by
//! some writes: exactly those with a visited cell that some write covers, each once, in ascending
//! order. A refusal changes nothing.
#![tactic(auto)]

mod index;
mod place;
mod placing;
mod reading;
mod span;
mod waking;

pub use index::{Index, Subs};
