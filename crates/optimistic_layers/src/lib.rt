//! Whether a query is held back by what other tickets wrote: blocked by an optimistic write, or
//! shadowed by a later ticket. It stands on the layered store.
//!
//! The layer above has one contract: both calls answer for the whole history of contents, although
//! the store has squashed the lowest of them. They take no memory.
#![tactic(auto)]

mod covered;

pub use covered::{blocked, masked};
