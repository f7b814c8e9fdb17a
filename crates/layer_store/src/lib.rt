//! The layered store of the normalised cache: one layer for each ticket that isn't squashed yet, over
//! a base map of cells. It stands on the cache's terms (`cache_model`) and on `entity_keys` for
//! counted look-ups.
//!
//! The layers above have one contract: a store stands for a history of contents by ticket
//! (`Stands`), each call leads from every history that it stands for to the next one, and look-ups
//! show the history's one plain map, whatever the order in which contents came. What is finished from
//! the lowest ticket on can be squashed into the base, and no look-up changes. A refusal changes
//! nothing.
//!
//! A layer has the kind and mark of its content, its cells, and its tombstones: of a cell, of a field
//! name, and of an object. Its writes aren't kept.
#![tactic(auto)]

mod base;
mod changes;
mod fields;
mod laws;
mod layer;
mod layers;
mod listing;
mod places;
mod store;

pub use cache_model::Kind;
pub use laws::{counts_tickets, opens_unfinished, shows_flattened, stands_unchanged};
pub use store::{Store, StoreError, Ticket};
