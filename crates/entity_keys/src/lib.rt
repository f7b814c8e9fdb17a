//! The keys of the normalised cache, which cells a write covers, and counted look-ups of cells. It
//! stands on the cache's terms and hands them on, so that the layers above need this crate alone; on
//! values for arguments and ids, and on `itoa` for the whole numbers in keys.
//!
//! The layers above have one contract: each constructor gives the key whose text its parts make, or
//! runs out of memory, and equal keys come from equal parts (`laws.rt`). [`key_of_object`] gives the
//! key of an object that has an id. [`covers`] says of which cells a write says something. What
//! implements [`Lookup`] stands for one map of cells, and each look-up in it adds one to its
//! [`Steps`].
#![tactic(auto)]

mod coverage;
mod entity;
mod escapes;
mod field;
mod laws;
mod lookup;
mod objects;
mod steps;

pub use cache_model::{Cell, EntityKey, FieldKey, Link, Links, Visited, Write, Writes};
pub use coverage::{covers, covers_texts};
pub use entity::{embedded, keyed, root_key};
pub use field::{field_key, plain_field_key};
pub use laws::{different_keys, equal_embedded_keys, equal_keyed_keys};
pub use lookup::Lookup;
pub use objects::{KeyRules, key_of_object};
pub use steps::Steps;
