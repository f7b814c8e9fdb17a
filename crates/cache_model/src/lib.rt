//! The terms of the normalised cache: keys of objects and fields, cells, and writes on a map of
//! cells. It stands on the base types and on the values that leaf cells hold.
//!
//! The layers above share its definitions (`specs/`). `Keys.antt` has the texts of keys, `Maps.antt`
//! says what a list of writes makes of a map, cell by cell, `History.antt` what the contents of all
//! tickets make of it and what may be kept in their place, and `Listing.antt` the order of a map's
//! cells in a list. Its calls make equal values of the types and tell whether two are equal, and
//! `laws.rt` has the laws of writes and fills.
#![tactic(auto)]

mod cell;
mod keys;
mod kind;
mod laws;
mod same;
mod write;

pub use cell::{Cell, Cells, Link, Links};
pub use keys::{EntityKey, FieldKey, text_has_name};
pub use kind::Kind;
pub use laws::{fills_commute, writes_by_effect};
pub use write::{Visited, Write, Writes};
