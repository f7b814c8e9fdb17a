//! Circles that no value can be made of, of the ground S9: input object types that need themselves, and
//! defaults whose filling-in needs that same default again. It stands on the schemas of `schema_model`,
//! on the graphs of `digraph`, and on `schema_rules` and `schema_defaults`.
//!
//! [`needs_itself_line`] and [`fills_itself_line`] give the least line of a type, and of an input field,
//! that is on such a circle.
#![tactic(auto)]

mod fillings;
mod literals;
mod marked;
mod needs;
mod numbering;

pub use fillings::fills_itself_line;
pub use needs::needs_itself_line;
