//! What values that a client or a rule gives become at the types of arguments and input fields (GraphQL
//! October 2021, 3.5 to 3.12, Input Coercion). It stands on the meaning of `execution_model` and on the
//! schemas of `schema_model`.
//!
//! Its one contract: [`offered`] gives exactly what `execution_model` defines, [`ObjectBuilder`] puts the
//! members of an object together, of which the first of a name counts, and [`is_deeper`] tells how deep a
//! value nests. [`Inputs`] is what values are offered to: a schema, with the values of its defaults. What
//! literals share with such values is public too: scalars at a place, items, defaults and objects.
#![tactic(auto)]

mod depth;
mod inputs;
mod items;
mod object;
mod offers;
mod scalars;

pub use depth::is_deeper;
pub use inputs::{Inputs, default_in};
pub use items::{as_object, as_object_in, item_value, nothing_given, or_default};
pub use object::ObjectBuilder;
pub use offers::offered;
pub use scalars::{boolean_at, integer_at, name_at, null_at, string_at};
