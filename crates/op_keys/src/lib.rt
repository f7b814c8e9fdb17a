//! How a checked operation is sent, and when two requests are the same one. It stands on the trees of
//! `gql_model`, their copies and their canonical text, and on the rule of `execution_model` for the
//! selection sets that get `__typename` at their front.
//!
//! [`with_typename`] gives the document that is sent for a client's document, and [`fronts`] says which
//! of its selection sets got the field. [`canonical`] gives the [`Identity`] of a request: the canonical
//! text of its document, the name of its operation and the sorted text of its coerced variables. Want of
//! memory is their one failure. [`Keys::intern`] numbers identities: equal ones have equal numbers,
//! others have others ([`equal_numbers_for_equal_identities`]), and a refusal changes nothing.
#![tactic(auto)]

mod front_rule;
mod identity;
mod keys;
mod laws;
mod listing;
mod owner;
mod sending;

pub use identity::{Identity, canonical};
pub use keys::{Keys, KeysError};
pub use laws::equal_numbers_for_equal_identities;
pub use listing::fronts;
pub use sending::with_typename;
