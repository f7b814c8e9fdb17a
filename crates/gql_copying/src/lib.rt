//! Copies of the trees of GraphQL documents. It stands on the trees of `gql_model`.
//!
//! Its one contract: a [`CopyIn`] part gives a part that is equal to it, its places too. Want of memory
//! is its one failure.
#![tactic(auto)]

mod copy_in;
mod executables;
mod literals;
mod selections;
mod type_systems;
mod types;

pub use copy_in::CopyIn;
