//! What declared rules write to the normalised cache: on the answer of a mutation or a subscription, and
//! before a mutation has one. It stands on `field_asking` for what an operation asks, on `offered_values` and
//! `gql_coercion` for arguments, and on the rules that `updater_rules` reads.
//!
//! The layers above have one contract: [`updater_writes`], [`optimistic_writes`] and [`is_optimistic`] are
//! exactly their definitions in `rule_effects`, or run out of memory. They read no cache. What terms name is
//! lent: a value is copied only where it is written.
#![tactic(auto)]

mod actions;
mod answer;
mod answered;
mod arguments;
mod declared;
mod defaults;
mod ids;
mod members;
mod optimistic;
mod root;
mod ruling;
mod scope;
mod updates;
mod updating;

pub use answered::updater_writes;
pub use optimistic::{is_optimistic, optimistic_writes};
