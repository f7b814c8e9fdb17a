//! When an operation is answered from the cache and when it is sent upstream: the request policies,
//! and which identities have a fetch in flight. It stands on `text_types`, and on `stream_core` for
//! what an exchange owes.
//!
//! [`decide`] is the policy table: from a policy and what a reading of the cache found it says
//! whether the listener is told and whether a fetch is sent. [`Dedup`] is the exchange that lets one
//! fetch down for each identity. [`InFlight`] is a map from identities to their fetches: a second
//! fetch for an identity can't begin until the first is forgotten.
#![tactic(auto)]

mod dedup;
mod in_flight;
mod policy;
mod sending;

pub use dedup::Dedup;
pub use in_flight::InFlight;
pub use policy::{Plan, Policy, ReadingKind, decide};
pub use sending::{Back, Sending};
