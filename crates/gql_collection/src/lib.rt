//! The fields that selection sets collect for an object type (GraphQL October 2021, 6.3.2,
//! CollectFields). It stands on the meaning of `execution_model`, the numbers of `gql_numbering` and the
//! index of fragments of `fragment_rules`.
//!
//! Its one contract: [`Collector::collect`] gives the groups of fields by response key, in order of first
//! appearance, each with its joined sets, and no two with one key. It goes over each selection once, finds keys and fragments in
//! logarithmic time, and copies a response key when its group begins and a fragment's name when it is
//! first spread; [`is_passed_over`] tells which selections are left out.
#![tactic(auto)]

mod collector;
mod conditions;
mod following;
mod groups;
mod state;

pub use collector::Collector;
pub use conditions::is_passed_over;
