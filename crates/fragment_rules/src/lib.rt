//! The first judgements on a document, which need no schema: the operation that is chosen, names kept for
//! introspection, the rules on definitions and on spreads, and how large a document is. It stands on the
//! vocabulary of `check_model`.
//!
//! Each function answers for one rule of `check_model`, over the whole document.
#![tactic(auto)]

mod definitions;
mod fragments;
mod introspection;
mod names;
mod operations;
mod reached;
mod sizes;
mod spreads;

pub use definitions::{breaks_executable_definitions, breaks_lone_anonymous_operation};
pub use fragments::{FragmentIndex, fragment_at};
pub use introspection::is_introspection;
pub use names::{breaks_fragment_name_uniqueness, breaks_operation_name_uniqueness};
pub use operations::chosen;
pub use reached::{breaks_fragment_cycles, breaks_fragments_used};
pub use sizes::is_too_large;
pub use spreads::{breaks_spread_target_defined, spread_graph};
