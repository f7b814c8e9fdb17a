//! The rules on what stands at one place of a document: type conditions, fields, spreads, directives and
//! arguments. It stands on the walk of `site_walk` and on the vocabulary of `check_model`.
//!
//! Each function answers for one rule of `check_model`, over the whole document, by one walk.
#![tactic(auto)]

mod arguments;
mod conditions;
mod directives;
mod fields;
mod given;
mod spreading;

pub use arguments::{breaks_argument_names, breaks_argument_uniqueness};
pub use conditions::{breaks_fragments_on_composites, breaks_spread_type_existence};
pub use directives::{
    breaks_directive_locations, breaks_directives_defined, breaks_directives_unique,
};
pub use fields::{breaks_field_selections, breaks_leaf_selections};
pub use given::breaks_required_arguments;
pub use spreading::breaks_spread_possible;
