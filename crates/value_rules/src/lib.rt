//! The rules on values: that literals fit the types at which they stand, and that no field stands twice in
//! an object literal. It stands on the walk of `site_walk`, and on what `schema_defaults` says of literals.
//!
//! Each function answers for one rule of `check_model`, over the whole document.
#![tactic(auto)]

mod doubled;
mod unfit;

pub use doubled::breaks_input_field_uniqueness;
pub use unfit::breaks_values_of_correct_type;
