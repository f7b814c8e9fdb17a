//! The rules on merging: which fields of an operation may become one field of its result, and that a
//! subscription has a single root field. It stands on the look-ups of `site_walk`.
//!
//! Each function answers for one rule of `check_model`, over the whole document.
#![tactic(auto)]

mod alike;
mod conflicts;
mod expand;
mod kept;
mod keys;
mod kin;
mod merging;
mod paths;
mod roots;
mod rows;
mod same;
mod shapes;

pub use merging::breaks_field_merging;
pub use roots::breaks_single_root_field;
