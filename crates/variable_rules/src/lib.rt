//! The rules on variables: how operations declare them, and where they are used, with all spreads followed.
//! It stands on the walk of `site_walk` and on the graph of spreads.
//!
//! Two functions answer for a rule of `check_model` each, and one for three of them, since it goes over an
//! operation and the fragments that it reaches once.
#![tactic(auto)]

mod declarations;
mod declared;
mod faults;
mod goes;
mod names;
mod uses;
mod wanted;

pub use declarations::{breaks_variable_uniqueness, breaks_variables_are_input_types};
pub use faults::{UseFaults, use_faults};
