//! The plain form of queries, which is all that the gate takes as yet: one anonymous query whose
//! selections are fields without alias, arguments and directives. It stands on the documents of
//! `gql_model`.
//!
//! [`plain_query`] gives the fields of a document exactly where it is of this form, and [`sent_text`]
//! writes their canonical text with `__typename` at the front of each inner set.
#![tactic(auto)]

mod printer;
mod reading;
mod selection;

pub use printer::sent_text;
pub use reading::plain_query;
pub use selection::{Selection, SelectionSet};
