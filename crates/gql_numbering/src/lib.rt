//! Numbers for the selection sets and the fields of a document, so that what stands above names a set
//! or a field by its number and copies nothing. It stands on the trees of `gql_model`.
//!
//! Selection sets are numbered from 0 in the order of their opening braces over the whole document,
//! and fields from 0 in document order. [`Numbering::new`] numbers a document in one pass, and gives
//! numbers only: a look-up takes the document beside it, and holds where the numbering is that
//! document's. [`Numbering::marks`] tells, for each selection of a set, the number of the field that
//! it is and of the set that it carries; [`marks_tell`] and [`definition_marks_tell`] are the laws of
//! these marks.
#![tactic(auto)]

mod building;
mod laws;
mod mark;
mod numbering;
mod parts;

pub use laws::{definition_marks_tell, marks_tell};
pub use mark::Mark;
pub use numbering::Numbering;
