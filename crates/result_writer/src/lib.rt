//! What an answer writes to the normalised cache, or the first place where it doesn't fit what was asked
//! (GraphQL October 2021, 6.4 and 7.1, after urql's Graphcache). It stands on `field_asking` for what is
//! asked, and on `answer_parts` for what fits.
//!
//! The layers above have one contract: [`writes_of`] gives exactly the writes that `answer_model` defines, or
//! tells the first place that doesn't fit, depth first. One walk goes over the answer: the links of a field
//! come first, with the objects that they lead to, and then what these objects write. The fields that are
//! asked of an object and its key are found once, and each member is looked up by its name.
#![tactic(auto)]

mod answer;
mod entities;
mod error;
mod fields;
mod leaves;
mod object;
mod paths;
mod ways;
mod writer;

pub use answer::writes_of;
pub use error::WriteError;
