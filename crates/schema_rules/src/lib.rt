//! What makes a schema invalid: grounds that are said of whole schemas, S5 to S8, each as the least
//! line at which it is broken. It stands on the schemas of `schema_model`.
//!
//! Each ground has one definition, which may assume that the ones before it aren't broken, and one
//! function, which gives that line or `None`.
#![tactic(auto)]

mod lines;
mod misplaced;
mod roots;
mod subtypes;
mod unknown;
mod unsatisfied;
mod uses;

pub use lines::earlier;
pub use misplaced::misplaced_line;
pub use roots::root_line;
pub use subtypes::is_non_null;
pub use unknown::unknown_line;
pub use unsatisfied::{is_required, unsatisfied_line};
pub use uses::named_type;
