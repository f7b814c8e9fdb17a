//! What writing an answer and reading one share (GraphQL October 2021, 4.1, 6.4.3 and 7.1.2): which values
//! fit a leaf type, the object type that a `__typename` tells, whether a link has the shape of a type, and
//! places in an answer. It stands on the definitions of `answer_model`.
//!
//! The layers above have one contract: each function is exactly its definition there, or runs out of
//! memory. [`MemberIndex`] finds a member of an object in logarithmic time.
#![tactic(auto)]

mod errors;
mod fits;
mod leaves;
mod members;
mod paths;
mod shapes;
mod types;

pub use errors::{error_paths, is_above_error};
pub use fits::{Fitted, Places, fitted};
pub use members::MemberIndex;
pub use paths::path_text;
pub use shapes::has_shape;
pub use types::{ObjectType, parent_below, type_of_members, type_told, with_name};
