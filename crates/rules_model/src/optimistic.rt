use crate::term::Terms;
use text_types::Text;

/// A rule that says what object a root field of a mutation will have as its result, before it has it.
#[derive(Drop)]
pub struct Optimistic {
    /// The root field, as `Mutation.setDone`.
    pub on: Text,
    /// The type of the object.
    pub named: Text,
    /// The fields that are known beforehand.
    pub fields: Terms,
}
