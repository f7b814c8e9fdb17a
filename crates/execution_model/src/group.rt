use text_types::{Items, Text};

/// The fields of one response key: the number of the first of them, and their own selection sets, by
/// number and joined (GraphQL October 2021, 6.3.2). A field without a number is the `__typename` that is
/// put at the front of a set when the operation is sent.
#[derive(Drop)]
pub struct Group {
    pub key: Text,
    pub field: Option<u64>,
    pub sets: Items<u64>,
}
