use text_types::{Items, Text};

/// A step into an answer: to the member of a response key, or to the item of an index (GraphQL October
/// 2021, 7.1.2).
#[derive(Debug, Drop)]
pub enum Step {
    Key(Text),
    Index(u64),
}

/// The steps from `data` to a place in it.
pub type Path = Items<Step>;
