use crate::term::{Term, Terms};
use text_types::Text;

/// A rule that changes the cache when a root field of a mutation or a subscription has its result.
#[derive(Drop)]
pub struct Updater {
    /// The root field, as `Mutation.addTodo`: the name of the root type, a dot, and the name of the field.
    pub on: Text,
    /// The type of the object whose cells change.
    pub named: Text,
    /// Its id. The query root has none.
    pub id: Option<Term>,
    pub action: Action,
}

/// What an updater does to the cells of its object.
#[derive(Drop)]
pub enum Action {
    /// A field holds a value.
    Write(Target, Term),
    /// A field holds null.
    Clear(Target),
    /// A field leads to another object.
    Link(Target, LinkedEntity),
    /// No field holds anything.
    Invalidate,
    /// A field of this name holds nothing, whatever its arguments.
    InvalidateField(Text),
}

/// The kinds of actions. Their words in a file are `write`, `clear`, `link`, `invalidate` and
/// `invalidate-field`.
#[derive(Clone, Copy, Debug, PartialEq, Eq)]
pub enum ActionKind {
    Write,
    Clear,
    Link,
    Invalidate,
    InvalidateField,
}

/// A field of the object, with the arguments that are given.
#[derive(Drop)]
pub struct Target {
    pub field: Text,
    pub args: Terms,
}

/// The object that a field leads to.
#[derive(Drop)]
pub struct LinkedEntity {
    pub to_type: Text,
    pub to_id: Term,
}
