use gql_value::Value;
use text_types::{Items, Text};

/// Where a rule takes a value from.
#[derive(Drop)]
pub enum Term {
    /// `$name`: the coerced value of that argument of the root field.
    Argument(Text),
    /// `@name`: the member of that name of the root field's object.
    Member(Text),
    /// A text, a whole number or a truth value, which stands for itself.
    Literal(Value),
}

/// Names with their terms, in the order of the bytes of the names.
pub type Terms = Items<(Text, Term)>;
