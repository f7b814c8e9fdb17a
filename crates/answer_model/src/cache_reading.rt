use gql_value::Value;

/// What an operation reads in the cache: a whole value, one with nulls for what is absent, or nothing that
/// would be of use.
#[derive(Drop)]
pub enum Reading {
    Hit(Value),
    Partial(Value),
    Miss,
}
