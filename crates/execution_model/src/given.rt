use gql_value::Value;

/// What stands at a place where a value is wanted: nothing, something that the place doesn't take, or a
/// value (GraphQL October 2021, 3.10 and 6.4.1).
#[derive(Drop)]
pub enum Given {
    Absent,
    Refused,
    Is(Value),
}
