use plain_queries::SelectionSet;

/// An operation that was sent and waits for its response.
#[derive(Debug, Drop)]
pub struct OpenOperation {
    /// The number that the client gave it.
    pub id: u64,
    /// The number under which it was sent, counted from 1.
    pub fetch: u64,
    pub query: SelectionSet,
}
