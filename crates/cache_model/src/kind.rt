/// Where the content of a ticket comes from.
#[derive(Clone, Copy, Debug, Drop, PartialEq, Eq)]
pub enum Kind {
    /// Nothing has come yet, or nothing is left. It has no writes.
    Empty,
    /// A guess of what a mutation will do, shown until its answer comes.
    Optimistic,
    /// An answer of the server.
    Final,
}
