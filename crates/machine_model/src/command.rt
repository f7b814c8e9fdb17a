use gql_value::{Members, Outcome};
use send_rules::Policy;
use text_types::{Items, Text};

/// What a client or the origin wants of the gateway. `peer` is the connection that it came by, and
/// `line` the number of its line there.
#[cycle(commands)]
#[derive(Drop)]
pub enum Command {
    /// A query or a mutation.
    Dispatch(Dispatch),
    /// The client drops the operation that it gave this number.
    Teardown {
        peer: u64,
        id: u64,
        line: u64,
    },
    /// The origin's answer to a fetch, or the fault that came in its place.
    Respond {
        peer: u64,
        fetch: u64,
        line: u64,
        outcome: Outcome,
    },
    /// The origin can be reached again.
    Online,
    /// Which tickets are squashed and which are kept.
    Layers {
        peer: u64,
    },
    /// All cells of the cache.
    Flat {
        peer: u64,
    },
    /// The client is gone.
    Gone {
        peer: u64,
    },
}

/// An operation that a client asks for.
#[cycle(commands)]
#[derive(Drop)]
pub struct Dispatch {
    pub peer: u64,
    /// The number that the client gives it.
    pub id: u64,
    pub line: u64,
    pub query: Text,
    /// The name of the operation, where the document has more than one.
    pub operation: Option<Text>,
    pub variables: Members,
    pub policy: Policy,
    /// What follows once the operation is told something for the first time.
    pub then: Commands,
}

/// Commands in order.
pub type Commands = Items<Command>;

/// What a listener is asked at the first reply or fault of an operation: what should follow. `then` is
/// what the client gave the operation for that.
#[derive(Drop)]
pub struct Told {
    pub peer: u64,
    pub id: u64,
    pub then: Commands,
}
