use cache_model::Cells;
use gql_model::OperationKind;
use gql_value::{Fault, Value};
use text_types::{Items, Text};

/// What the gateway gives out: to a client, whose connection is `peer`, or to the origin.
#[derive(Drop)]
pub enum Out {
    /// Data for an operation, with the errors of the answer that brought it.
    Reply {
        peer: u64,
        id: u64,
        answer: Value,
        errors: Value,
        partial: bool,
        stale: bool,
    },
    /// Why an operation has no data.
    Fault {
        peer: u64,
        id: u64,
        ending: Ending,
    },
    /// A mutation waits in the queue, under this row's number.
    Queued {
        peer: u64,
        id: u64,
        row: u64,
    },
    /// A command that changes nothing.
    Refused {
        peer: u64,
        line: u64,
        refusal: Refusal,
    },
    /// The number of squashed tickets, and the tickets that are kept.
    Layers {
        peer: u64,
        base: u64,
        kept: Tickets,
    },
    /// All cells of the cache.
    Flat {
        peer: u64,
        cells: Cells,
    },
    /// What is to be sent to the origin.
    Fetch {
        fetch: u64,
        kind: OperationKind,
        query: Text,
        operation: Option<Text>,
        variables: Text,
    },
    /// A fetch whose answer nobody waits for any more.
    Cancel {
        fetch: u64,
    },
}

/// Outputs in order.
pub type Outs = Items<Out>;

/// Tickets in order.
pub type Tickets = Items<u64>;

/// How an operation ends without data.
#[derive(Drop)]
pub enum Ending {
    /// The fetch has no answer that fits.
    Outside(Fault),
    /// The queue has no room for the mutation (E13).
    QueueFull,
}

/// Why a frame is refused.
#[derive(Drop)]
pub enum Refusal {
    /// The line is too long.
    E1,
    /// The line isn't JSON.
    E2,
    /// A member is missing or of the wrong form.
    E3 { member: Text },
    /// The client has a live operation of this number.
    E4,
    /// There is nothing to tear down.
    E5,
    /// The query is no document, by the place of its fault.
    E6 { row: u64, column: u64 },
    /// There is no such operation in the document.
    E7,
    /// A rule of validation is broken.
    E8 { rule: u8 },
    /// A variable's value isn't one of its type.
    E9 { variable: Text },
    /// No fetch of this number is open.
    E10,
    /// A number in the variables isn't whole.
    E11 { path: Text },
    /// Too many operations are live.
    E12,
    /// The query's brackets nest too deep.
    E14,
    /// The operation is a subscription.
    E15,
    /// The query asks for introspection.
    E16,
    /// The document is too large.
    E17,
}

/// Why the gateway can't go on.
#[derive(Drop)]
pub enum Stop {
    Memory,
    /// The queue file failed.
    Keeper,
    /// A number of a ticket, a fetch, a row or an identity would pass its last.
    Numbers,
    /// A stored row isn't taken under the present schema: the number of its E code, and of the rule for E8.
    BadRow { row: u64, code: u8, rule: u8 },
}
