use stream_core::{Operation, OperationResult};

/// What goes down to be sent to the origin. The ids are the numbers of the fetches.
#[derive(Clone, Copy, Debug, Drop, PartialEq, Eq)]
pub enum Sending {
    /// A query, with the key of its identity.
    Query { key: u32, fetch: u64 },
    Mutation { fetch: u64 },
    /// The fetch isn't wanted any more.
    Teardown { fetch: u64 },
}

impl Operation for Sending {
    ghost use Rattle.send_rules.specs.Sendings.{kind_of};

    ghost kind = { kind_of };
}

/// The result of a fetch.
#[derive(Clone, Copy, Debug, Drop, PartialEq, Eq)]
pub struct Back {
    pub fetch: u64,
}

impl OperationResult for Back {
    ghost id = { λ b. b.fetch };
}
