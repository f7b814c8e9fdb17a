ghost use Rattle.std.specs.Prelude.{ℕ};
ghost use Rattle.stream_core.specs.declared.operation.Kind.{Kind};

/// What an operation is, with its id where it has one.
#[derive(Clone, Copy, Debug, Drop, PartialEq, Eq)]
pub enum Kind {
    Query(u64),
    Mutation(u64),
    Teardown(u64),
    Other,
}

/// What goes down a line of exchanges.
pub trait Operation {
    ghost kind: { Self → Kind };
}

/// What goes up a line of exchanges.
pub trait OperationResult {
    /// The id of its operation.
    ghost id: { Self → ℕ };
}
