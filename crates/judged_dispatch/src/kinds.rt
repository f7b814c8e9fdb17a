ghost use Rattle.std.specs.Prelude.{◌≡◌};
ghost use Rattle.judged_dispatch.specs.Judged as spec;

use gql_model::OperationKind;

/// Which kinds of operations are taken.
#[derive(Clone, Copy, Debug, PartialEq, Eq)]
pub enum Kinds {
    Queries,
    QueriesAndMutations,
}

impl Kinds {
    /// Whether operations of a kind are taken.
    pub fn take(self, kind: OperationKind) -> bool
        ensures { result ≡ spec.is_taken self kind }
    {
        match kind {
            OperationKind::Query => true,
            OperationKind::Mutation => matches!(self, Kinds::QueriesAndMutations),
            OperationKind::Subscription => false,
        }
    }
}
