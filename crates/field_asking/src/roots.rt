ghost use Rattle.std.specs.Prelude.{◌≡◌, Some};
ghost use Rattle.execution_model.specs.Asked as spec;
ghost use Rattle.checked_operation.specs.Acceptance.{IsWhole};
ghost use Rattle.field_asking.specs.Asking.{executed};

use crate::asking::Asking;
use gql_model::OperationKind;
use schema_model::TypeId;

impl Asking<'_> {
    /// What kind of operation it is.
    pub fn kind(&self) -> OperationKind
        requires { IsWhole self.now.operation.now }
        ensures { Some result ≡ spec.chosen_kind (executed self.now) }
    {
        self.operation.kind()
    }

    /// The object type of the operation's root.
    pub fn root_type(&self) -> Option<TypeId>
        requires { IsWhole self.now.operation.now }
        ensures { result ≡ spec.root_type (executed self.now) }
    {
        self.inputs.schema.root(self.kind())
    }

    /// The operation's own set, by its number, in a list of one.
    pub fn root_sets(&self) -> &[u64]
        requires { IsWhole self.now.operation.now }
        ensures { result.now ≡ spec.root_sets (executed self.now) }
    {
        self.operation.sets.as_slice()
    }
}
