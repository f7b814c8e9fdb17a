ghost use Rattle.std.specs.Prelude.{◌≡◌, codes};

use checked_operation::Checked;
use gql_coercion::Inputs;
use gql_value::Value;
use schema_model::Table;
use text_types::Text;

/// An operation that is executed: its schema with the values of the schema's defaults, the operation, the
/// values of its variables, and for each selection set, by its number, whether `__typename` is put at its
/// front. No set gets it where `fronts` is empty, as for the client's own selection.
#[derive(Drop)]
pub struct Asking<'a> {
    pub inputs: Inputs<'a>,
    pub operation: &'a Checked,
    pub variables: &'a Table<Value>,
    pub fronts: &'a [bool],
    /// The name of the field that is put in.
    pub(crate) typename: Text,
    ghost named: { typename ≡ codes "__typename" },
}
