ghost use Rattle.std.specs.Prelude.{◌≡◌};

use entity_keys::KeyRules;
use field_asking::Asking;
use gql_value::Value;
use schema_model::Schema;
use std::alloc::Global;

/// What an answer is written by: the operation, the key fields that are set for types, and the paths of the
/// errors.
#[derive(Drop)]
pub(crate) struct Writer<'a> {
    pub(crate) alloc: Global,
    pub(crate) asking: &'a Asking<'a>,
    pub(crate) keys: &'a KeyRules,
    pub(crate) errors: &'a [&'a [Value]],
}

impl<'a> Writer<'a> {
    pub(crate) fn schema(&self) -> &'a Schema
        ensures { result.now ≡ self.now.asking.now.inputs.schema.now }
    {
        let asking = self.asking;
        asking.inputs.schema
    }
}
