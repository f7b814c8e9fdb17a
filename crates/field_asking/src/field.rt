ghost use Rattle.std.specs.Prelude.{◌≡◌, IfOk};
ghost use Rattle.answer_model.specs.Keys.{field_key};
ghost use Rattle.field_asking.specs.Asking.{asked_field};

use cache_model::FieldKey;
use gql_model::TypeRef;
use gql_value::Members;
use text_types::{Items, Memory, Text};

/// A collected field of an object: its response key, its name, the values of its arguments, its type where
/// the object's type defines it, and its own selection sets, by number and joined.
#[derive(Drop)]
pub struct AskedField<'a> {
    pub key: Text,
    pub name: &'a Text,
    pub arguments: Members,
    pub field_type: Option<&'a TypeRef>,
    pub sets: Items<u64>,
}

impl AskedField<'_> {
    /// The key of the field's cell: its name with the values of its arguments.
    pub fn cell_key(&self) -> Result<FieldKey, Memory>
        ensures { IfOk result (λ key. key ≡ field_key (asked_field self.now)) }
    {
        entity_keys::field_key(self.name, &self.arguments)
    }
}
