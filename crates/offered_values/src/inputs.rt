ghost use Rattle.std.specs.Prelude.{◌≡◌};
ghost use Rattle.std.specs.Option.{option_copied};
ghost use Rattle.schema_model.specs.Tables.{entry};
ghost use Rattle.schema_rules.specs.TypeRefs.{named_type};
ghost use Rattle.execution_model.specs.Inputs.{default_in, input_fields_named};

use gql_model::TypeRef;
use gql_value::Value;
use schema_model::{InputValue, Schema, Table};
use schema_rules::named_type;
use text_types::Text;

/// A schema with the values of its defaults: by the name of an input object type, and then by the name
/// of a field.
#[derive(Drop)]
pub struct Inputs<'a> {
    pub schema: &'a Schema,
    pub defaults: &'a Table<Table<Value>>,
}

impl<'a> Inputs<'a> {
    /// The fields of the input object type of a name.
    pub fn fields(&self, name: &Text) -> Option<&'a Table<InputValue>>
        ensures { option_copied result ≡ input_fields_named self.now.schema.now name.now }
    {
        match self.schema.types.get(name) {
            Some(found) => found.form.input_fields(),
            None => None,
        }
    }

    /// The values of the defaults of the type that is named under all lists.
    pub fn values(&self, wanted: &TypeRef) -> Option<&'a Table<Value>>
        ensures { option_copied result ≡ entry self.now.defaults.now (named_type wanted.now) }
    {
        self.defaults.get(named_type(wanted))
    }
}

/// The value of the default of a field, where the defaults of its type's fields have these values.
pub fn default_in<'a>(values: Option<&'a Table<Value>>, field: &Text) -> Option<&'a Value>
    ensures { option_copied result ≡ default_in (option_copied values.entry) field.now }
{
    match values {
        Some(values) => values.get(field),
        None => None,
    }
}
