ghost use Rattle.std.specs.Prelude.{◌≡◌, cond, None, Some};
ghost use Rattle.schema_defaults.specs.Empty.{is_empty, empty_line};

use schema_model::{Schema, SchemaType, TypeForm};
use schema_rules::earlier;

/// The least line of a type without fields, values or members.
pub fn empty_line(schema: &Schema) -> Option<u64>
    ensures { result ≡ empty_line schema.now }
{
    let types = schema.types.as_slice();
    types
        .iter()
        .fold(None, |least, named| earlier(least, empty_type(&named.1)))
}

fn empty_type(named: &SchemaType) -> Option<u64>
    ensures { result ≡ cond (is_empty named.now.form) (Some named.now.line) None }
{
    if is_empty(&named.form) {
        Some(named.line)
    } else {
        None
    }
}

fn is_empty(form: &TypeForm) -> bool
    ensures { result ≡ is_empty form.now }
{
    match form {
        TypeForm::Scalar => false,
        TypeForm::Object(parts) => parts.fields.len() == 0,
        TypeForm::Interface(parts) => parts.fields.len() == 0,
        TypeForm::Union(members) => members.len() == 0,
        TypeForm::Enum(values) => values.len() == 0,
        TypeForm::Input(fields) => fields.len() == 0,
    }
}
