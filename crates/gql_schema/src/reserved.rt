ghost use Rattle.std.specs.Prelude.{◌≡◌};
ghost use Rattle.schema_rules.specs.Lines.{least_by};
ghost use Rattle.gql_schema.specs.Reserved.{is_reserved, reserved, reserved_input, reserved_value, reserved_field, reserved_in, reserved_line};

use gql_model::{EnumValueDefinition, FieldDefinition, InputDefinition, Name, TypeSystemForm};
use schema_rules::earlier;
use text_types::Text;

/// The least line of a defined name that begins with two underscores.
pub(crate) fn reserved_line(forms: &[TypeSystemForm]) -> Option<u64>
    ensures { result ≡ reserved_line forms.now }
{
    forms
        .iter()
        .fold(None, |least, form| earlier(least, reserved_in(form)))
}

fn reserved_in(form: &TypeSystemForm) -> Option<u64>
    ensures { result ≡ reserved_in form.now }
{
    match form {
        TypeSystemForm::Schema(_) => None,
        TypeSystemForm::Scalar(d) => reserved(&d.name),
        TypeSystemForm::Object(d) => {
            earlier(reserved(&d.name), reserved_fields(d.fields.as_slice()))
        }
        TypeSystemForm::Interface(d) => {
            earlier(reserved(&d.name), reserved_fields(d.fields.as_slice()))
        }
        TypeSystemForm::Union(d) => reserved(&d.name),
        TypeSystemForm::Enum(d) => earlier(reserved(&d.name), reserved_values(d.values.as_slice())),
        TypeSystemForm::Input(d) => earlier(
            reserved(&d.name),
            reserved_inputs(d.fields.as_slice()),
        ),
        TypeSystemForm::Directive(d) => {
            earlier(reserved(&d.name), reserved_inputs(d.arguments.as_slice()))
        }
    }
}

fn reserved_fields(fields: &[FieldDefinition]) -> Option<u64>
    ensures { result ≡ least_by reserved_field fields.now }
{
    fields
        .iter()
        .fold(None, |least, field| earlier(least, reserved_field(field)))
}

fn reserved_field(field: &FieldDefinition) -> Option<u64>
    ensures { result ≡ reserved_field field.now }
{
    earlier(
        reserved(&field.name),
        reserved_inputs(field.arguments.as_slice()),
    )
}

fn reserved_inputs(inputs: &[InputDefinition]) -> Option<u64>
    ensures { result ≡ least_by reserved_input inputs.now }
{
    inputs
        .iter()
        .fold(None, |least, input| earlier(least, reserved(&input.name)))
}

fn reserved_values(values: &[EnumValueDefinition]) -> Option<u64>
    ensures { result ≡ least_by reserved_value values.now }
{
    values
        .iter()
        .fold(None, |least, value| earlier(least, reserved(&value.name)))
}

fn reserved(name: &Name) -> Option<u64>
    ensures { result ≡ reserved name.now }
{
    if is_reserved(&name.text) {
        Some(name.place.row)
    } else {
        None
    }
}

fn is_reserved(name: &Text) -> bool
    ensures { result ≡ is_reserved name.now }
{
    name.as_bytes().starts_with(b"__")
}
