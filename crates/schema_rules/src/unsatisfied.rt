ghost use Rattle.std.specs.Prelude.{◌≡◌, true, false};
ghost use Rattle.std.specs.List.{list_all};
ghost use Rattle.std.specs.Option.{option_map_or};
ghost use Rattle.schema_model.specs.Tables.{entry};
ghost use Rattle.schema_rules.specs.Lines.{least_by};
ghost use Rattle.schema_rules.specs.Unsatisfied.{is_required, has_argument, may_have_argument, does_for, has_field, has_interface, has_all, has_all_of, satisfies, unsatisfied, unsatisfied_parts, unsatisfied_form, unsatisfied_line};

use crate::lines::earlier;
use crate::subtypes::{is_non_null, is_same_type, is_subtype};
use schema_model::{InputValue, Interfaced, Schema, SchemaField, TypeForm};
use text_types::Text;

/// The least line of an interface that isn't satisfied.
pub fn unsatisfied_line(schema: &Schema) -> Option<u64>
    ensures { result ≡ unsatisfied_line schema.now }
{
    let types = schema.types.as_slice();
    types.iter().fold(None, |least, named| {
        earlier(least, unsatisfied_form(schema, &named.0, &named.1.form))
    })
}

fn unsatisfied_form(schema: &Schema, own: &Text, form: &TypeForm) -> Option<u64>
    ensures { result ≡ unsatisfied_form schema.now own.now form.now }
{
    match form {
        TypeForm::Object(parts) => unsatisfied_parts(schema, own, parts),
        TypeForm::Interface(parts) => unsatisfied_parts(schema, own, parts),
        _ => None,
    }
}

fn unsatisfied_parts(schema: &Schema, own: &Text, parts: &Interfaced) -> Option<u64>
    ensures { result ≡ unsatisfied_parts schema.now own.now parts.now }
{
    let interfaces = parts.interfaces.as_slice();
    interfaces.iter().fold(None, |least, interface| {
        earlier(least, unsatisfied(schema, own, parts, interface))
    })
}

fn unsatisfied(
    schema: &Schema,
    own: &Text,
    parts: &Interfaced,
    interface: &(Text, u64),
) -> Option<u64>
    ensures { result ≡ unsatisfied schema.now own.now parts.now interface.now }
{
    if satisfies(schema, own, parts, &interface.0) {
        None
    } else {
        Some(interface.1)
    }
}

fn satisfies(schema: &Schema, own: &Text, parts: &Interfaced, name: &Text) -> bool
    ensures { result ≡ satisfies schema.now own.now parts.now name.now }
{
    own != name && has_all_named(schema, parts, name)
}

fn has_all_named(schema: &Schema, parts: &Interfaced, name: &Text) -> bool
    ensures { result ≡ option_map_or (λ t. has_all_of schema.now parts.now t.form) (entry schema.now.types name.now) true }
{
    match schema.types.get(name) {
        Some(found) => has_all_of(schema, parts, &found.form),
        None => true,
    }
}

fn has_all_of(schema: &Schema, parts: &Interfaced, form: &TypeForm) -> bool
    ensures { result ≡ has_all_of schema.now parts.now form.now }
{
    match form {
        TypeForm::Interface(wanted) => {
            has_fields(schema, parts, wanted.fields.as_slice())
                && has_interfaces(parts, wanted.interfaces.as_slice())
        }
        _ => true,
    }
}

fn has_interfaces(parts: &Interfaced, wanted: &[(Text, u64)]) -> bool
    ensures { result ≡ list_all (has_interface parts.now) wanted.now }
{
    wanted
        .iter()
        .all(|interface| parts.interfaces.has(&interface.0))
}

fn has_fields(schema: &Schema, parts: &Interfaced, wanted: &[(Text, SchemaField)]) -> bool
    ensures { result ≡ list_all (has_field schema.now parts.now) wanted.now }
{
    wanted.iter().all(|field| has_field(schema, parts, field))
}

fn has_field(schema: &Schema, parts: &Interfaced, wanted: &(Text, SchemaField)) -> bool
    ensures { result ≡ has_field schema.now parts.now wanted.now }
{
    match parts.fields.get(&wanted.0) {
        Some(field) => does_for(schema, &wanted.1, field),
        None => false,
    }
}

fn does_for(schema: &Schema, wanted: &SchemaField, field: &SchemaField) -> bool
    ensures { result ≡ does_for schema.now wanted.now field.now }
{
    is_subtype(
        schema,
        &field.field_type.type_ref,
        &wanted.field_type.type_ref,
    ) && has_arguments(field, wanted.arguments.as_slice())
        && may_have_arguments(wanted, field.arguments.as_slice())
}

fn has_arguments(field: &SchemaField, wanted: &[(Text, InputValue)]) -> bool
    ensures { result ≡ list_all (has_argument field.now) wanted.now }
{
    wanted.iter().all(|argument| has_argument(field, argument))
}

fn has_argument(field: &SchemaField, wanted: &(Text, InputValue)) -> bool
    ensures { result ≡ has_argument field.now wanted.now }
{
    match field.arguments.get(&wanted.0) {
        Some(argument) => is_same_type(
            &argument.input_type.type_ref,
            &wanted.1.input_type.type_ref,
        ),
        None => false,
    }
}

fn may_have_arguments(wanted: &SchemaField, arguments: &[(Text, InputValue)]) -> bool
    ensures { result ≡ list_all (may_have_argument wanted.now) arguments.now }
{
    arguments
        .iter()
        .all(|argument| may_have_argument(wanted, argument))
}

fn may_have_argument(wanted: &SchemaField, argument: &(Text, InputValue)) -> bool
    ensures { result ≡ may_have_argument wanted.now argument.now }
{
    wanted.arguments.has(&argument.0) || !is_required(&argument.1)
}

/// Whether an argument or input field has to be given.
pub fn is_required(input: &InputValue) -> bool
    ensures { result ≡ is_required input.now }
{
    is_non_null(&input.input_type.type_ref) && input.default.is_none()
}
