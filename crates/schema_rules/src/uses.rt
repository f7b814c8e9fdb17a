ghost use Rattle.std.specs.Prelude.{◌≡◌, cond, None, Some};
ghost use Rattle.schema_rules.specs.Lines.{earlier, least_by};
ghost use Rattle.schema_rules.specs.TypeRefs.{named_type};
ghost use Rattle.schema_rules.specs.Uses.{at_type, at_name, at_input, at_field, at_parts, at_form, at_named, at_directive, least_use};
ghost use Rattle.schema_rules.specs.Misplaced.{suits, misplaced_type};
ghost use Rattle.schema_rules.specs.Unknown.{unknown};
ghost use Rattle.schema_rules.specs.Grounds.{judgement};

use crate::lines::earlier;
use gql_model::{TypeNode, TypeRef};
use schema_model::{
    InputValue, Interfaced, Schema, SchemaDirective, SchemaField, SchemaType, TypeForm,
};
use text_types::Text;

/// What a type is named for.
#[derive(Clone, Copy)]
pub(crate) enum Role {
    Output,
    Input,
    Interface,
    Member,
}

/// When a type that is named is a fault: where it doesn't exist, or where its kind is wrong.
#[derive(Clone, Copy)]
pub(crate) enum Ground {
    Unknown,
    Misplaced,
}

/// The least line at which types and directives name a type that is a fault.
pub(crate) fn least_use(schema: &Schema, ground: Ground) -> Option<u64>
    ensures { result ≡ least_use (judgement schema.now ground) schema.now }
{
    earlier(
        least_in_types(schema, ground),
        least_in_directives(schema, ground),
    )
}

fn least_in_types(schema: &Schema, ground: Ground) -> Option<u64>
    ensures { result ≡ least_by (at_named (judgement schema.now ground)) schema.now.types }
{
    let types = schema.types.as_slice();
    types.iter().fold(None, |least, named| {
        earlier(least, at_form(schema, ground, &named.1.form))
    })
}

fn least_in_directives(schema: &Schema, ground: Ground) -> Option<u64>
    ensures { result ≡ least_by (at_directive (judgement schema.now ground)) schema.now.directives }
{
    let directives = schema.directives.as_slice();
    directives.iter().fold(None, |least, directive| {
        earlier(
            least,
            at_inputs(schema, ground, directive.1.arguments.as_slice()),
        )
    })
}

fn at_form(schema: &Schema, ground: Ground, form: &TypeForm) -> Option<u64>
    ensures { result ≡ at_form (judgement schema.now ground) form.now }
{
    match form {
        TypeForm::Scalar => None,
        TypeForm::Object(parts) => at_parts(schema, ground, parts),
        TypeForm::Interface(parts) => at_parts(schema, ground, parts),
        TypeForm::Union(members) => at_names(schema, ground, Role::Member, members.as_slice()),
        TypeForm::Enum(_) => None,
        TypeForm::Input(fields) => at_inputs(schema, ground, fields.as_slice()),
    }
}

fn at_parts(schema: &Schema, ground: Ground, parts: &Interfaced) -> Option<u64>
    ensures { result ≡ at_parts (judgement schema.now ground) parts.now }
{
    earlier(
        at_names(schema, ground, Role::Interface, parts.interfaces.as_slice()),
        at_fields(schema, ground, parts.fields.as_slice()),
    )
}

fn at_names(schema: &Schema, ground: Ground, role: Role, names: &[(Text, u64)]) -> Option<u64>
    ensures { result ≡ least_by (at_name (judgement schema.now ground) role) names.now }
{
    names.iter().fold(None, |least, name| {
        earlier(least, judged(schema, ground, role, &name.0, name.1))
    })
}

fn at_fields(schema: &Schema, ground: Ground, fields: &[(Text, SchemaField)]) -> Option<u64>
    ensures { result ≡ least_by (at_field (judgement schema.now ground)) fields.now }
{
    fields.iter().fold(None, |least, field| {
        earlier(least, at_field(schema, ground, &field.1))
    })
}

fn at_field(schema: &Schema, ground: Ground, field: &SchemaField) -> Option<u64>
    ensures { result ≡ earlier (at_type (judgement schema.now ground) Role.Output field.now.field_type) (least_by (at_input (judgement schema.now ground)) field.now.arguments) }
{
    earlier(
        at_type(schema, ground, Role::Output, &field.field_type),
        at_inputs(schema, ground, field.arguments.as_slice()),
    )
}

fn at_inputs(schema: &Schema, ground: Ground, inputs: &[(Text, InputValue)]) -> Option<u64>
    ensures { result ≡ least_by (at_input (judgement schema.now ground)) inputs.now }
{
    inputs.iter().fold(None, |least, input| {
        earlier(
            least,
            at_type(schema, ground, Role::Input, &input.1.input_type),
        )
    })
}

fn at_type(schema: &Schema, ground: Ground, role: Role, node: &TypeNode) -> Option<u64>
    ensures { result ≡ at_type (judgement schema.now ground) role node.now }
{
    judged(
        schema,
        ground,
        role,
        named_type(&node.type_ref),
        node.place.row,
    )
}

/// The type that is named under all lists.
pub fn named_type(type_ref: &TypeRef) -> &Text
    ensures { result.now ≡ named_type type_ref.now }
{
    match type_ref {
        TypeRef::Named { named, .. } => named,
        TypeRef::List { of, .. } => named_type(of.get()),
    }
}

fn judged(schema: &Schema, ground: Ground, role: Role, name: &Text, line: u64) -> Option<u64>
    ensures { result ≡ judgement schema.now ground role name.now line }
{
    match ground {
        Ground::Unknown => unknown(schema, name, line),
        Ground::Misplaced => misplaced(schema, role, name, line),
    }
}

/// The line of a name that no type has.
pub(crate) fn unknown(schema: &Schema, name: &Text, line: u64) -> Option<u64>
    ensures { result ≡ unknown schema.now name.now line }
{
    if schema.types.has(name) {
        None
    } else {
        Some(line)
    }
}

fn misplaced(schema: &Schema, role: Role, name: &Text, line: u64) -> Option<u64>
    ensures { result ≡ misplaced_type schema.now role name.now line }
{
    match schema.types.get(name) {
        Some(found) => misplaced_form(role, &found.form, line),
        None => None,
    }
}

fn misplaced_form(role: Role, form: &TypeForm, line: u64) -> Option<u64>
    ensures { result ≡ cond (suits role form.now) None (Some line) }
{
    if suits(role, form) { None } else { Some(line) }
}

fn suits(role: Role, form: &TypeForm) -> bool
    ensures { result ≡ suits role form.now }
{
    match role {
        Role::Output => !matches!(form, TypeForm::Input(_)),
        Role::Input => matches!(
            form,
            TypeForm::Scalar | TypeForm::Enum(_) | TypeForm::Input(_)
        ),
        Role::Interface => matches!(form, TypeForm::Interface(_)),
        Role::Member => matches!(form, TypeForm::Object(_)),
    }
}
