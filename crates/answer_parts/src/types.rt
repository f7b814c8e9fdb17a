ghost use Rattle.std.specs.Prelude.{◌≡◌};
ghost use Rattle.check_model.specs.FieldTypes.{parent_below};
ghost use Rattle.answer_model.specs.Types as spec;
ghost use Rattle.answer_parts.specs.Types.{option_type};

use crate::members::first_named;
use gql_model::TypeRef;
use gql_value::{Members, Value};
use schema_model::{Schema, TypeId};
use schema_rules::named_type;
use site_walk::composite_named;
use text_types::Text;

/// The number of an object type, and its name.
pub type ObjectType<'a> = (TypeId, &'a Text);

/// The object type that a value names, where it is possible at a composite type.
pub fn type_told<'a>(schema: &Schema, parent: TypeId, value: &'a Value) -> Option<ObjectType<'a>>
    ensures { option_type result ≡ spec.type_told schema.now parent value.now }
{
    match value {
        Value::Text(name) => possible_named(schema, parent, name),
        _ => None,
    }
}

fn possible_named<'a>(schema: &Schema, parent: TypeId, name: &'a Text) -> Option<ObjectType<'a>>
    ensures { option_type result ≡ spec.possible_named schema.now parent name.now }
{
    match schema.type_named(name) {
        Some(id) => possible(schema, parent, name, id),
        None => None,
    }
}

fn possible<'a>(
    schema: &Schema,
    parent: TypeId,
    name: &'a Text,
    id: TypeId,
) -> Option<ObjectType<'a>>
    ensures { option_type result ≡ spec.possible schema.now parent name.now id }
{
    if schema.is_possible(id, parent) {
        Some((id, name))
    } else {
        None
    }
}

/// The object type that the members of an object tell.
pub fn type_of_members<'a>(
    schema: &Schema,
    parent: TypeId,
    members: &'a Members,
) -> Option<ObjectType<'a>>
    ensures { option_type result ≡ spec.type_of_members schema.now parent members.now }
{
    match first_named(members.as_slice(), "__typename") {
        Some(value) => type_told(schema, parent, value),
        None => None,
    }
}

/// The composite type that a field's type names under all lists.
pub fn parent_below(schema: &Schema, field_type: &TypeRef) -> Option<TypeId>
    ensures { result ≡ parent_below schema.now field_type.now }
{
    composite_named(schema, named_type(field_type))
}

/// An object type with its name.
pub fn with_name<'a>(schema: &'a Schema, id: TypeId) -> Option<ObjectType<'a>>
    ensures { option_type result ≡ spec.with_name schema.now id }
{
    match schema.type_name(id) {
        Some(name) => Some((id, name)),
        None => None,
    }
}
