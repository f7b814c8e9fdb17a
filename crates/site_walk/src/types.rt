ghost use Rattle.std.specs.Prelude.{◌≡◌};
ghost use Rattle.std.specs.Option.{option_copied};
ghost use Rattle.check_model.specs.FieldTypes.{is_composite, is_composite_type, composite, composite_named, root_parent, inline_parent, is_typename, parent_below, field_parent_on, field_parent};

use gql_model::{Name, OperationKind, TypeRef};
use schema_model::{Schema, TypeForm, TypeId};
use schema_rules::named_type;
use text_types::Text;

fn is_composite(form: &TypeForm) -> bool
    ensures { result ≡ is_composite form.now }
{
    matches!(
        form,
        TypeForm::Object(_) | TypeForm::Interface(_) | TypeForm::Union(_)
    )
}

fn is_composite_type(schema: &Schema, id: TypeId) -> bool
    ensures { result ≡ is_composite_type schema.now id }
{
    match schema.type_at(id) {
        Some((_, found)) => is_composite(&found.form),
        None => false,
    }
}

fn composite(schema: &Schema, id: Option<TypeId>) -> Option<TypeId>
    ensures { result ≡ composite schema.now id }
{
    let id = id?;
    if is_composite_type(schema, id) {
        Some(id)
    } else {
        None
    }
}

/// The composite type of a name.
pub fn composite_named(schema: &Schema, name: &Text) -> Option<TypeId>
    ensures { result ≡ composite_named schema.now name.now }
{
    composite(schema, schema.type_named(name))
}

/// The type of the own set of an operation of a kind.
pub fn root_parent(schema: &Schema, kind: OperationKind) -> Option<TypeId>
    ensures { result ≡ root_parent schema.now kind }
{
    composite(schema, schema.root(kind))
}

/// The type of the set of an inline fragment that stands in a set of a type.
pub fn inline_parent(
    schema: &Schema,
    parent: Option<TypeId>,
    condition: &Option<Name>,
) -> Option<TypeId>
    ensures { result ≡ inline_parent schema.now parent condition.now }
{
    match condition {
        Some(condition) => composite_named(schema, &condition.text),
        None => parent,
    }
}

/// Whether a field's name is `__typename`, which each composite type has.
pub fn is_typename(name: &Text) -> bool
    ensures { result ≡ is_typename name.now }
{
    name.as_str() == "__typename"
}

/// The type of the set of a field of a name in a set of a type.
pub fn field_parent(schema: &Schema, parent: Option<TypeId>, name: &Text) -> Option<TypeId>
    ensures { result ≡ field_parent schema.now parent name.now }
{
    field_parent_on(schema, name, parent?)
}

fn field_parent_on(schema: &Schema, name: &Text, parent: TypeId) -> Option<TypeId>
    ensures { result ≡ field_parent_on schema.now name.now parent }
{
    if is_typename(name) {
        return None;
    }
    parent_below(schema, schema.field_type(parent, name)?)
}

fn parent_below(schema: &Schema, field_type: &TypeRef) -> Option<TypeId>
    ensures { result ≡ parent_below schema.now field_type.now }
{
    composite_named(schema, named_type(field_type))
}
