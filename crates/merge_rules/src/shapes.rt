ghost use Rattle.std.specs.Prelude.{◌≡◌};
ghost use Rattle.schema_rules.specs.Subtypes.{same_bool};
ghost use Rattle.check_model.specs.Shapes.{is_leaf, names_leaf, same_named_shape, same_shape};

use gql_model::TypeRef;
use schema_model::{Schema, TypeForm};
use text_types::Text;

/// Whether both types are Non-Null or neither, both are lists or neither, at each depth alike, and leaves
/// are equal.
pub(crate) fn same_shape(schema: &Schema, a: &TypeRef, b: &TypeRef) -> bool
    ensures { result ≡ same_shape schema.now a.now b.now }
{
    match (a, b) {
        (
            TypeRef::Named { named, non_null },
            TypeRef::Named {
                named: other_named,
                non_null: other,
            },
        ) => same_bool(*non_null, *other) && same_named_shape(schema, named, other_named),
        (
            TypeRef::List { of, non_null },
            TypeRef::List {
                of: other_of,
                non_null: other,
            },
        ) => same_bool(*non_null, *other) && same_shape(schema, of.get(), other_of.get()),
        _ => false,
    }
}

fn same_named_shape(schema: &Schema, a: &Text, b: &Text) -> bool
    ensures { result ≡ same_named_shape schema.now a.now b.now }
{
    a == b || (!names_leaf(schema, a) && !names_leaf(schema, b))
}

fn names_leaf(schema: &Schema, name: &Text) -> bool
    ensures { result ≡ names_leaf schema.now name.now }
{
    match schema.types.get(name) {
        Some(found) => is_leaf(&found.form),
        None => false,
    }
}

fn is_leaf(form: &TypeForm) -> bool
    ensures { result ≡ is_leaf form.now }
{
    matches!(form, TypeForm::Scalar | TypeForm::Enum(_))
}

fn same_bool(a: bool, b: bool) -> bool
    ensures { result ≡ same_bool a b }
{
    if a { b } else { !b }
}
