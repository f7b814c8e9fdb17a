ghost use Rattle.std.specs.Prelude.{◌≡◌, false};
ghost use Rattle.std.specs.Option.{option_map_or};
ghost use Rattle.schema_model.specs.Possible.{implements, has_member};
ghost use Rattle.schema_model.specs.Tables.{entry};
ghost use Rattle.schema_rules.specs.TypeRefs.{is_non_null};
ghost use Rattle.schema_rules.specs.Subtypes.{is_named_subtype, may_be, is_subtype, same_bool, is_same_type};

use gql_model::TypeRef;
use schema_model::Schema;
use text_types::Text;

/// Whether the first type is the second or may stand for it.
pub(crate) fn is_subtype(schema: &Schema, given: &TypeRef, wanted: &TypeRef) -> bool
    ensures { result ≡ is_subtype schema.now given.now wanted.now }
{
    match (given, wanted) {
        (
            TypeRef::Named { named, non_null },
            TypeRef::Named {
                named: other_named,
                non_null: other,
            },
        ) => may_be(*non_null, *other) && is_named_subtype(schema, named, other_named),
        (
            TypeRef::List { of, non_null },
            TypeRef::List {
                of: other_of,
                non_null: other,
            },
        ) => may_be(*non_null, *other) && is_subtype(schema, of.get(), other_of.get()),
        _ => false,
    }
}

fn is_named_subtype(schema: &Schema, given: &Text, wanted: &Text) -> bool
    ensures { result ≡ is_named_subtype schema.now given.now wanted.now }
{
    given == wanted
        || type_implements(schema, given, wanted)
        || type_has_member(schema, wanted, given)
}

fn type_implements(schema: &Schema, name: &Text, interface: &Text) -> bool
    ensures { result ≡ option_map_or (λ t. implements t.form interface.now) (entry schema.now.types name.now) false }
{
    match schema.types.get(name) {
        Some(found) => found.form.implements(interface),
        None => false,
    }
}

fn type_has_member(schema: &Schema, name: &Text, member: &Text) -> bool
    ensures { result ≡ option_map_or (λ t. has_member t.form member.now) (entry schema.now.types name.now) false }
{
    match schema.types.get(name) {
        Some(found) => found.form.has_member(member),
        None => false,
    }
}

fn may_be(required: bool, other: bool) -> bool
    ensures { result ≡ may_be required other }
{
    required || !other
}

/// Whether two types are the same.
pub(crate) fn is_same_type(a: &TypeRef, b: &TypeRef) -> bool
    ensures { result ≡ is_same_type a.now b.now }
{
    match (a, b) {
        (
            TypeRef::Named { named, non_null },
            TypeRef::Named {
                named: other_named,
                non_null: other,
            },
        ) => same_bool(*non_null, *other) && named == other_named,
        (
            TypeRef::List { of, non_null },
            TypeRef::List {
                of: other_of,
                non_null: other,
            },
        ) => same_bool(*non_null, *other) && is_same_type(of.get(), other_of.get()),
        _ => false,
    }
}

fn same_bool(a: bool, b: bool) -> bool
    ensures { result ≡ same_bool a b }
{
    if a { b } else { !b }
}

/// Whether a type is Non-Null.
pub fn is_non_null(type_ref: &TypeRef) -> bool
    ensures { result ≡ is_non_null type_ref.now }
{
    match type_ref {
        TypeRef::Named { non_null, .. } => *non_null,
        TypeRef::List { non_null, .. } => *non_null,
    }
}
