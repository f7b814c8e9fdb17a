ghost use Rattle.std.specs.Prelude.{◌≡◌};
ghost use Rattle.schema_rules.specs.Subtypes.{may_be};
ghost use Rattle.check_model.specs.ArgumentRules.{is_null};
ghost use Rattle.check_model.specs.VariableRules.{goes_into, nullable, has_value, goes_by_default, may_stand_for};
ghost use Rattle.variable_rules.specs.Places.{place_of};

use crate::wanted::Wanted;
use gql_model::{Literal, LiteralValue, TypeRef, VariableDefinition};
use schema_rules::is_non_null;

/// Whether a variable may stand at a place (GraphQL October 2021, 5.8.5, IsVariableUsageAllowed).
pub(crate) fn may_stand_for(variable: &VariableDefinition, wanted: Wanted<'_>) -> bool
    ensures { result ≡ may_stand_for variable.now (place_of wanted.entry) }
{
    goes_into(&variable.variable_type.type_ref, wanted.wanted) || goes_by_default(variable, wanted)
}

fn goes_by_default(variable: &VariableDefinition, wanted: Wanted<'_>) -> bool
    ensures { result ≡ goes_by_default variable.now (place_of wanted.entry) }
{
    let given = &variable.variable_type.type_ref;
    is_non_null(wanted.wanted)
        && !is_non_null(given)
        && goes_into_nullable(given, wanted.wanted)
        && (has_value(&variable.default) || wanted.has_default)
}

/// Whether the two types are equal, once the Non-Null marks that the first has and the second lacks are
/// left out (GraphQL October 2021, 5.8.5, AreTypesCompatible).
fn goes_into(given: &TypeRef, wanted: &TypeRef) -> bool
    ensures { result ≡ goes_into given.now wanted.now }
{
    match (given, wanted) {
        (
            TypeRef::Named { named, non_null },
            TypeRef::Named {
                named: other_named,
                non_null: other,
            },
        ) => may_be(*non_null, *other) && named == other_named,
        (
            TypeRef::List { of, non_null },
            TypeRef::List {
                of: other_of,
                non_null: other,
            },
        ) => may_be(*non_null, *other) && goes_into(of.get(), other_of.get()),
        _ => false,
    }
}

/// Whether the first type goes into the second without its Non-Null mark.
fn goes_into_nullable(given: &TypeRef, wanted: &TypeRef) -> bool
    ensures { result ≡ goes_into given.now (nullable wanted.now) }
{
    match (given, wanted) {
        (TypeRef::Named { named, non_null }, TypeRef::Named { named: other, .. }) => {
            may_be(*non_null, false) && named == other
        }
        (TypeRef::List { of, non_null }, TypeRef::List { of: other, .. }) => {
            may_be(*non_null, false) && goes_into(of.get(), other.get())
        }
        _ => false,
    }
}

fn may_be(required: bool, other: bool) -> bool
    ensures { result ≡ may_be required other }
{
    required || !other
}

fn has_value(default: &Option<Literal>) -> bool
    ensures { result ≡ has_value default.now }
{
    match default {
        Some(literal) => !is_null(literal),
        None => false,
    }
}

fn is_null(literal: &Literal) -> bool
    ensures { result ≡ is_null literal.now }
{
    matches!(literal.value, LiteralValue::Null)
}
