ghost use Rattle.std.specs.Prelude.{◌≡◌, map};
ghost use Rattle.std.specs.List.{list_all};
ghost use Rattle.schema_rules.specs.Subtypes.{same_bool};
ghost use Rattle.check_model.specs.SameValues.{all_same, same_literal, same_value, same_object_field, same_argument, has_argument, same_arguments};

use gql_model::{Argument, Literal, LiteralValue, ObjectField};

/// Whether two lists have the same arguments, in any order.
pub(crate) fn same_arguments(xs: &[Argument], ys: &[Argument]) -> bool
    ensures { result ≡ same_arguments xs.now ys.now }
{
    xs.len() == ys.len() && all_are_in(xs, ys)
}

fn all_are_in(xs: &[Argument], ys: &[Argument]) -> bool
    ensures { result ≡ list_all (has_argument ys.now) xs.now }
{
    xs.iter().all(|x| has_argument(ys, x))
}

fn has_argument(others: &[Argument], argument: &Argument) -> bool
    ensures { result ≡ has_argument others.now argument.now }
{
    others.iter().any(|other| same_argument(argument, other))
}

fn same_argument(a: &Argument, b: &Argument) -> bool
    ensures { result ≡ same_argument a.now b.now }
{
    a.name.text == b.name.text && same_literal(&a.value, &b.value)
}

/// Whether two literals are the same tree.
#[cycle(same)]
fn same_literal(a: &Literal, b: &Literal) -> bool
    ensures { result ≡ same_literal a.now b.now }
{
    same_value(&a.value, &b.value)
}

#[cycle(same)]
fn same_value(a: &LiteralValue, b: &LiteralValue) -> bool
    ensures { result ≡ same_value a.now b.now }
{
    match (a, b) {
        (LiteralValue::Variable(name), LiteralValue::Variable(other)) => name == other,
        (LiteralValue::Integer { text, .. }, LiteralValue::Integer { text: other, .. }) => {
            text == other
        }
        (LiteralValue::String(text), LiteralValue::String(other)) => text == other,
        (LiteralValue::Boolean(b), LiteralValue::Boolean(other)) => same_bool(*b, *other),
        (LiteralValue::Null, LiteralValue::Null) => true,
        (LiteralValue::Enum(word), LiteralValue::Enum(other)) => word == other,
        (LiteralValue::List(items), LiteralValue::List(others)) => {
            same_items(items.as_slice(), others.as_slice())
        }
        (LiteralValue::Object(fields), LiteralValue::Object(others)) => {
            same_fields(fields.as_slice(), others.as_slice())
        }
        _ => false,
    }
}

#[cycle(same)]
fn same_items(items: &[Literal], others: &[Literal]) -> bool
    ensures { result ≡ all_same (map same_literal items.now) others.now }
{
    if items.len() != others.len() {
        return false;
    }
    'items: for (i, item) in items.iter().enumerate() {
        if !same_literal(item, &others[i]) {
            return false;
        }
    }
    true
}

#[cycle(same)]
fn same_fields(fields: &[ObjectField], others: &[ObjectField]) -> bool
    ensures { result ≡ all_same (map same_object_field fields.now) others.now }
{
    if fields.len() != others.len() {
        return false;
    }
    'fields: for (i, field) in fields.iter().enumerate() {
        if !same_object_field(field, &others[i]) {
            return false;
        }
    }
    true
}

#[cycle(same)]
fn same_object_field(a: &ObjectField, b: &ObjectField) -> bool
    ensures { result ≡ same_object_field a.now b.now }
{
    a.name.text == b.name.text && same_literal(&a.value, &b.value)
}

fn same_bool(a: bool, b: bool) -> bool
    ensures { result ≡ same_bool a b }
{
    if a { b } else { !b }
}
