ghost use Rattle.std.specs.Prelude.{◌≡◌, ◌<◌, ◌&&◌, length, bytes_eq, Some};
ghost use Rattle.std.specs.Option.{option_map};
ghost use Rattle.check_model.specs.Fields.{PlacedFields};
ghost use Rattle.check_model.specs.MergeRules.{is_object_type, may_overlap_types, may_overlap};
ghost use Rattle.merge_rules.specs.Kin.{kin};
ghost use Rattle.merge_rules.specs.Rows.{IsWithin, IsOrdered, Stands};

use crate::rows::Row;
use schema_model::{Schema, TypeId};

/// How two places of an expansion are related: not at all where their paths differ, or else whether their
/// chains may overlap.
#[cycle(kin)]
pub(crate) fn kin(
    schema: &Schema,
    rows: &[Row<'_>],
    a: Option<usize>,
    b: Option<usize>,
) -> Option<bool>
    requires ordered { IsOrdered rows.now }
    requires first { IsWithin a (length rows.now) }
    requires second { IsWithin b (length rows.now) }
    ensures { (fields : PlacedFields) → Stands schema.now rows.now fields → result ≡ kin schema.now fields a b }
{
    match (a, b) {
        (Some(a), Some(b)) => kin_at(schema, rows, a, b),
        (None, None) => Some(true),
        (None, Some(_)) => None,
        (Some(_), None) => None,
    }
}

#[cycle(kin)]
fn kin_at(schema: &Schema, rows: &[Row<'_>], a: usize, b: usize) -> Option<bool>
    requires ordered { IsOrdered rows.now }
    requires first { a < length rows.now }
    requires second { b < length rows.now }
    ensures { (fields : PlacedFields) → Stands schema.now rows.now fields → result ≡ kin schema.now fields (Some a) (Some b) }
{
    let x = rows[a];
    let y = rows[b];
    if !has_same_key(x, y) {
        return None;
    }
    let above = kin(schema, rows, x.above, y.above);
    with_parents(schema, x, y, above)
}

fn has_same_key(x: Row<'_>, y: Row<'_>) -> bool
    ensures { result ≡ bytes_eq x.entry.key.now y.entry.key.now }
{
    x.key == y.key
}

fn with_parents(schema: &Schema, x: Row<'_>, y: Row<'_>, above: Option<bool>) -> Option<bool>
    ensures { result ≡ option_map (λ m. m && may_overlap schema.now x.entry.parent y.entry.parent) above }
{
    match above {
        Some(meet) => Some(meet && may_overlap(schema, x.parent, y.parent)),
        None => None,
    }
}

/// Whether some object may be of both types, where both are known.
fn may_overlap(schema: &Schema, a: Option<TypeId>, b: Option<TypeId>) -> bool
    ensures { result ≡ may_overlap schema.now a b }
{
    match (a, b) {
        (Some(a), Some(b)) => may_overlap_types(schema, a, b),
        _ => true,
    }
}

/// They are one type, or one of them isn't an object type.
fn may_overlap_types(schema: &Schema, a: TypeId, b: TypeId) -> bool
    ensures { result ≡ may_overlap_types schema.now a b }
{
    a.0 == b.0 || !is_object_type(schema, a) || !is_object_type(schema, b)
}

fn is_object_type(schema: &Schema, id: TypeId) -> bool
    ensures { result ≡ is_object_type schema.now id }
{
    match schema.type_at(id) {
        Some((_, found)) => found.form.is_object(),
        None => false,
    }
}
