ghost use Rattle.std.specs.Prelude.{◌≡◌, ◌<◌, true, length, slice_get, Some};
ghost use Rattle.schema_model.specs.declared.schema.Schema.{Schema};
ghost use Rattle.check_model.specs.Fields.{Placed, PlacedFields};
ghost use Rattle.check_model.specs.SameValues.{same_arguments};
ghost use Rattle.merge_rules.specs.Rows.{above_path, above_parents, IsWithin, IsOrdered, Stands};
ghost use Rattle.merge_rules.specs.Kept.{IsAlike};

use crate::rows::Row;
use crate::same::same_arguments;

/// Whether two rows surely stand for fields that no other field tells apart.
pub(crate) fn are_alike(rows: &[Row<'_>], a: usize, b: usize) -> bool
    requires ordered { IsOrdered rows.now }
    requires first { a < length rows.now }
    requires second { b < length rows.now }
    ensures { (schema : Schema) (fields : PlacedFields) (x : Placed) (y : Placed) → Stands schema rows.now fields → slice_get fields a ≡ Some x → slice_get fields b ≡ Some y → result ≡ true → IsAlike x y }
{
    if !ask_alike(rows[a], rows[b]) {
        return false;
    }
    stand_alike(rows, Some(a), Some(b))
}

/// Whether two rows have one name and the same arguments.
fn ask_alike(x: Row<'_>, y: Row<'_>) -> bool
    ensures name { result ≡ true → x.entry.name.now ≡ y.entry.name.now }
    ensures there { result ≡ true → same_arguments x.entry.arguments.now y.entry.arguments.now ≡ true }
    ensures back { result ≡ true → same_arguments y.entry.arguments.now x.entry.arguments.now ≡ true }
{
    x.name == y.name
        && same_arguments(x.arguments, y.arguments)
        && same_arguments(y.arguments, x.arguments)
}

/// Whether two places have one path and one chain of types.
#[cycle(stand)]
fn stand_alike(rows: &[Row<'_>], a: Option<usize>, b: Option<usize>) -> bool
    requires ordered { IsOrdered rows.now }
    requires first { IsWithin a (length rows.now) }
    requires second { IsWithin b (length rows.now) }
    ensures { (schema : Schema) (fields : PlacedFields) → Stands schema rows.now fields → result ≡ true → (above_path fields a ≡ above_path fields b) × (above_parents fields a ≡ above_parents fields b) }
{
    match (a, b) {
        (Some(a), Some(b)) => a == b || rows_stand_alike(rows, a, b),
        (None, None) => true,
        _ => false,
    }
}

#[cycle(stand)]
fn rows_stand_alike(rows: &[Row<'_>], a: usize, b: usize) -> bool
    requires ordered { IsOrdered rows.now }
    requires first { a < length rows.now }
    requires second { b < length rows.now }
    ensures { (schema : Schema) (fields : PlacedFields) → Stands schema rows.now fields → result ≡ true → (above_path fields (Some a) ≡ above_path fields (Some b)) × (above_parents fields (Some a) ≡ above_parents fields (Some b)) }
{
    let x = rows[a];
    let y = rows[b];
    if !have_one_key_and_type(x, y) {
        return false;
    }
    stand_alike(rows, x.above, y.above)
}

fn have_one_key_and_type(x: Row<'_>, y: Row<'_>) -> bool
    ensures key { result ≡ true → x.entry.key.now ≡ y.entry.key.now }
    ensures parent { result ≡ true → x.entry.parent ≡ y.entry.parent }
{
    x.key == y.key && x.parent == y.parent
}
