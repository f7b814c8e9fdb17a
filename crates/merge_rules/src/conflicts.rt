ghost use Rattle.std.specs.Prelude.{◌≡◌, ◌<◌, ◌+◌, length, slice_get, Some, ◌&&◌, ◌||◌, true, List, ℕ, IfOk};
ghost use Rattle.std.specs.List.{list_any};
ghost use Rattle.std.specs.Option.{option_copied};
ghost use Rattle.check_model.specs.Fields.{Placed, PlacedFields};
ghost use Rattle.check_model.specs.MergeRules.{conflict, some_conflict};
ghost use Rattle.merge_rules.specs.Conflicts.{differ, asks, clash};
ghost use Rattle.merge_rules.specs.Kept.{at_odds_with, IsCovered, Represents, TakenIn};
ghost use Rattle.merge_rules.specs.Paths.{AreNumbered};
ghost use Rattle.merge_rules.specs.Rows.{IsOrdered, Stands};

use crate::alike::are_alike;
use crate::kept::{Kept, keep, kept_at};
use crate::kin::kin;
use crate::paths::path_numbers;
use crate::rows::Row;
use crate::same::same_arguments;
use crate::shapes::same_shape;
use gql_model::TypeRef;
use schema_model::Schema;
use site_walk::Scope;
use std::alloc::Global;
use std::collections::BTreeMap;
use text_types::Memory;

/// Whether two of the fields that the rows stand for can't be merged. Only rows of one path are compared, and
/// of those that are alike only the first.
pub(crate) fn some_conflict(
    alloc: Global,
    scope: &Scope<'_>,
    rows: &[Row<'_>],
) -> Result<bool, Memory>
    requires { IsOrdered rows.now }
    ensures { (fields : PlacedFields) → Stands scope.now.schema.now rows.now fields → IfOk result (λ b. b ≡ some_conflict scope.now.schema.now fields) }
{
    let numbers = path_numbers(alloc, rows)?;
    let mut kept = BTreeMap::new(alloc);
    'rows: for (place, number) in numbers.as_slice().iter().enumerate() {
        match with_row(alloc, scope, rows, kept, *number, place)? {
            Some(more) => kept = more,
            None => return Ok(true),
        }
    }
    Ok(false)
}

/// Takes in the row at a place, unless it can't be merged with one that is taken in.
fn with_row(
    alloc: Global,
    scope: &Scope<'_>,
    rows: &[Row<'_>],
    kept: Kept,
    number: usize,
    place: usize,
) -> Result<Option<Kept>, Memory>
    requires ordered { IsOrdered rows.now }
    requires within { place < length rows.now }
    ensures { (fields : PlacedFields) (numbers : List ℕ) → Stands scope.now.schema.now rows.now fields → AreNumbered fields numbers → slice_get numbers place ≡ Some number → Represents scope.now.schema.now fields numbers kept place → IfOk result (TakenIn scope.now.schema.now fields numbers place) }
{
    let others = kept_at(&kept, number);
    if is_at_odds(scope, rows, others, place) {
        return Ok(None);
    }
    if is_covered(rows, others, place) {
        return Ok(Some(kept));
    }
    let more = keep(alloc, kept, number, place)?;
    Ok(Some(more))
}

/// Whether a row can't be merged with itself or with one at some places.
fn is_at_odds(scope: &Scope<'_>, rows: &[Row<'_>], others: &[usize], place: usize) -> bool
    requires ordered { IsOrdered rows.now }
    requires within { place < length rows.now }
    ensures { (fields : PlacedFields) (x : Placed) → Stands scope.now.schema.now rows.now fields → slice_get fields place ≡ Some x → result ≡ (conflict scope.now.schema.now x x || list_any (at_odds_with scope.now.schema.now fields x) others.now) }
{
    conflict(scope, rows, place, place) || is_at_odds_with_some(scope, rows, others, place)
}

fn is_at_odds_with_some(scope: &Scope<'_>, rows: &[Row<'_>], others: &[usize], place: usize) -> bool
    requires ordered { IsOrdered rows.now }
    requires within { place < length rows.now }
    ensures { (fields : PlacedFields) (x : Placed) → Stands scope.now.schema.now rows.now fields → slice_get fields place ≡ Some x → result ≡ list_any (at_odds_with scope.now.schema.now fields x) others.now }
{
    'others: for other in others {
        if is_at_odds_with(scope, rows, place, *other) {
            return true;
        }
    }
    false
}

/// Whether two rows can't be merged, whichever is named first.
fn is_at_odds_with(scope: &Scope<'_>, rows: &[Row<'_>], place: usize, other: usize) -> bool
    requires ordered { IsOrdered rows.now }
    requires within { place < length rows.now }
    ensures { (fields : PlacedFields) (x : Placed) → Stands scope.now.schema.now rows.now fields → slice_get fields place ≡ Some x → result ≡ at_odds_with scope.now.schema.now fields x other }
{
    other < rows.len()
        && (conflict(scope, rows, place, other) || conflict(scope, rows, other, place))
}

/// Whether a row is alike one at some places.
fn is_covered(rows: &[Row<'_>], others: &[usize], place: usize) -> bool
    requires ordered { IsOrdered rows.now }
    requires within { place < length rows.now }
    ensures { (schema : Schema) (fields : PlacedFields) (x : Placed) → Stands schema rows.now fields → slice_get fields place ≡ Some x → result ≡ true → IsCovered schema fields others.now x }
{
    'others: for other in others {
        if *other < rows.len() && are_alike(rows, *other, place) {
            return true;
        }
    }
    false
}

fn conflict(scope: &Scope<'_>, rows: &[Row<'_>], a: usize, b: usize) -> bool
    requires ordered { IsOrdered rows.now }
    requires first { a < length rows.now }
    requires second { b < length rows.now }
    ensures { (fields : PlacedFields) (x : Placed) (y : Placed) → Stands scope.now.schema.now rows.now fields → slice_get fields a ≡ Some x → slice_get fields b ≡ Some y → result ≡ conflict scope.now.schema.now x y }
{
    let x = rows[a];
    let y = rows[b];
    match kin(scope.schema, rows, Some(a), Some(b)) {
        Some(meet) => clash(scope, x, y, meet),
        None => false,
    }
}

/// Whether two fields of one path can't be merged, given whether their chains may overlap.
fn clash(scope: &Scope<'_>, x: Row<'_>, y: Row<'_>, meet: bool) -> bool
    ensures { result ≡ clash scope.now.schema.now x.entry y.entry meet }
{
    let first = scope.selected_type(x.parent, x.name);
    let second = scope.selected_type(y.parent, y.name);
    differ_in_shape(scope.schema, first, second) || asks_differently_and_meets(x, y, meet)
}

fn asks_differently_and_meets(x: Row<'_>, y: Row<'_>, meet: bool) -> bool
    ensures { result ≡ (asks x.entry.name.now x.entry.arguments.now y.entry.name.now y.entry.arguments.now && meet) }
{
    meet && !(x.name == y.name && same_arguments(x.arguments, y.arguments))
}

/// Whether the types of two fields, where both are known, differ in shape.
fn differ_in_shape(schema: &Schema, a: Option<&TypeRef>, b: Option<&TypeRef>) -> bool
    ensures { result ≡ differ schema.now (option_copied a.entry) (option_copied b.entry) }
{
    match (a, b) {
        (Some(a), Some(b)) => !same_shape(schema, a, b),
        _ => false,
    }
}
