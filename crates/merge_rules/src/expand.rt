ghost use Rattle.std.specs.Prelude.{◌≡◌, ◌≤◌, [], length, OnOk};
ghost use Rattle.check_model.specs.Fields.{response_key, fields_of_set, fragment_fields};
ghost use Rattle.check_model.specs.Followed.{followed_within};
ghost use Rattle.merge_rules.specs.Rows.{IsWithin, Grows};
ghost use Rattle.merge_rules.specs.Parts.{fields_of_selection, fields_of_field, fields_of_inline};

use crate::keys::response_key;
use crate::rows::{Row, put};
use gql_model::{Field, InlineFragment, Selection, SelectionSet};
use schema_model::TypeId;
use site_walk::{Scope, composite_named, field_parent, inline_parent};
use text_types::{Memory, Text};

/// Where a set stands: below the field of a row, or at the top, and of what type it is.
#[derive(Clone, Copy)]
pub(crate) struct At {
    pub above: Option<usize>,
    pub parent: Option<TypeId>,
}

/// Adds the fields of a set at every depth, with spreads followed, at most so deep.
#[cycle(expand)]
pub(crate) fn expand_set<'a>(
    scope: &Scope<'a>,
    rows: &mut Vec<Row<'a>>,
    fuel: usize,
    set: &'a SelectionSet,
    at: At,
) -> Result<(), Memory>
    requires { IsWithin at.above (length rows.old.items) }
    ensures grows { OnOk result (Grows scope.now.schema.now rows.old.items rows.new.items at.above (fields_of_set scope.now.schema.now (followed_within fuel [] (fragment_fields scope.now.schema.now) scope.now.document.now) set.now at.parent)) }
    ensures longer { length rows.old.items ≤ length rows.new.items }
{
    'selections: for selection in set.selections.as_slice() {
        expand_selection(scope, rows, fuel, selection, at)?;
    }
    Ok(())
}

#[cycle(expand)]
fn expand_selection<'a>(
    scope: &Scope<'a>,
    rows: &mut Vec<Row<'a>>,
    fuel: usize,
    selection: &'a Selection,
    at: At,
) -> Result<(), Memory>
    requires { IsWithin at.above (length rows.old.items) }
    ensures grows { OnOk result (Grows scope.now.schema.now rows.old.items rows.new.items at.above (fields_of_selection scope.now.schema.now (followed_within fuel [] (fragment_fields scope.now.schema.now) scope.now.document.now) selection.now at.parent)) }
    ensures longer { length rows.old.items ≤ length rows.new.items }
{
    match selection {
        Selection::Field(field) => expand_field(scope, rows, fuel, field, at),
        Selection::Spread(spread) => {
            expand_fragment(scope, rows, fuel, &spread.name.text, at.above)
        }
        Selection::Inline(fragment) => expand_inline(scope, rows, fuel, fragment, at),
    }
}

#[cycle(expand)]
fn expand_field<'a>(
    scope: &Scope<'a>,
    rows: &mut Vec<Row<'a>>,
    fuel: usize,
    field: &'a Field,
    at: At,
) -> Result<(), Memory>
    requires { IsWithin at.above (length rows.old.items) }
    ensures grows { OnOk result (Grows scope.now.schema.now rows.old.items rows.new.items at.above (fields_of_field scope.now.schema.now (followed_within fuel [] (fragment_fields scope.now.schema.now) scope.now.document.now) field.now at.parent)) }
    ensures longer { length rows.old.items ≤ length rows.new.items }
{
    let row = Row {
        above: at.above,
        key: response_key(&field.alias, &field.name.text),
        parent: at.parent,
        name: &field.name.text,
        arguments: field.arguments.as_slice(),
    };
    let place = put(rows, row)?;
    let Some(set) = &field.selection_set else {
        return Ok(());
    };
    let below = At {
        above: Some(place),
        parent: field_parent(scope.schema, at.parent, &field.name.text),
    };
    expand_set(scope, rows, fuel, set, below)?;
    Ok(())
}

#[cycle(expand)]
fn expand_inline<'a>(
    scope: &Scope<'a>,
    rows: &mut Vec<Row<'a>>,
    fuel: usize,
    fragment: &'a InlineFragment,
    at: At,
) -> Result<(), Memory>
    requires { IsWithin at.above (length rows.old.items) }
    ensures grows { OnOk result (Grows scope.now.schema.now rows.old.items rows.new.items at.above (fields_of_inline scope.now.schema.now (followed_within fuel [] (fragment_fields scope.now.schema.now) scope.now.document.now) fragment.now at.parent)) }
    ensures longer { length rows.old.items ≤ length rows.new.items }
{
    let inner = At {
        above: at.above,
        parent: inline_parent(scope.schema, at.parent, &fragment.type_condition),
    };
    expand_set(scope, rows, fuel, &fragment.selection_set, inner)
}

#[cycle(expand)]
fn expand_fragment<'a>(
    scope: &Scope<'a>,
    rows: &mut Vec<Row<'a>>,
    fuel: usize,
    name: &Text,
    above: Option<usize>,
) -> Result<(), Memory>
    requires { IsWithin above (length rows.old.items) }
    ensures grows { OnOk result (Grows scope.now.schema.now rows.old.items rows.new.items above (followed_within fuel [] (fragment_fields scope.now.schema.now) scope.now.document.now name.now)) }
    ensures longer { length rows.old.items ≤ length rows.new.items }
{
    if fuel == 0 {
        return Ok(());
    }
    let Some(fragment) = scope.fragment(name) else {
        return Ok(());
    };
    let inner = At {
        above,
        parent: composite_named(scope.schema, &fragment.type_condition.text),
    };
    expand_set(scope, rows, fuel - 1, &fragment.selection_set, inner)?;
    Ok(())
}
