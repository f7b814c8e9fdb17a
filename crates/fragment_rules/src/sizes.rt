ghost use Rattle.std.specs.Prelude.{◌≡◌, IfOk, true, length, map, is_none};
ghost use Rattle.std.specs.List.{list_any};
ghost use Rattle.check_model.specs.Executables.{operation_is, fragment_is};
ghost use Rattle.check_model.specs.Sizes.{bounded, both, one_more, one_deeper, size_of_set, size_of_selection, size_of_field, size_of_inline, size_in_fragment, is_too_large};
ghost use Rattle.fragment_rules.specs.Indexes.{Indexes};
ghost use Rattle.fragment_rules.specs.Tables.{size_in, size_at, some_large, definition_size, unsized_table, table_after};

use crate::fragments::FragmentIndex;
use check_model::Size;
use gql_model::{Definition, Document, Field, InlineFragment, Selection, SelectionSet};
use std::alloc::Global;
use text_types::{Items, Memory, Text};

const NO_SIZE: Size = Size {
    depth: 0,
    fields: 0,
};

/// Whether selection sets nest too deep or a definition has too many fields, with all spreads followed.
///
/// The sizes of fragments are found in rounds, each over the sizes of the round before, until they stay.
/// Each round that changes a size goes one spread deeper, so that the limit on depth ends them soon.
pub fn is_too_large(
    alloc: Global,
    index: &FragmentIndex,
    document: &Document,
) -> Result<bool, Memory>
    ensures { Indexes index.now document.now.definitions → IfOk result (λ b. b ≡ is_too_large document.now) }
{
    let definitions = document.definitions.as_slice();
    let table = last_table(alloc, index, definitions)?;
    Ok(some_large(index, table.as_slice(), definitions))
}

fn some_large(index: &FragmentIndex, sizes: &[Option<Size>], definitions: &[Definition]) -> bool
    ensures { result ≡ some_large (size_in index.now sizes.now) definitions.now }
{
    some_large_operation(index, sizes, definitions)
        || some_large_fragment(index, sizes, definitions)
}

fn some_large_operation(
    index: &FragmentIndex,
    sizes: &[Option<Size>],
    definitions: &[Definition],
) -> bool
    ensures { result ≡ list_any (operation_is (λ o. is_none (size_of_set (size_in index.now sizes.now) o.selection_set))) definitions.now }
{
    definitions
        .iter()
        .any(|definition| is_large_operation(index, sizes, definition))
}

fn is_large_operation(
    index: &FragmentIndex,
    sizes: &[Option<Size>],
    definition: &Definition,
) -> bool
    ensures { result ≡ operation_is (λ o. is_none (size_of_set (size_in index.now sizes.now) o.selection_set)) definition.now }
{
    match definition {
        Definition::Operation(operation) => {
            set_size(index, sizes, &operation.selection_set).is_none()
        }
        _ => false,
    }
}

fn some_large_fragment(
    index: &FragmentIndex,
    sizes: &[Option<Size>],
    definitions: &[Definition],
) -> bool
    ensures { result ≡ list_any (fragment_is (λ f. is_none (size_in_fragment (size_in index.now sizes.now) f))) definitions.now }
{
    definitions
        .iter()
        .any(|definition| is_large_fragment(index, sizes, definition))
}

fn is_large_fragment(index: &FragmentIndex, sizes: &[Option<Size>], definition: &Definition) -> bool
    ensures { result ≡ fragment_is (λ f. is_none (size_in_fragment (size_in index.now sizes.now) f)) definition.now }
{
    match definition {
        Definition::Fragment(fragment) => {
            set_size(index, sizes, &fragment.selection_set).is_none()
        }
        _ => false,
    }
}

/// The sizes of fragments by their places, with all spreads followed.
fn last_table(
    alloc: Global,
    index: &FragmentIndex,
    definitions: &[Definition],
) -> Result<Items<Option<Size>>, Memory>
    ensures { IfOk result (λ table. table ≡ table_after (length definitions.now) index.now definitions.now) }
{
    let mut table = first_table(alloc, definitions)?;
    'rounds: for round in 0..definitions.len() {
        let next = next_table(alloc, index, table.as_slice(), definitions)?;
        if are_same(table.as_slice(), next.as_slice()) {
            return Ok(table);
        }
        table = next;
    }
    Ok(table)
}

fn first_table(alloc: Global, definitions: &[Definition]) -> Result<Items<Option<Size>>, Memory>
    ensures { IfOk result (λ table. table ≡ unsized_table definitions.now) }
{
    let mut table = Items::new(alloc);
    'definitions: for _definition in definitions {
        table.push(Some(NO_SIZE))?;
    }
    Ok(table)
}

fn next_table(
    alloc: Global,
    index: &FragmentIndex,
    sizes: &[Option<Size>],
    definitions: &[Definition],
) -> Result<Items<Option<Size>>, Memory>
    ensures { IfOk result (λ table. table ≡ map (definition_size (size_in index.now sizes.now)) definitions.now) }
{
    let mut table = Items::new(alloc);
    'definitions: for definition in definitions {
        table.push(definition_size(index, sizes, definition))?;
    }
    Ok(table)
}

fn are_same(xs: &[Option<Size>], ys: &[Option<Size>]) -> bool
    ensures { result ≡ true → xs.now ≡ ys.now }
{
    if xs.len() != ys.len() {
        return false;
    }
    'sizes: for (i, x) in xs.iter().enumerate() {
        if !is_same(*x, ys[i]) {
            return false;
        }
    }
    true
}

fn is_same(x: Option<Size>, y: Option<Size>) -> bool
    ensures { result ≡ true → x ≡ y }
{
    match (x, y) {
        (Some(x), Some(y)) => x.depth == y.depth && x.fields == y.fields,
        (None, None) => true,
        _ => false,
    }
}

fn definition_size(
    index: &FragmentIndex,
    sizes: &[Option<Size>],
    definition: &Definition,
) -> Option<Size>
    ensures { result ≡ definition_size (size_in index.now sizes.now) definition.now }
{
    match definition {
        Definition::Fragment(fragment) => set_size(index, sizes, &fragment.selection_set),
        _ => Some(NO_SIZE),
    }
}

#[cycle(sizes)]
fn set_size(index: &FragmentIndex, sizes: &[Option<Size>], set: &SelectionSet) -> Option<Size>
    ensures { result ≡ size_of_set (size_in index.now sizes.now) set.now }
{
    let mut total = NO_SIZE;
    'selections: for selection in set.selections.as_slice() {
        let size = selection_size(index, sizes, selection)?;
        total = both(total, size)?;
    }
    one_deeper(total)
}

#[cycle(sizes)]
fn selection_size(
    index: &FragmentIndex,
    sizes: &[Option<Size>],
    selection: &Selection,
) -> Option<Size>
    ensures { result ≡ size_of_selection (size_in index.now sizes.now) selection.now }
{
    match selection {
        Selection::Field(field) => field_size(index, sizes, field),
        Selection::Spread(spread) => size_in(index, sizes, &spread.name.text),
        Selection::Inline(fragment) => inline_size(index, sizes, fragment),
    }
}

#[cycle(sizes)]
fn field_size(index: &FragmentIndex, sizes: &[Option<Size>], field: &Field) -> Option<Size>
    ensures { result ≡ size_of_field (size_in index.now sizes.now) field.now }
{
    match &field.selection_set {
        Some(set) => one_more(set_size(index, sizes, set)?),
        None => one_more(NO_SIZE),
    }
}

#[cycle(sizes)]
fn inline_size(
    index: &FragmentIndex,
    sizes: &[Option<Size>],
    fragment: &InlineFragment,
) -> Option<Size>
    ensures { result ≡ size_of_inline (size_in index.now sizes.now) fragment.now }
{
    set_size(index, sizes, &fragment.selection_set)
}

/// The size that a table has for a fragment of a name.
fn size_in(index: &FragmentIndex, sizes: &[Option<Size>], name: &Text) -> Option<Size>
    ensures { result ≡ size_in index.now sizes.now name.now }
{
    match index.place_of(name) {
        Some(place) => size_at(sizes, place),
        None => Some(NO_SIZE),
    }
}

fn size_at(sizes: &[Option<Size>], place: usize) -> Option<Size>
    ensures { result ≡ size_at sizes.now place }
{
    match sizes.get(place) {
        Some(size) => *size,
        None => Some(NO_SIZE),
    }
}

fn both(a: Size, b: Size) -> Option<Size>
    ensures { result ≡ both a b }
{
    let depth = if a.depth < b.depth { b.depth } else { a.depth };
    bounded(depth as u64, a.fields as u64 + b.fields as u64)
}

fn one_more(below: Size) -> Option<Size>
    ensures { result ≡ one_more below }
{
    bounded(below.depth as u64, below.fields as u64 + 1)
}

fn one_deeper(inside: Size) -> Option<Size>
    ensures { result ≡ one_deeper inside }
{
    bounded(inside.depth as u64 + 1, inside.fields as u64)
}

fn bounded(depth: u64, fields: u64) -> Option<Size>
    ensures { result ≡ bounded depth fields }
{
    if 64 < depth || 65536 < fields {
        return None;
    }
    Some(Size {
        depth: depth as u32,
        fields: fields as u32,
    })
}
