ghost use Rattle.std.specs.Prelude.{◌≡◌, [], ◌++◌, IfOk, OnOk, map};
ghost use Rattle.std.specs.List.{list_any, cons_option};
ghost use Rattle.check_model.specs.Spreads.{spreads_in, spreads_of_selection, spreads_of_field, spreads_of_inline, spread_names, spread_graph};
ghost use Rattle.check_model.specs.DocumentRules.{breaks_spread_target_defined};
ghost use Rattle.fragment_rules.specs.Indexes.{Indexes, place_in, lacks, targets_in};

use crate::fragments::FragmentIndex;
use digraph::Digraph;
use gql_model::{Definition, Document, Field, InlineFragment, Selection, SelectionSet};
use std::alloc::Global;
use text_types::{Items, Memory};

/// Fragment Spread Target Defined: whether a spread names no fragment.
pub fn breaks_spread_target_defined(index: &FragmentIndex, document: &Document) -> bool
    ensures { Indexes index.now document.now.definitions → result ≡ breaks_spread_target_defined document.now }
{
    some_definition_spreads_unknown(index, document.definitions.as_slice())
}

fn some_definition_spreads_unknown(index: &FragmentIndex, definitions: &[Definition]) -> bool
    ensures { result ≡ list_any (λ d. list_any (lacks index.now) (spread_names d)) definitions.now }
{
    definitions
        .iter()
        .any(|definition| definition_spreads_unknown(index, definition))
}

fn definition_spreads_unknown(index: &FragmentIndex, definition: &Definition) -> bool
    ensures { result ≡ list_any (lacks index.now) (spread_names definition.now) }
{
    match definition {
        Definition::Operation(operation) => set_spreads_unknown(index, &operation.selection_set),
        Definition::Fragment(fragment) => set_spreads_unknown(index, &fragment.selection_set),
        Definition::TypeSystem(_) => false,
    }
}

#[cycle(unknown)]
fn set_spreads_unknown(index: &FragmentIndex, set: &SelectionSet) -> bool
    ensures { result ≡ list_any (lacks index.now) (spreads_in set.now) }
{
    'selections: for selection in set.selections.as_slice() {
        if selection_spreads_unknown(index, selection) {
            return true;
        }
    }
    false
}

#[cycle(unknown)]
fn selection_spreads_unknown(index: &FragmentIndex, selection: &Selection) -> bool
    ensures { result ≡ list_any (lacks index.now) (spreads_of_selection selection.now) }
{
    match selection {
        Selection::Field(field) => field_spreads_unknown(index, field),
        Selection::Spread(spread) => index.place_of(&spread.name.text).is_none(),
        Selection::Inline(fragment) => inline_spreads_unknown(index, fragment),
    }
}

#[cycle(unknown)]
fn field_spreads_unknown(index: &FragmentIndex, field: &Field) -> bool
    ensures { result ≡ list_any (lacks index.now) (spreads_of_field field.now) }
{
    match &field.selection_set {
        Some(set) => set_spreads_unknown(index, set),
        None => false,
    }
}

#[cycle(unknown)]
fn inline_spreads_unknown(index: &FragmentIndex, fragment: &InlineFragment) -> bool
    ensures { result ≡ list_any (lacks index.now) (spreads_of_inline fragment.now) }
{
    set_spreads_unknown(index, &fragment.selection_set)
}

/// The graph of spreads: a step leads from a definition to each fragment that it spreads.
pub fn spread_graph(
    alloc: Global,
    index: &FragmentIndex,
    document: &Document,
) -> Result<Digraph, Memory>
    ensures { Indexes index.now document.now.definitions → IfOk result (λ graph. graph ≡ spread_graph document.now) }
{
    let graph = graph_of(alloc, index, document.definitions.as_slice())?;
    Ok(graph)
}

fn graph_of(
    alloc: Global,
    index: &FragmentIndex,
    definitions: &[Definition],
) -> Result<Digraph, Memory>
    ensures { IfOk result (λ graph. graph ≡ map (λ d. targets_in index.now (spread_names d)) definitions.now) }
{
    let mut graph = Digraph::new(alloc);
    'definitions: for definition in definitions {
        graph.push(definition_targets(alloc, index, definition)?)?;
    }
    Ok(graph)
}

fn definition_targets(
    alloc: Global,
    index: &FragmentIndex,
    definition: &Definition,
) -> Result<Items<usize>, Memory>
    ensures { IfOk result (λ targets. targets ≡ targets_in index.now (spread_names definition.now)) }
{
    let mut targets = Items::new(alloc);
    match definition {
        Definition::Operation(operation) => {
            push_set(index, &operation.selection_set, &mut targets)?;
        }
        Definition::Fragment(fragment) => {
            push_set(index, &fragment.selection_set, &mut targets)?;
        }
        Definition::TypeSystem(_) => {}
    }
    Ok(targets)
}

#[cycle(push)]
fn push_set(
    index: &FragmentIndex,
    set: &SelectionSet,
    targets: &mut Items<usize>,
) -> Result<(), Memory>
    ensures { OnOk result (targets.new ≡ targets.old ++ targets_in index.now (spreads_in set.now)) }
{
    'selections: for selection in set.selections.as_slice() {
        push_selection(index, selection, targets)?;
    }
    Ok(())
}

#[cycle(push)]
fn push_selection(
    index: &FragmentIndex,
    selection: &Selection,
    targets: &mut Items<usize>,
) -> Result<(), Memory>
    ensures { OnOk result (targets.new ≡ targets.old ++ targets_in index.now (spreads_of_selection selection.now)) }
{
    match selection {
        Selection::Field(field) => push_field(index, field, targets),
        Selection::Spread(spread) => push_target(index.place_of(&spread.name.text), targets),
        Selection::Inline(fragment) => push_inline(index, fragment, targets),
    }
}

#[cycle(push)]
fn push_field(
    index: &FragmentIndex,
    field: &Field,
    targets: &mut Items<usize>,
) -> Result<(), Memory>
    ensures { OnOk result (targets.new ≡ targets.old ++ targets_in index.now (spreads_of_field field.now)) }
{
    match &field.selection_set {
        Some(set) => push_set(index, set, targets),
        None => Ok(()),
    }
}

#[cycle(push)]
fn push_inline(
    index: &FragmentIndex,
    fragment: &InlineFragment,
    targets: &mut Items<usize>,
) -> Result<(), Memory>
    ensures { OnOk result (targets.new ≡ targets.old ++ targets_in index.now (spreads_of_inline fragment.now)) }
{
    push_set(index, &fragment.selection_set, targets)
}

fn push_target(place: Option<usize>, targets: &mut Items<usize>) -> Result<(), Memory>
    ensures { OnOk result (targets.new ≡ targets.old ++ cons_option place []) }
{
    match place {
        Some(place) => targets.push(place),
        None => Ok(()),
    }
}
