ghost use Rattle.std.specs.Prelude.{◌≡◌, ◌++◌, IfOk, OnOk};
ghost use Rattle.std.specs.List.{list_any, filter_map, enumerate_from, zip};
ghost use Rattle.std.specs.Option.{option_to_list};
ghost use Rattle.gql_model.specs.declared.document.Document.{Document};
ghost use Rattle.check_model.specs.Spreads.{spread_graph};
ghost use Rattle.check_model.specs.DocumentRules.{operation_place, is_unused, used_graph, used_marks, breaks_fragment_cycles, breaks_fragments_used};
ghost use Rattle.fragment_rules.specs.Indexes.{Indexes};

use crate::fragments::FragmentIndex;
use crate::spreads::spread_graph;
use digraph::Digraph;
use gql_model::{Definition, Document};
use std::alloc::Global;
use text_types::{Items, Memory};

/// Fragment Spreads Must Not Form Cycles: whether a fragment reaches itself, by the graph of spreads.
pub fn breaks_fragment_cycles(alloc: Global, graph: &Digraph) -> Result<bool, Memory>
    ensures { (document : Document) → graph.now ≡ spread_graph document → IfOk result (λ b. b ≡ breaks_fragment_cycles document) }
{
    let circle = graph.has_circle(alloc)?;
    Ok(circle)
}

/// Fragments Must Be Used: whether no operation reaches a fragment.
pub fn breaks_fragments_used(
    alloc: Global,
    index: &FragmentIndex,
    document: &Document,
) -> Result<bool, Memory>
    ensures { Indexes index.now document.now.definitions → IfOk result (λ b. b ≡ breaks_fragments_used document.now) }
{
    let graph = used_graph(alloc, index, document)?;
    let definitions = document.definitions.as_slice();
    let marks = graph.reached(alloc, definitions.len())?;
    Ok(some_unused(definitions, marks.as_slice()))
}

/// The graph of spreads with a last node that leads to each operation.
fn used_graph(alloc: Global, index: &FragmentIndex, document: &Document) -> Result<Digraph, Memory>
    ensures { Indexes index.now document.now.definitions → IfOk result (λ graph. graph ≡ used_graph document.now) }
{
    let mut graph = spread_graph(alloc, index, document)?;
    let operations = operation_places(alloc, document.definitions.as_slice())?;
    graph.push(operations)?;
    Ok(graph)
}

fn operation_places(alloc: Global, definitions: &[Definition]) -> Result<Items<usize>, Memory>
    ensures { IfOk result (λ places. places ≡ filter_map operation_place (enumerate_from 0 definitions.now)) }
{
    let mut places = Items::new(alloc);
    'definitions: for (place, definition) in definitions.iter().enumerate() {
        push_operation(definition, place, &mut places)?;
    }
    Ok(places)
}

fn push_operation(
    definition: &Definition,
    place: usize,
    places: &mut Items<usize>,
) -> Result<(), Memory>
    ensures { OnOk result (places.new ≡ places.old ++ option_to_list (operation_place (place, definition.now))) }
{
    match definition {
        Definition::Operation(_) => places.push(place),
        _ => Ok(()),
    }
}

fn some_unused(definitions: &[Definition], marks: &[bool]) -> bool
    ensures { result ≡ list_any is_unused (zip definitions.now marks.now) }
{
    definitions
        .iter()
        .zip(marks.iter())
        .any(|(definition, used)| is_unused(definition, *used))
}

fn is_unused(definition: &Definition, used: bool) -> bool
    ensures { result ≡ is_unused (definition.now, used) }
{
    match definition {
        Definition::Fragment(_) => !used,
        _ => false,
    }
}
