ghost use Rattle.std.specs.Prelude.{◌≡◌, IfOk};
ghost use Rattle.std.specs.Option.{option_copied};
ghost use Rattle.fragment_rules.specs.Indexes.{Indexes};
ghost use Rattle.check_model.specs.DocumentRules.{breaks_fragment_cycles};
ghost use Rattle.check_model.specs.Judgement.{first_ground, request_grounds, definition_grounds, spread_grounds, early_grounds};

use check_model::Refusal;
use fragment_rules::{
    FragmentIndex, breaks_executable_definitions, breaks_fragment_cycles,
    breaks_fragment_name_uniqueness, breaks_fragments_used, breaks_lone_anonymous_operation,
    breaks_operation_name_uniqueness, breaks_spread_target_defined, chosen, is_introspection,
    is_too_large, spread_graph,
};
use gql_model::Document;
use std::alloc::Global;
use text_types::{Memory, Text};

/// Why a document and the choice of its operation are refused, as far as a schema isn't asked.
pub fn early_refusal(
    alloc: Global,
    document: &Document,
    name: Option<&Text>,
) -> Result<Option<Refusal>, Memory>
    ensures { IfOk result (λ r. r ≡ first_ground (early_grounds document.now (option_copied name.entry))) }
{
    if let Some(refusal) = request_refusal(document, name) {
        return Ok(Some(refusal));
    }
    if let Some(refusal) = definition_refusal(alloc, document)? {
        return Ok(Some(refusal));
    }
    spread_refusal(alloc, document)
}

fn request_refusal(document: &Document, name: Option<&Text>) -> Option<Refusal>
    ensures { result ≡ first_ground (request_grounds document.now (option_copied name.entry)) }
{
    if chosen(document, name).is_none() {
        return Some(Refusal::UnknownOperation);
    }
    if is_introspection(document) {
        return Some(Refusal::Introspection);
    }
    None
}

fn definition_refusal(alloc: Global, document: &Document) -> Result<Option<Refusal>, Memory>
    ensures { IfOk result (λ r. r ≡ first_ground (definition_grounds document.now)) }
{
    if breaks_executable_definitions(document) {
        return Ok(Some(Refusal::Invalid { rule: 1 }));
    }
    if breaks_operation_name_uniqueness(alloc, document)? {
        return Ok(Some(Refusal::Invalid { rule: 2 }));
    }
    if breaks_lone_anonymous_operation(document) {
        return Ok(Some(Refusal::Invalid { rule: 3 }));
    }
    if breaks_fragment_name_uniqueness(alloc, document)? {
        return Ok(Some(Refusal::Invalid { rule: 4 }));
    }
    Ok(None)
}

fn spread_refusal(alloc: Global, document: &Document) -> Result<Option<Refusal>, Memory>
    ensures { IfOk result (λ r. r ≡ first_ground (spread_grounds document.now)) }
{
    let index = FragmentIndex::of(alloc, document)?;
    let refusal = indexed_refusal(alloc, &index, document)?;
    Ok(refusal)
}

fn indexed_refusal(
    alloc: Global,
    index: &FragmentIndex,
    document: &Document,
) -> Result<Option<Refusal>, Memory>
    ensures { Indexes index.now document.now.definitions → IfOk result (λ r. r ≡ first_ground (spread_grounds document.now)) }
{
    if breaks_spread_target_defined(index, document) {
        return Ok(Some(Refusal::Invalid { rule: 5 }));
    }
    if has_cycle(alloc, index, document)? {
        return Ok(Some(Refusal::Invalid { rule: 6 }));
    }
    if is_too_large(alloc, index, document)? {
        return Ok(Some(Refusal::TooLarge));
    }
    if breaks_fragments_used(alloc, index, document)? {
        return Ok(Some(Refusal::Invalid { rule: 7 }));
    }
    Ok(None)
}

fn has_cycle(alloc: Global, index: &FragmentIndex, document: &Document) -> Result<bool, Memory>
    ensures { Indexes index.now document.now.definitions → IfOk result (λ b. b ≡ breaks_fragment_cycles document.now) }
{
    let graph = spread_graph(alloc, index, document)?;
    let cycle = breaks_fragment_cycles(alloc, &graph)?;
    Ok(cycle)
}
