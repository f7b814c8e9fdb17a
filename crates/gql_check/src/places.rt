ghost use Rattle.std.specs.Prelude.{◌≡◌, IfOk};
ghost use Rattle.check_model.specs.Judgement.{first_ground, selection_grounds, directive_grounds, argument_grounds, place_grounds};

use check_model::Refusal;
use place_rules::{
    breaks_argument_names, breaks_argument_uniqueness, breaks_directive_locations,
    breaks_directives_defined, breaks_directives_unique, breaks_field_selections,
    breaks_fragments_on_composites, breaks_leaf_selections, breaks_required_arguments,
    breaks_spread_possible, breaks_spread_type_existence,
};
use site_walk::Scope;
use std::alloc::Global;
use text_types::Memory;

/// The first of the rules on what stands at one place that a document breaks under a schema.
pub fn place_refusal(alloc: Global, scope: &Scope<'_>) -> Result<Option<Refusal>, Memory>
    ensures { IfOk result (λ r. r ≡ first_ground (place_grounds scope.now.schema.now scope.now.document.now)) }
{
    if let Some(refusal) = selection_refusal(scope)? {
        return Ok(Some(refusal));
    }
    if let Some(refusal) = directive_refusal(alloc, scope)? {
        return Ok(Some(refusal));
    }
    argument_refusal(alloc, scope)
}

fn selection_refusal(scope: &Scope<'_>) -> Result<Option<Refusal>, Memory>
    ensures { IfOk result (λ r. r ≡ first_ground (selection_grounds scope.now.schema.now scope.now.document.now)) }
{
    if breaks_spread_type_existence(scope)? {
        return Ok(Some(Refusal::Invalid { rule: 8 }));
    }
    if breaks_fragments_on_composites(scope)? {
        return Ok(Some(Refusal::Invalid { rule: 9 }));
    }
    if breaks_field_selections(scope)? {
        return Ok(Some(Refusal::Invalid { rule: 10 }));
    }
    if breaks_leaf_selections(scope)? {
        return Ok(Some(Refusal::Invalid { rule: 11 }));
    }
    if breaks_spread_possible(scope)? {
        return Ok(Some(Refusal::Invalid { rule: 12 }));
    }
    Ok(None)
}

fn directive_refusal(alloc: Global, scope: &Scope<'_>) -> Result<Option<Refusal>, Memory>
    ensures { IfOk result (λ r. r ≡ first_ground (directive_grounds scope.now.schema.now scope.now.document.now)) }
{
    if breaks_directives_defined(scope)? {
        return Ok(Some(Refusal::Invalid { rule: 13 }));
    }
    if breaks_directive_locations(scope)? {
        return Ok(Some(Refusal::Invalid { rule: 14 }));
    }
    if breaks_directives_unique(alloc, scope)? {
        return Ok(Some(Refusal::Invalid { rule: 15 }));
    }
    Ok(None)
}

fn argument_refusal(alloc: Global, scope: &Scope<'_>) -> Result<Option<Refusal>, Memory>
    ensures { IfOk result (λ r. r ≡ first_ground (argument_grounds scope.now.schema.now scope.now.document.now)) }
{
    if breaks_argument_names(scope)? {
        return Ok(Some(Refusal::Invalid { rule: 16 }));
    }
    if breaks_argument_uniqueness(alloc, scope)? {
        return Ok(Some(Refusal::Invalid { rule: 17 }));
    }
    if breaks_required_arguments(scope)? {
        return Ok(Some(Refusal::Invalid { rule: 18 }));
    }
    Ok(None)
}
