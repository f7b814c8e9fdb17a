ghost use Rattle.std.specs.Prelude.{◌≡◌, ◌++◌, IfOk};
ghost use Rattle.check_model.specs.Spreads.{spread_graph};
ghost use Rattle.check_model.specs.VariableRules.{breaks_variable_uses_defined, breaks_variables_used, breaks_variable_usages_allowed};
ghost use Rattle.check_model.specs.Judgement.{first_ground, variable_grounds, value_grounds};

use check_model::Refusal;
use digraph::Digraph;
use fragment_rules::{FragmentIndex, spread_graph};
use gql_model::Document;
use site_walk::Scope;
use std::alloc::Global;
use text_types::Memory;
use value_rules::{breaks_input_field_uniqueness, breaks_values_of_correct_type};
use variable_rules::{
    UseFaults, breaks_variable_uniqueness, breaks_variables_are_input_types, use_faults,
};

/// The first of the rules on variables and values that a document breaks under a schema.
pub fn value_refusal(alloc: Global, scope: &Scope<'_>) -> Result<Option<Refusal>, Memory>
    ensures { IfOk result (λ r. r ≡ first_ground (variable_grounds scope.now.schema.now scope.now.document.now ++ value_grounds scope.now.schema.now scope.now.document.now)) }
{
    let graph = graph_of(alloc, scope.document)?;
    let faults = use_faults(alloc, scope, &graph)?;
    if let Some(refusal) = in_variables(alloc, scope, faults)? {
        return Ok(Some(refusal));
    }
    in_values(alloc, scope, faults)
}

fn graph_of(alloc: Global, document: &Document) -> Result<Digraph, Memory>
    ensures { IfOk result (λ graph. graph ≡ spread_graph document.now) }
{
    let index = FragmentIndex::of(alloc, document)?;
    let graph = spread_graph(alloc, &index, document)?;
    Ok(graph)
}

fn in_variables(
    alloc: Global,
    scope: &Scope<'_>,
    faults: UseFaults,
) -> Result<Option<Refusal>, Memory>
    requires undeclared { faults.undeclared ≡ breaks_variable_uses_defined scope.now.schema.now scope.now.document.now }
    requires unused { faults.unused ≡ breaks_variables_used scope.now.schema.now scope.now.document.now }
    ensures { IfOk result (λ r. r ≡ first_ground (variable_grounds scope.now.schema.now scope.now.document.now)) }
{
    if breaks_variable_uniqueness(alloc, scope.document)? {
        return Ok(Some(Refusal::Invalid { rule: 19 }));
    }
    if breaks_variables_are_input_types(scope.schema, scope.document) {
        return Ok(Some(Refusal::Invalid { rule: 20 }));
    }
    if faults.undeclared {
        return Ok(Some(Refusal::Invalid { rule: 21 }));
    }
    if faults.unused {
        return Ok(Some(Refusal::Invalid { rule: 22 }));
    }
    Ok(None)
}

fn in_values(alloc: Global, scope: &Scope<'_>, faults: UseFaults) -> Result<Option<Refusal>, Memory>
    requires { faults.disallowed ≡ breaks_variable_usages_allowed scope.now.schema.now scope.now.document.now }
    ensures { IfOk result (λ r. r ≡ first_ground (value_grounds scope.now.schema.now scope.now.document.now)) }
{
    if breaks_values_of_correct_type(alloc, scope)? {
        return Ok(Some(Refusal::Invalid { rule: 23 }));
    }
    if breaks_input_field_uniqueness(alloc, scope)? {
        return Ok(Some(Refusal::Invalid { rule: 24 }));
    }
    if faults.disallowed {
        return Ok(Some(Refusal::Invalid { rule: 25 }));
    }
    Ok(None)
}
