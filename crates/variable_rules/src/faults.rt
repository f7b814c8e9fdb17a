ghost use Rattle.std.specs.Prelude.{◌≡◌, IfOk, OnOk, not, false, cond, [], get_or};
ghost use Rattle.std.specs.List.{fold, flat_map, list_any, items_where_true};
ghost use Rattle.std.specs.FinSet as set;
ghost use Rattle.gql_model.specs.Documents.{of_operation};
ghost use Rattle.check_model.specs.Spreads.{spread_graph};
ghost use Rattle.check_model.specs.Sites.{definition_sites};
ghost use Rattle.check_model.specs.Usages.{followed_usages};
ghost use Rattle.check_model.specs.VariableRules.{breaks_variable_uses_defined, breaks_variables_used, breaks_variable_usages_allowed};
ghost use Rattle.variable_rules.specs.Faults.{faults_of, faults_at, none, either};
ghost use Rattle.variable_rules.specs.Uses.{noted, note_site};

use crate::names::UsedNames;
use crate::uses::Uses;
use digraph::Digraph;
use gql_model::{Definition, Operation, VariableDefinition};
use site_walk::Scope;
use std::alloc::Global;
use text_types::Memory;

/// Which of the rules on the uses of variables are broken.
#[derive(Clone, Copy, Debug, PartialEq, Eq)]
pub struct UseFaults {
    /// All Variable Uses Defined (GraphQL October 2021, 5.8.3): an operation uses a name that it doesn't
    /// declare.
    pub undeclared: bool,
    /// All Variables Used (5.8.4): a declared variable is used nowhere in the operation.
    pub unused: bool,
    /// All Variable Usages Are Allowed (5.8.5): a variable stands where one of its type may not.
    pub disallowed: bool,
}

impl UseFaults {
    fn none() -> UseFaults
        ensures { result ≡ none }
    {
        UseFaults {
            undeclared: false,
            unused: false,
            disallowed: false,
        }
    }

    fn either(self, other: UseFaults) -> UseFaults
        ensures { result ≡ either self other }
    {
        UseFaults {
            undeclared: self.undeclared || other.undeclared,
            unused: self.unused || other.unused,
            disallowed: self.disallowed || other.disallowed,
        }
    }
}

/// Which of the rules on the uses of variables the operations of the document break, spreads followed, by
/// the graph of spreads.
pub fn use_faults(alloc: Global, scope: &Scope<'_>, graph: &Digraph) -> Result<UseFaults, Memory>
    requires { graph.now ≡ spread_graph scope.now.document.now }
    ensures undeclared { IfOk result (λ f. f.undeclared ≡ breaks_variable_uses_defined scope.now.schema.now scope.now.document.now) }
    ensures unused { IfOk result (λ f. f.unused ≡ breaks_variables_used scope.now.schema.now scope.now.document.now) }
    ensures disallowed { IfOk result (λ f. f.disallowed ≡ breaks_variable_usages_allowed scope.now.schema.now scope.now.document.now) }
{
    document_faults(alloc, scope, graph)
}

fn document_faults(alloc: Global, scope: &Scope<'_>, graph: &Digraph) -> Result<UseFaults, Memory>
    requires { graph.now ≡ spread_graph scope.now.document.now }
    ensures { IfOk result (λ f. f ≡ faults_of scope.now.schema.now scope.now.document.now) }
{
    let mut faults = UseFaults::none();
    let definitions = scope.document.definitions.as_slice();
    'definitions: for (place, definition) in definitions.iter().enumerate() {
        faults = faults.either(definition_faults(alloc, scope, graph, place, definition)?);
    }
    Ok(faults)
}

fn definition_faults(
    alloc: Global,
    scope: &Scope<'_>,
    graph: &Digraph,
    place: usize,
    definition: &Definition,
) -> Result<UseFaults, Memory>
    requires { graph.now ≡ spread_graph scope.now.document.now }
    ensures { IfOk result (λ f. f ≡ faults_at scope.now.schema.now scope.now.document.now (place, definition.now)) }
{
    match definition {
        Definition::Operation(operation) => {
            operation_faults(alloc, scope, graph, place, definition, operation)
        }
        _ => Ok(UseFaults::none()),
    }
}

fn operation_faults(
    alloc: Global,
    scope: &Scope<'_>,
    graph: &Digraph,
    place: usize,
    definition: &Definition,
    operation: &Operation,
) -> Result<UseFaults, Memory>
    requires graph { graph.now ≡ spread_graph scope.now.document.now }
    requires operation { definition.now ≡ of_operation operation.now }
    ensures { IfOk result (λ f. f ≡ faults_at scope.now.schema.now scope.now.document.now (place, of_operation operation.now)) }
{
    let mut uses = Uses::new(alloc, scope.schema, operation)?;
    follow(alloc, scope, graph, place, definition, &mut uses)?;
    Ok(UseFaults {
        undeclared: uses.undeclared,
        unused: some_unused(&uses.used, operation.variables.as_slice()),
        disallowed: uses.disallowed,
    })
}

fn some_unused(used: &UsedNames, variables: &[VariableDefinition]) -> bool
    ensures { result ≡ list_any (λ v. not (set.contains used.now v.name.text)) variables.now }
{
    variables
        .iter()
        .any(|variable| !used.has(&variable.name.text))
}

/// Notes the uses of variables in a definition and in each fragment that it reaches.
fn follow(
    alloc: Global,
    scope: &Scope<'_>,
    graph: &Digraph,
    place: usize,
    definition: &Definition,
    uses: &mut Uses<'_>,
) -> Result<(), Memory>
    requires graph { graph.now ≡ spread_graph scope.now.document.now }
    requires schema { uses.old.schema.now ≡ scope.now.schema.now }
    ensures { OnOk result (uses.new ≡ fold noted uses.old (followed_usages scope.now.schema.now scope.now.document.now (place, definition.now))) }
{
    scope.visit_definition(uses, definition)?;
    let marks = graph.reached(alloc, place)?;
    let definitions = scope.document.definitions.as_slice();
    let reached = marks.as_slice();
    visit_marked(scope, definitions, reached, uses)?;
    Ok(())
}

fn visit_marked(
    scope: &Scope<'_>,
    definitions: &[Definition],
    marks: &[bool],
    uses: &mut Uses<'_>,
) -> Result<(), Memory>
    ensures { OnOk result (uses.new ≡ fold note_site uses.old (flat_map (definition_sites scope.now.schema.now scope.now.document.now) (items_where_true marks.now definitions.now))) }
{
    'definitions: for (place, definition) in definitions.iter().enumerate() {
        visit_if(scope, is_marked(marks, place), definition, uses)?;
    }
    Ok(())
}

fn is_marked(marks: &[bool], place: usize) -> bool
    ensures { result ≡ get_or marks.now place false }
{
    match marks.get(place) {
        Some(mark) => *mark,
        None => false,
    }
}

fn visit_if(
    scope: &Scope<'_>,
    marked: bool,
    definition: &Definition,
    uses: &mut Uses<'_>,
) -> Result<(), Memory>
    ensures { OnOk result (uses.new ≡ fold note_site uses.old (cond marked (definition_sites scope.now.schema.now scope.now.document.now definition.now) [])) }
{
    if marked {
        scope.visit_definition(uses, definition)
    } else {
        Ok(())
    }
}
