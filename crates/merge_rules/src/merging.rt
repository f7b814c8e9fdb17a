ghost use Rattle.std.specs.Prelude.{◌≡◌, IfOk};
ghost use Rattle.check_model.specs.Executables.{operation_is};
ghost use Rattle.check_model.specs.Fields.{operation_fields};
ghost use Rattle.check_model.specs.MergeRules.{some_conflict, breaks_field_merging};

use crate::conflicts::some_conflict;
use crate::expand::{At, expand_set};
use gql_model::{Definition, Operation};
use site_walk::{Scope, root_parent};
use std::alloc::Global;
use text_types::Memory;

/// Field Selection Merging (after GraphQL October 2021, 5.3.2): whether two fields of some operation, with all
/// spreads followed, stand under one path and can't be merged.
pub fn breaks_field_merging(alloc: Global, scope: &Scope<'_>) -> Result<bool, Memory>
    ensures { IfOk result (λ b. b ≡ breaks_field_merging scope.now.schema.now scope.now.document.now) }
{
    'definitions: for definition in scope.document.definitions.as_slice() {
        if definition_conflicts(alloc, scope, definition)? {
            return Ok(true);
        }
    }
    Ok(false)
}

fn definition_conflicts<'a>(
    alloc: Global,
    scope: &Scope<'a>,
    definition: &'a Definition,
) -> Result<bool, Memory>
    ensures { IfOk result (λ b. b ≡ operation_is (λ o. some_conflict scope.now.schema.now (operation_fields scope.now.schema.now scope.now.document.now o)) definition.now) }
{
    match definition {
        Definition::Operation(operation) => operation_conflicts(alloc, scope, operation),
        _ => Ok(false),
    }
}

fn operation_conflicts<'a>(
    alloc: Global,
    scope: &Scope<'a>,
    operation: &'a Operation,
) -> Result<bool, Memory>
    ensures { IfOk result (λ b. b ≡ some_conflict scope.now.schema.now (operation_fields scope.now.schema.now scope.now.document.now operation.now)) }
{
    let mut rows = Vec::new(alloc);
    let parent = root_parent(scope.schema, operation.kind);
    let top = At {
        above: None,
        parent,
    };
    let fuel = scope.document.definitions.len();
    expand_set(scope, &mut rows, fuel, &operation.selection_set, top)?;
    let conflict = some_conflict(alloc, scope, rows.as_slice())?;
    Ok(conflict)
}
