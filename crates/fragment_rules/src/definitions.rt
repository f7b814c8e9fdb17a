ghost use Rattle.std.specs.Prelude.{◌≡◌, is_none};
ghost use Rattle.std.specs.List.{list_any};
ghost use Rattle.check_model.specs.Executables.{operation_is};
ghost use Rattle.check_model.specs.DocumentRules.{is_type_system, breaks_executable_definitions, breaks_lone_anonymous_operation};

use crate::operations::only;
use gql_model::{Definition, Document};

/// Executable Definitions: whether a type system definition is there.
pub fn breaks_executable_definitions(document: &Document) -> bool
    ensures { result ≡ breaks_executable_definitions document.now }
{
    document.definitions.as_slice().iter().any(|definition| matches!(
        definition,
        Definition::TypeSystem(_)
    ))
}

/// Lone Anonymous Operation: whether an anonymous operation isn't the only operation.
pub fn breaks_lone_anonymous_operation(document: &Document) -> bool
    ensures { result ≡ breaks_lone_anonymous_operation document.now }
{
    let definitions = document.definitions.as_slice();
    has_anonymous(definitions) && only(definitions).is_none()
}

fn has_anonymous(definitions: &[Definition]) -> bool
    ensures { result ≡ list_any (operation_is (λ o. is_none o.name)) definitions.now }
{
    definitions.iter().any(|definition| match definition {
        Definition::Operation(operation) => operation.name.is_none(),
        _ => false,
    })
}
