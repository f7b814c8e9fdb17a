ghost use Rattle.std.specs.Prelude.{◌≡◌};
ghost use Rattle.std.specs.List.{find, flat_map};
ghost use Rattle.std.specs.Option.{option_copied, option_and_then};
ghost use Rattle.check_model.specs.Executables.{chosen, only, operation_in, operation_is, is_operation_of};
ghost use Rattle.fragment_rules.specs.Choices.{as_operation};

use gql_model::{Definition, Document, Operation};
use text_types::Text;

/// The operation of a given name, or the only one where no name is given.
pub fn chosen<'a>(document: &'a Document, name: Option<&Text>) -> Option<&'a Operation>
    ensures { option_copied result ≡ chosen document.now (option_copied name.entry) }
{
    let definitions = document.definitions.as_slice();
    match name {
        Some(name) => named(definitions, name),
        None => only(definitions),
    }
}

/// The only operation among definitions.
pub(crate) fn only(definitions: &[Definition]) -> Option<&Operation>
    ensures { option_copied result ≡ only (flat_map operation_in definitions.now) }
{
    let mut found = None;
    'definitions: for definition in definitions {
        let Definition::Operation(operation) = definition else {
            continue;
        };
        if found.is_some() {
            return None;
        }
        found = Some(operation);
    }
    found
}

fn named<'a>(definitions: &'a [Definition], name: &Text) -> Option<&'a Operation>
    ensures { option_copied result ≡ find (is_operation_of name.now) (flat_map operation_in definitions.now) }
{
    match named_definition(definitions, name) {
        Some(definition) => as_operation(definition),
        None => None,
    }
}

fn named_definition<'a>(definitions: &'a [Definition], name: &Text) -> Option<&'a Definition>
    ensures { option_copied result ≡ find (operation_is (is_operation_of name.now)) definitions.now }
{
    definitions
        .iter()
        .find(|definition| is_operation_named(definition, name))
}

fn is_operation_named(definition: &Definition, name: &Text) -> bool
    ensures { result ≡ operation_is (is_operation_of name.now) definition.now }
{
    match definition {
        Definition::Operation(operation) => has_name(operation, name),
        _ => false,
    }
}

fn has_name(operation: &Operation, name: &Text) -> bool
    ensures { result ≡ is_operation_of name.now operation.now }
{
    match &operation.name {
        Some(own) => *name == own.text,
        None => false,
    }
}

fn as_operation(definition: &Definition) -> Option<&Operation>
    ensures { option_copied result ≡ as_operation definition.now }
{
    match definition {
        Definition::Operation(operation) => Some(operation),
        _ => None,
    }
}
