ghost use Rattle.std.specs.Prelude.{◌≡◌, position};
ghost use Rattle.std.specs.Option.{option_copied};
ghost use Rattle.check_model.specs.Executables.{operation_is, is_operation_of};
ghost use Rattle.fragment_rules.specs.Choices.{as_operation};
ghost use Rattle.checked_operation.specs.Choice.{is_asked, chosen_place, operation_at};

use gql_model::{Definition, Document, Operation};
use text_types::Text;

/// The place of the operation of a given name among a document's definitions, or of the first operation where
/// no name is given.
pub fn chosen_place(document: &Document, name: Option<&Text>) -> Option<usize>
    ensures { result ≡ chosen_place document.now (option_copied name.entry) }
{
    first_place(document.definitions.as_slice(), name)
}

fn first_place(definitions: &[Definition], name: Option<&Text>) -> Option<usize>
    ensures { result ≡ position (operation_is (is_asked (option_copied name.entry))) definitions.now }
{
    definitions
        .iter()
        .position(|definition| is_asked_operation(definition, name))
}

fn is_asked_operation(definition: &Definition, name: Option<&Text>) -> bool
    ensures { result ≡ operation_is (is_asked (option_copied name.entry)) definition.now }
{
    match definition {
        Definition::Operation(operation) => is_asked(operation, name),
        _ => false,
    }
}

fn is_asked(operation: &Operation, name: Option<&Text>) -> bool
    ensures { result ≡ is_asked (option_copied name.entry) operation.now }
{
    match name {
        Some(name) => has_name(operation, name),
        None => true,
    }
}

fn has_name(operation: &Operation, name: &Text) -> bool
    ensures { result ≡ is_operation_of name.now operation.now }
{
    match &operation.name {
        Some(own) => *name == own.text,
        None => false,
    }
}

/// The operation that is the definition at a place.
pub(crate) fn operation_at(document: &Document, place: usize) -> Option<&Operation>
    ensures { option_copied result ≡ operation_at document.now place }
{
    match document.definitions.get(place) {
        Some(definition) => as_operation(definition),
        None => None,
    }
}

fn as_operation(definition: &Definition) -> Option<&Operation>
    ensures { option_copied result ≡ as_operation definition.now }
{
    match definition {
        Definition::Operation(operation) => Some(operation),
        _ => None,
    }
}
