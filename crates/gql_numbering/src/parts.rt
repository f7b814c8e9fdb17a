ghost use Rattle.std.specs.Prelude.{◌≡◌};
ghost use Rattle.std.specs.Option.{option_copied};
ghost use Rattle.gql_numbering.specs.Parts as spec;

use gql_model::{Definition, Field, Selection, SelectionSet};

/// The selection set of a definition: an operation and a fragment have one.
pub fn set_of_definition(definition: &Definition) -> Option<&SelectionSet>
    ensures { option_copied result ≡ spec.set_of_definition definition.now }
{
    match definition {
        Definition::Operation(operation) => Some(&operation.selection_set),
        Definition::Fragment(fragment) => Some(&fragment.selection_set),
        Definition::TypeSystem(_) => None,
    }
}

/// The selection set that a selection carries.
pub fn inner_set(selection: &Selection) -> Option<&SelectionSet>
    ensures { option_copied result ≡ spec.inner_set selection.now }
{
    match selection {
        Selection::Field(field) => field.selection_set.as_ref(),
        Selection::Spread(_) => None,
        Selection::Inline(fragment) => Some(&fragment.selection_set),
    }
}

/// The field that a selection is, where it is one.
pub fn as_field(selection: &Selection) -> Option<&Field>
    ensures { option_copied result ≡ spec.as_field selection.now }
{
    match selection {
        Selection::Field(field) => Some(field),
        _ => None,
    }
}
