ghost use Rattle.std.specs.Prelude.{◌≡◌};
ghost use Rattle.std.specs.List.{list_any};
ghost use Rattle.gql_model.specs.declared.selection.Field.{out-Field};
ghost use Rattle.check_model.specs.Executables.{operation_is, fragment_is};
ghost use Rattle.check_model.specs.Introspection.{is_reserved, is_reserved_alias, is_introspective, introspects, introspects_in_selection, introspects_in_field, introspects_in_inline, is_introspection};

use gql_model::{Definition, Document, Field, InlineFragment, Name, Selection, SelectionSet};
use text_types::Text;

/// Whether some field's name is kept for introspection and isn't `__typename`, or some alias is so.
pub fn is_introspection(document: &Document) -> bool
    ensures { result ≡ is_introspection document.now }
{
    let definitions = document.definitions.as_slice();
    in_operations(definitions) || in_fragments(definitions)
}

fn in_operations(definitions: &[Definition]) -> bool
    ensures { result ≡ list_any (operation_is (λ o. introspects o.selection_set)) definitions.now }
{
    definitions.iter().any(|definition| match definition {
        Definition::Operation(operation) => introspects(&operation.selection_set),
        _ => false,
    })
}

fn in_fragments(definitions: &[Definition]) -> bool
    ensures { result ≡ list_any (fragment_is (λ f. introspects f.selection_set)) definitions.now }
{
    definitions.iter().any(|definition| match definition {
        Definition::Fragment(fragment) => introspects(&fragment.selection_set),
        _ => false,
    })
}

#[cycle(introspection)]
fn introspects(set: &SelectionSet) -> bool
    ensures { result ≡ introspects set.now }
{
    'selections: for selection in set.selections.as_slice() {
        if selection_introspects(selection) {
            return true;
        }
    }
    false
}

#[cycle(introspection)]
fn selection_introspects(selection: &Selection) -> bool
    ensures { result ≡ introspects_in_selection selection.now }
{
    match selection {
        Selection::Field(field) => field_introspects(field),
        Selection::Spread(_) => false,
        Selection::Inline(fragment) => inline_introspects(fragment),
    }
}

#[cycle(introspection)]
fn field_introspects(field: &Field) -> bool
    ensures { result ≡ introspects_in_field field.now }
{
    if is_introspective(&field.alias, &field.name.text) {
        return true;
    }
    match &field.selection_set {
        Some(set) => introspects(set),
        None => false,
    }
}

#[cycle(introspection)]
fn inline_introspects(fragment: &InlineFragment) -> bool
    ensures { result ≡ introspects_in_inline fragment.now }
{
    introspects(&fragment.selection_set)
}

fn is_introspective(alias: &Option<Name>, name: &Text) -> bool
    ensures { result ≡ is_introspective alias.now name.now }
{
    is_reserved_alias(alias) || (is_reserved(name.as_str()) && name.as_str() != "__typename")
}

fn is_reserved_alias(alias: &Option<Name>) -> bool
    ensures { result ≡ is_reserved_alias alias.now }
{
    match alias {
        Some(alias) => is_reserved(alias.text.as_str()),
        None => false,
    }
}

fn is_reserved(name: &str) -> bool
    ensures { result ≡ is_reserved name.now }
{
    name.starts_with("__")
}
