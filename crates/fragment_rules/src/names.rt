ghost use Rattle.std.specs.Prelude.{◌≡◌, ◌++◌, IfOk, List, map};
ghost use Rattle.std.specs.List.{filter_map};
ghost use Rattle.std.specs.Option.{option_copied, option_to_list};
ghost use Rattle.schema_rules.specs.Lines.{Mark};
ghost use Rattle.schema_defaults.specs.Seen.{Saw};
ghost use Rattle.check_model.specs.Repeated.{at_no_line};
ghost use Rattle.check_model.specs.DocumentRules.{operation_name, breaks_operation_name_uniqueness, breaks_fragment_name_uniqueness};
ghost use Rattle.fragment_rules.specs.Names.{name_of};

use gql_model::{Definition, Document, Operation};
use schema_defaults::Seen;
use std::alloc::Global;
use text_types::{Memory, Text};

/// Which definitions' names are told apart.
#[derive(Clone, Copy)]
enum Kind {
    Operation,
    Fragment,
}

/// Operation Name Uniqueness: whether two operations have one name.
pub fn breaks_operation_name_uniqueness(alloc: Global, document: &Document) -> Result<bool, Memory>
    ensures { IfOk result (λ b. b ≡ breaks_operation_name_uniqueness document.now) }
{
    let names = names(alloc, Kind::Operation, document.definitions.as_slice())?;
    Ok(names.repeated_line().is_some())
}

/// Fragment Name Uniqueness: whether two fragments have one name.
pub fn breaks_fragment_name_uniqueness(alloc: Global, document: &Document) -> Result<bool, Memory>
    ensures { IfOk result (λ b. b ≡ breaks_fragment_name_uniqueness document.now) }
{
    let names = names(alloc, Kind::Fragment, document.definitions.as_slice())?;
    Ok(names.repeated_line().is_some())
}

fn names(alloc: Global, kind: Kind, definitions: &[Definition]) -> Result<Seen, Memory>
    ensures { IfOk result (λ seen. Saw seen (map at_no_line (filter_map (name_of kind) definitions.now))) }
{
    let mut seen = Seen::new(alloc);
    'definitions: for definition in definitions {
        seen = note(seen, name_of(kind, definition))?;
    }
    Ok(seen)
}

fn note(seen: Seen, name: Option<&Text>) -> Result<Seen, Memory>
    ensures { (marks : List Mark) → Saw seen marks → IfOk result (λ more. Saw more (marks ++ map at_no_line (option_to_list (option_copied name.entry)))) }
{
    match name {
        Some(name) => seen.note(name, 0),
        None => Ok(seen),
    }
}

fn name_of(kind: Kind, definition: &Definition) -> Option<&Text>
    ensures { option_copied result ≡ name_of kind definition.now }
{
    match (kind, definition) {
        (Kind::Operation, Definition::Operation(operation)) => operation_name(operation),
        (Kind::Fragment, Definition::Fragment(fragment)) => Some(&fragment.name.text),
        _ => None,
    }
}

fn operation_name(operation: &Operation) -> Option<&Text>
    ensures { option_copied result ≡ operation_name operation.now }
{
    match &operation.name {
        Some(name) => Some(&name.text),
        None => None,
    }
}
