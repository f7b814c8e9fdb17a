//! Documents: the printer's entry.

ghost use Rattle.std.specs.Prelude.{◌≡◌, IfOk, OnOk, true};
ghost use Rattle.gql_printing.specs.Documents as spec;
ghost use Rattle.gql_printing.specs.Documents.{canonical_text};
ghost use Rattle.gql_printing.specs.Progress.{written};

use crate::executables::{print_fragment, print_operation};
use crate::printer::Printer;
use crate::type_systems::print_type_system;
use gql_model::{Definition, Document};
use std::alloc::Global;
use text_types::{Memory, Text};

/// The canonical text of a document.
pub fn print_document(alloc: Global, document: &Document) -> Result<Text, Memory>
    ensures { IfOk result (λ text. text ≡ canonical_text document.now) }
{
    let mut printer = Printer::new(alloc);
    print_definitions(document.definitions.as_slice(), &mut printer)?;
    Ok(printer.into_text())
}

fn print_definitions(definitions: &[Definition], printer: &mut Printer) -> Result<(), Memory>
    ensures { OnOk result (printer.new ≡ written printer.old (spec.definitions_tokens true definitions.now)) }
{
    let mut short = true;
    'definitions: for definition in definitions {
        print_definition(definition, short, printer)?;
        short = lets_short_form_follow(definition);
    }
    Ok(())
}

/// Whether a query in the short form may follow: a type system definition might go on with its `{`.
fn lets_short_form_follow(definition: &Definition) -> bool
    ensures { result ≡ spec.lets_short_form_follow definition.now }
{
    !matches!(definition, Definition::TypeSystem(_))
}

// Definition = Operation | Fragment | TypeSystem
fn print_definition(
    definition: &Definition,
    short: bool,
    printer: &mut Printer,
) -> Result<(), Memory>
    ensures { OnOk result (printer.new ≡ written printer.old (spec.definition_tokens short definition.now)) }
{
    match definition {
        Definition::Operation(operation) => print_operation(operation, short, printer),
        Definition::Fragment(fragment) => print_fragment(fragment, printer),
        Definition::TypeSystem(definition) => print_type_system(definition, printer),
    }
}
