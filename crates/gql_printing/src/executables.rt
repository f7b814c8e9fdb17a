//! Operations and fragments: one function for each production, with the production above it.

ghost use Rattle.std.specs.Prelude.{◌≡◌, OnOk};
ghost use Rattle.gql_printing.specs.Tokens.{optional};
ghost use Rattle.gql_printing.specs.Executables as spec;
ghost use Rattle.gql_printing.specs.Progress.{written};

use crate::literals::print_literal;
use crate::print::{Print, print_grouped};
use crate::printer::Printer;
use crate::selections::{print_condition, print_directives, print_set};
use crate::types::print_type;
use gql_model::{Fragment, Literal, Name, Operation, OperationKind, VariableDefinition};
use gql_tokens::Kind;
use text_types::Memory;

pub fn kind_word(kind: OperationKind) -> &'static str
    ensures { result.now ≡ spec.kind_word kind }
{
    match kind {
        OperationKind::Query => "query",
        OperationKind::Mutation => "mutation",
        OperationKind::Subscription => "subscription",
    }
}

// VariableDefinition = "$" Name ":" Type Default? ConstDirectives
impl Print for VariableDefinition {
    ghost tokens = { Rattle.gql_printing.specs.Executables.variable_definition_tokens };

    fn print(&self, printer: &mut Printer) -> Result<(), Memory> {
        printer.punctuator(Kind::Dollar)?;
        printer.name(&self.name)?;
        printer.punctuator(Kind::Colon)?;
        print_type(&self.variable_type.type_ref, printer)?;
        print_default(&self.default, printer)?;
        print_directives(&self.directives, printer)
    }
}

// Default = "=" ConstValue
pub fn print_default(default: &Option<Literal>, printer: &mut Printer) -> Result<(), Memory>
    ensures { OnOk result (printer.new ≡ written printer.old (optional spec.default_tokens default.now)) }
{
    match default {
        Some(value) => {
            printer.punctuator(Kind::Equals)?;
            print_literal(value, printer)
        }
        None => Ok(()),
    }
}

// Operation = Set | OperationType Name? VariableDefinitions? Directives Set
pub fn print_operation(
    operation: &Operation,
    short: bool,
    printer: &mut Printer,
) -> Result<(), Memory>
    ensures { OnOk result (printer.new ≡ written printer.old (spec.operation_tokens short operation.now)) }
{
    if short && has_short_form(operation) {
        print_set(&operation.selection_set, printer)
    } else {
        print_long_form(operation, printer)
    }
}

/// Whether it is an anonymous query without variables and directives.
fn has_short_form(operation: &Operation) -> bool
    ensures { result ≡ spec.has_short_form operation.now }
{
    matches!(operation.kind, OperationKind::Query)
        && operation.name.is_none()
        && operation.variables.is_empty()
        && operation.directives.is_empty()
}

fn print_long_form(operation: &Operation, printer: &mut Printer) -> Result<(), Memory>
    ensures { OnOk result (printer.new ≡ written printer.old (spec.long_form_tokens operation.now)) }
{
    printer.keyword(kind_word(operation.kind))?;
    print_name_if_any(&operation.name, printer)?;
    print_grouped(
        operation.variables.as_slice(),
        Kind::ParenOpen,
        Kind::ParenClose,
        printer,
    )?;
    print_directives(&operation.directives, printer)?;
    print_set(&operation.selection_set, printer)
}

fn print_name_if_any(name: &Option<Name>, printer: &mut Printer) -> Result<(), Memory>
    ensures { OnOk result (printer.new ≡ written printer.old (optional spec.name_tokens name.now)) }
{
    match name {
        Some(name) => printer.name(name),
        None => Ok(()),
    }
}

// Fragment = "fragment" Name-not-on "on" Name Directives Set
pub fn print_fragment(fragment: &Fragment, printer: &mut Printer) -> Result<(), Memory>
    ensures { OnOk result (printer.new ≡ written printer.old (spec.fragment_tokens fragment.now)) }
{
    printer.keyword("fragment")?;
    printer.name(&fragment.name)?;
    print_condition(&fragment.type_condition, printer)?;
    print_directives(&fragment.directives, printer)?;
    print_set(&fragment.selection_set, printer)
}
