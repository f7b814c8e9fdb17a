//! Selection sets, arguments and directives: one function for each production, with the production
//! above it.

ghost use Rattle.std.specs.Prelude.{◌≡◌, OnOk, map, option_map};
ghost use Rattle.gql_model.specs.declared.selection.Field.{out-Field};
ghost use Rattle.gql_model.specs.declared.selection.InlineFragment.{out-InlineFragment};
ghost use Rattle.gql_printing.specs.Tokens.{joined, optional};
ghost use Rattle.gql_printing.specs.Selections as spec;
ghost use Rattle.gql_printing.specs.Progress.{written};

use crate::literals::print_literal;
use crate::print::{Print, print_all, print_grouped};
use crate::printer::Printer;
use gql_model::{
    Argument, Directive, Field, InlineFragment, Name, Selection, SelectionSet, Spread,
};
use gql_tokens::Kind;
use text_types::{Items, Memory};

// Argument = Name ":" Value
impl Print for Argument {
    ghost tokens = { Rattle.gql_printing.specs.Selections.argument_tokens };

    fn print(&self, printer: &mut Printer) -> Result<(), Memory> {
        printer.name(&self.name)?;
        printer.punctuator(Kind::Colon)?;
        print_literal(&self.value, printer)
    }
}

// Directive = "@" Name Arguments?
impl Print for Directive {
    ghost tokens = { Rattle.gql_printing.specs.Selections.directive_tokens };

    fn print(&self, printer: &mut Printer) -> Result<(), Memory> {
        printer.punctuator(Kind::At)?;
        printer.name(&self.name)?;
        print_arguments(&self.arguments, printer)
    }
}

// Arguments = "(" Argument+ ")"
fn print_arguments(arguments: &Items<Argument>, printer: &mut Printer) -> Result<(), Memory>
    ensures { OnOk result (printer.new ≡ written printer.old (spec.arguments_tokens arguments.now)) }
{
    print_grouped(
        arguments.as_slice(),
        Kind::ParenOpen,
        Kind::ParenClose,
        printer,
    )
}

// Directives = Directive*
pub fn print_directives(directives: &Items<Directive>, printer: &mut Printer) -> Result<(), Memory>
    ensures { OnOk result (printer.new ≡ written printer.old (spec.directives_tokens directives.now)) }
{
    print_all(directives.as_slice(), printer)
}

// Set = "{" Selection+ "}"
#[cycle(selections)]
pub fn print_set(set: &SelectionSet, printer: &mut Printer) -> Result<(), Memory>
    ensures { OnOk result (printer.new ≡ written printer.old (spec.set_tokens set.now)) }
{
    printer.punctuator(Kind::BraceOpen)?;
    print_selections(&set.selections, printer)?;
    printer.punctuator(Kind::BraceClose)
}

#[cycle(selections)]
fn print_selections(selections: &Items<Selection>, printer: &mut Printer) -> Result<(), Memory>
    ensures { OnOk result (printer.new ≡ written printer.old (joined (map spec.selection_tokens selections.now))) }
{
    'selections: for selection in selections.as_slice() {
        print_selection(selection, printer)?;
    }
    Ok(())
}

// Selection = Field | Spread | Inline
#[cycle(selections)]
fn print_selection(selection: &Selection, printer: &mut Printer) -> Result<(), Memory>
    ensures { OnOk result (printer.new ≡ written printer.old (spec.selection_tokens selection.now)) }
{
    match selection {
        Selection::Field(field) => print_field(field, printer),
        Selection::Spread(spread) => print_spread(spread, printer),
        Selection::Inline(fragment) => print_inline(fragment, printer),
    }
}

// Field = (Name ":")? Name Arguments? Directives Set?
#[cycle(selections)]
fn print_field(field: &Field, printer: &mut Printer) -> Result<(), Memory>
    ensures { OnOk result (printer.new ≡ written printer.old (spec.field_tokens field.now)) }
{
    print_alias(&field.alias, printer)?;
    printer.name(&field.name)?;
    print_arguments(&field.arguments, printer)?;
    print_directives(&field.directives, printer)?;
    print_inner(&field.selection_set, printer)
}

fn print_alias(alias: &Option<Name>, printer: &mut Printer) -> Result<(), Memory>
    ensures { OnOk result (printer.new ≡ written printer.old (optional spec.alias_tokens alias.now)) }
{
    match alias {
        Some(name) => {
            printer.name(name)?;
            printer.punctuator(Kind::Colon)
        }
        None => Ok(()),
    }
}

#[cycle(selections)]
fn print_inner(set: &Option<SelectionSet>, printer: &mut Printer) -> Result<(), Memory>
    ensures { OnOk result (printer.new ≡ written printer.old (spec.or_nothing (option_map spec.set_tokens set.now))) }
{
    match set {
        Some(set) => print_set(set, printer),
        None => Ok(()),
    }
}

// Spread = "..." Name-not-on Directives
fn print_spread(spread: &Spread, printer: &mut Printer) -> Result<(), Memory>
    ensures { OnOk result (printer.new ≡ written printer.old (spec.spread_tokens spread.now)) }
{
    printer.punctuator(Kind::Spread)?;
    printer.name(&spread.name)?;
    print_directives(&spread.directives, printer)
}

// Inline = "..." ("on" Name)? Directives Set
#[cycle(selections)]
fn print_inline(fragment: &InlineFragment, printer: &mut Printer) -> Result<(), Memory>
    ensures { OnOk result (printer.new ≡ written printer.old (spec.inline_tokens fragment.now)) }
{
    printer.punctuator(Kind::Spread)?;
    print_condition_if_any(&fragment.type_condition, printer)?;
    print_directives(&fragment.directives, printer)?;
    print_set(&fragment.selection_set, printer)
}

fn print_condition_if_any(condition: &Option<Name>, printer: &mut Printer) -> Result<(), Memory>
    ensures { OnOk result (printer.new ≡ written printer.old (optional spec.condition_tokens condition.now)) }
{
    match condition {
        Some(name) => print_condition(name, printer),
        None => Ok(()),
    }
}

// TypeCondition = "on" Name
pub fn print_condition(name: &Name, printer: &mut Printer) -> Result<(), Memory>
    ensures { OnOk result (printer.new ≡ written printer.old (spec.condition_tokens name.now)) }
{
    printer.keyword("on")?;
    printer.name(name)
}
