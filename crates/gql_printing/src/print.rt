//! What can be printed, and lists of it.

ghost use Rattle.std.specs.Prelude.{◌≡◌, List, OnOk, map};
ghost use Rattle.gql_tokens.specs.Tokens.{Token};
ghost use Rattle.gql_printing.specs.Tokens as spec;
ghost use Rattle.gql_printing.specs.Progress.{written};

use crate::printer::Printer;
use gql_model::Name;
use gql_tokens::Kind;
use text_types::{Items, Memory};

/// What is written as tokens.
pub trait Print {
    ghost tokens: { Self → List Token };

    fn print(&self, printer: &mut Printer) -> Result<(), Memory>
        ensures { OnOk result (printer.new ≡ written printer.old (tokens self.now)) };
}

/// Prints items one after another.
pub fn print_all<T: Print>(items: &[T], printer: &mut Printer) -> Result<(), Memory>
    ensures { OnOk result (printer.new ≡ written printer.old (spec.joined (map T.tokens items.now))) }
{
    'items: for item in items {
        item.print(printer)?;
    }
    Ok(())
}

/// Prints items between two punctuators, or nothing where there are none.
pub fn print_grouped<T: Print>(
    items: &[T],
    left: Kind,
    right: Kind,
    printer: &mut Printer,
) -> Result<(), Memory>
    ensures { OnOk result (printer.new ≡ written printer.old (spec.grouped left right T.tokens items.now)) }
{
    if items.is_empty() {
        return Ok(());
    }
    printer.punctuator(left)?;
    print_all(items, printer)?;
    printer.punctuator(right)
}

/// Prints names with a punctuator between each two.
pub fn print_listed(
    names: &Items<Name>,
    separator: Kind,
    printer: &mut Printer,
) -> Result<(), Memory>
    ensures { OnOk result (printer.new ≡ written printer.old (spec.listed separator names.now)) }
{
    match names.as_slice().split_first() {
        Some((first, others)) => {
            printer.name(first)?;
            print_others(others, separator, printer)
        }
        None => Ok(()),
    }
}

fn print_others(names: &[Name], separator: Kind, printer: &mut Printer) -> Result<(), Memory>
    ensures { OnOk result (printer.new ≡ written printer.old (spec.joined (map (spec.behind separator) names.now))) }
{
    'names: for name in names {
        printer.punctuator(separator)?;
        printer.name(name)?;
    }
    Ok(())
}
