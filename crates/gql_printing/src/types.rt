ghost use Rattle.std.specs.Prelude.{◌≡◌, OnOk};
ghost use Rattle.gql_printing.specs.Types.{type_tokens, list_type_tokens, bang_tokens};
ghost use Rattle.gql_printing.specs.Progress.{written};

use crate::printer::Printer;
use gql_model::TypeRef;
use gql_tokens::Kind;
use text_types::Memory;

// Type = (Name | "[" Type "]") "!"?
#[cycle(types)]
pub fn print_type(type_ref: &TypeRef, printer: &mut Printer) -> Result<(), Memory>
    ensures { OnOk result (printer.new ≡ written printer.old (type_tokens type_ref.now)) }
{
    match type_ref {
        TypeRef::Named { named, non_null } => {
            printer.word(named)?;
            print_bang(*non_null, printer)
        }
        TypeRef::List { of, non_null } => print_list_type(of.get(), *non_null, printer),
    }
}

// ListType = "[" Type "]" "!"?
#[cycle(types)]
fn print_list_type(of: &TypeRef, non_null: bool, printer: &mut Printer) -> Result<(), Memory>
    ensures { OnOk result (printer.new ≡ written printer.old (list_type_tokens (type_tokens of.now) non_null)) }
{
    printer.punctuator(Kind::BracketOpen)?;
    print_type(of, printer)?;
    printer.punctuator(Kind::BracketClose)?;
    print_bang(non_null, printer)
}

fn print_bang(non_null: bool, printer: &mut Printer) -> Result<(), Memory>
    ensures { OnOk result (printer.new ≡ written printer.old (bang_tokens non_null)) }
{
    if non_null {
        printer.punctuator(Kind::Bang)
    } else {
        Ok(())
    }
}
