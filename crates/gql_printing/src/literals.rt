//! Values: one function for each production, with the production above it.

ghost use Rattle.std.specs.Prelude.{◌≡◌, OnOk, map};
ghost use Rattle.gql_printing.specs.Literals as spec;
ghost use Rattle.gql_printing.specs.Progress.{after, written};
ghost use Rattle.gql_printing.specs.Tokens.{joined, word};

use crate::printer::Printer;
use gql_model::{Literal, LiteralValue, ObjectField};
use gql_tokens::Kind;
use text_types::{Items, Memory, Text};

#[cycle(literals)]
pub fn print_literal(literal: &Literal, printer: &mut Printer) -> Result<(), Memory>
    ensures { OnOk result (printer.new ≡ written printer.old (spec.literal_tokens literal.now)) }
{
    print_value(&literal.value, printer)
}

// Value = Variable | IntValue | StringValue | BooleanValue | NullValue | EnumValue | ListValue | ObjectValue
#[cycle(literals)]
fn print_value(value: &LiteralValue, printer: &mut Printer) -> Result<(), Memory>
    ensures { OnOk result (printer.new ≡ written printer.old (spec.value_tokens value.now)) }
{
    match value {
        LiteralValue::Variable(name) => print_variable(name, printer),
        LiteralValue::Integer { text, .. } => printer.token(Kind::Integer, text.as_str()),
        LiteralValue::String(text) => printer.string(text),
        LiteralValue::Boolean(truth) => print_boolean(*truth, printer),
        LiteralValue::Null => printer.keyword("null"),
        LiteralValue::Enum(name) => printer.word(name),
        LiteralValue::List(values) => print_list(values, printer),
        LiteralValue::Object(fields) => print_object(fields, printer),
    }
}

// Variable = "$" Name
fn print_variable(name: &Text, printer: &mut Printer) -> Result<(), Memory>
    ensures { OnOk result (printer.new ≡ written printer.old (spec.variable_tokens name.now)) }
{
    printer.punctuator(Kind::Dollar)?;
    printer.word(name)
}

fn print_boolean(truth: bool, printer: &mut Printer) -> Result<(), Memory>
    ensures { OnOk result (printer.new ≡ after printer.old (word (spec.boolean_word truth))) }
{
    printer.keyword(if truth { "true" } else { "false" })
}

// ListValue = "[" Value* "]"
#[cycle(literals)]
fn print_list(values: &Items<Literal>, printer: &mut Printer) -> Result<(), Memory>
    ensures { OnOk result (printer.new ≡ written printer.old (spec.list_tokens (map spec.literal_tokens values.now))) }
{
    printer.punctuator(Kind::BracketOpen)?;
    print_values(values, printer)?;
    printer.punctuator(Kind::BracketClose)
}

#[cycle(literals)]
fn print_values(values: &Items<Literal>, printer: &mut Printer) -> Result<(), Memory>
    ensures { OnOk result (printer.new ≡ written printer.old (joined (map spec.literal_tokens values.now))) }
{
    'values: for value in values.as_slice() {
        print_literal(value, printer)?;
    }
    Ok(())
}

// ObjectValue = "{" ObjectField* "}"
#[cycle(literals)]
fn print_object(fields: &Items<ObjectField>, printer: &mut Printer) -> Result<(), Memory>
    ensures { OnOk result (printer.new ≡ written printer.old (spec.object_tokens (map spec.object_field_tokens fields.now))) }
{
    printer.punctuator(Kind::BraceOpen)?;
    print_object_fields(fields, printer)?;
    printer.punctuator(Kind::BraceClose)
}

#[cycle(literals)]
fn print_object_fields(fields: &Items<ObjectField>, printer: &mut Printer) -> Result<(), Memory>
    ensures { OnOk result (printer.new ≡ written printer.old (joined (map spec.object_field_tokens fields.now))) }
{
    'fields: for field in fields.as_slice() {
        print_object_field(field, printer)?;
    }
    Ok(())
}

// ObjectField = Name ":" Value
#[cycle(literals)]
fn print_object_field(field: &ObjectField, printer: &mut Printer) -> Result<(), Memory>
    ensures { OnOk result (printer.new ≡ written printer.old (spec.object_field_tokens field.now)) }
{
    printer.name(&field.name)?;
    printer.punctuator(Kind::Colon)?;
    print_literal(&field.value, printer)
}
