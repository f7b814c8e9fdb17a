//! Type system definitions: one function for each production, with the production above it.

ghost use Rattle.std.specs.Prelude.{◌≡◌, OnOk};
ghost use Rattle.gql_printing.specs.Tokens.{optional};
ghost use Rattle.gql_printing.specs.TypeSystems.{braced};
ghost use Rattle.gql_printing.specs.TypeSystems as spec;
ghost use Rattle.gql_printing.specs.Progress.{written};

use crate::executables::{kind_word, print_default};
use crate::print::{Print, print_grouped, print_listed};
use crate::printer::Printer;
use crate::selections::print_directives;
use crate::types::print_type;
use gql_model::{
    DirectiveDefinition, EnumDefinition, EnumValueDefinition, FieldDefinition, InputDefinition,
    InputObjectDefinition, Name, ObjectDefinition, RootOperation, ScalarDefinition,
    SchemaDefinition, TypeSystem, TypeSystemForm, UnionDefinition,
};
use gql_tokens::Kind;
use text_types::{Items, Memory, Text};

// Desc = StringValue
fn print_description(description: &Option<Text>, printer: &mut Printer) -> Result<(), Memory>
    ensures { OnOk result (printer.new ≡ written printer.old (optional spec.description_tokens description.now)) }
{
    match description {
        Some(text) => printer.string(text),
        None => Ok(()),
    }
}

// TypeSystem = Desc? (Schema | Scalar | Object | Interface | Union | Enum | Input | DirectiveDefinition)
pub fn print_type_system(definition: &TypeSystem, printer: &mut Printer) -> Result<(), Memory>
    ensures { OnOk result (printer.new ≡ written printer.old (spec.type_system_tokens definition.now)) }
{
    print_description(&definition.description, printer)?;
    print_form(&definition.form, printer)
}

fn print_form(form: &TypeSystemForm, printer: &mut Printer) -> Result<(), Memory>
    ensures { OnOk result (printer.new ≡ written printer.old (spec.form_tokens form.now)) }
{
    match form {
        TypeSystemForm::Schema(definition) => print_schema(definition, printer),
        TypeSystemForm::Scalar(definition) => print_scalar(definition, printer),
        TypeSystemForm::Object(definition) => print_object_type(definition, printer),
        TypeSystemForm::Interface(definition) => print_interface(definition, printer),
        TypeSystemForm::Union(definition) => print_union(definition, printer),
        TypeSystemForm::Enum(definition) => print_enum(definition, printer),
        TypeSystemForm::Input(definition) => print_input_object(definition, printer),
        TypeSystemForm::Directive(definition) => print_directive_definition(definition, printer),
    }
}

// Schema = "schema" ConstDirectives "{" (OperationType ":" Name)+ "}"
fn print_schema(definition: &SchemaDefinition, printer: &mut Printer) -> Result<(), Memory>
    ensures { OnOk result (printer.new ≡ written printer.old (spec.schema_tokens definition.now)) }
{
    printer.keyword("schema")?;
    print_directives(&definition.directives, printer)?;
    print_braced(&definition.roots, printer)
}

fn print_braced<T: Print>(items: &Items<T>, printer: &mut Printer) -> Result<(), Memory>
    ensures { OnOk result (printer.new ≡ written printer.old (braced T.tokens items.now)) }
{
    print_grouped(items.as_slice(), Kind::BraceOpen, Kind::BraceClose, printer)
}

// OperationType ":" Name
impl Print for RootOperation {
    ghost tokens = { Rattle.gql_printing.specs.TypeSystems.root_tokens };

    fn print(&self, printer: &mut Printer) -> Result<(), Memory> {
        printer.keyword(kind_word(self.kind))?;
        printer.punctuator(Kind::Colon)?;
        printer.name(&self.named)
    }
}

// Scalar = "scalar" Name ConstDirectives
fn print_scalar(definition: &ScalarDefinition, printer: &mut Printer) -> Result<(), Memory>
    ensures { OnOk result (printer.new ≡ written printer.old (spec.scalar_tokens definition.now)) }
{
    printer.keyword("scalar")?;
    printer.name(&definition.name)?;
    print_directives(&definition.directives, printer)
}

// Object = "type" Name Implements? ConstDirectives Fields?
fn print_object_type(definition: &ObjectDefinition, printer: &mut Printer) -> Result<(), Memory>
    ensures { OnOk result (printer.new ≡ written printer.old (spec.object_type_tokens definition.now)) }
{
    printer.keyword("type")?;
    print_composite(definition, printer)
}

// Interface = "interface" Name Implements? ConstDirectives Fields?
fn print_interface(definition: &ObjectDefinition, printer: &mut Printer) -> Result<(), Memory>
    ensures { OnOk result (printer.new ≡ written printer.old (spec.interface_tokens definition.now)) }
{
    printer.keyword("interface")?;
    print_composite(definition, printer)
}

// Name Implements? ConstDirectives Fields?
fn print_composite(definition: &ObjectDefinition, printer: &mut Printer) -> Result<(), Memory>
    ensures { OnOk result (printer.new ≡ written printer.old (spec.composite_tokens definition.now)) }
{
    printer.name(&definition.name)?;
    print_interfaces(&definition.interfaces, printer)?;
    print_directives(&definition.directives, printer)?;
    print_braced(&definition.fields, printer)
}

// Implements = "implements" "&"? Name ("&" Name)*
fn print_interfaces(interfaces: &Items<Name>, printer: &mut Printer) -> Result<(), Memory>
    ensures { OnOk result (printer.new ≡ written printer.old (spec.implements_tokens interfaces.now)) }
{
    if interfaces.is_empty() {
        return Ok(());
    }
    printer.keyword("implements")?;
    print_listed(interfaces, Kind::Ampersand, printer)
}

// Desc? Name Inputs? ":" Type ConstDirectives
impl Print for FieldDefinition {
    ghost tokens = { Rattle.gql_printing.specs.TypeSystems.field_definition_tokens };

    fn print(&self, printer: &mut Printer) -> Result<(), Memory> {
        print_description(&self.description, printer)?;
        printer.name(&self.name)?;
        print_inputs(&self.arguments, printer)?;
        printer.punctuator(Kind::Colon)?;
        print_type(&self.field_type.type_ref, printer)?;
        print_directives(&self.directives, printer)
    }
}

// Inputs = "(" InputDef+ ")"
fn print_inputs(inputs: &Items<InputDefinition>, printer: &mut Printer) -> Result<(), Memory>
    ensures { OnOk result (printer.new ≡ written printer.old (spec.inputs_tokens inputs.now)) }
{
    print_grouped(
        inputs.as_slice(),
        Kind::ParenOpen,
        Kind::ParenClose,
        printer,
    )
}

// InputDef = Desc? Name ":" Type Default? ConstDirectives
impl Print for InputDefinition {
    ghost tokens = { Rattle.gql_printing.specs.TypeSystems.input_tokens };

    fn print(&self, printer: &mut Printer) -> Result<(), Memory> {
        print_description(&self.description, printer)?;
        printer.name(&self.name)?;
        printer.punctuator(Kind::Colon)?;
        print_type(&self.input_type.type_ref, printer)?;
        print_default(&self.default, printer)?;
        print_directives(&self.directives, printer)
    }
}

// Union = "union" Name ConstDirectives ("=" "|"? Name ("|" Name)*)?
fn print_union(definition: &UnionDefinition, printer: &mut Printer) -> Result<(), Memory>
    ensures { OnOk result (printer.new ≡ written printer.old (spec.union_tokens definition.now)) }
{
    printer.keyword("union")?;
    printer.name(&definition.name)?;
    print_directives(&definition.directives, printer)?;
    print_members(&definition.members, printer)
}

fn print_members(members: &Items<Name>, printer: &mut Printer) -> Result<(), Memory>
    ensures { OnOk result (printer.new ≡ written printer.old (spec.members_tokens members.now)) }
{
    if members.is_empty() {
        return Ok(());
    }
    printer.punctuator(Kind::Equals)?;
    print_listed(members, Kind::Pipe, printer)
}

// Enum = "enum" Name ConstDirectives ("{" EnumValueDefinition+ "}")?
fn print_enum(definition: &EnumDefinition, printer: &mut Printer) -> Result<(), Memory>
    ensures { OnOk result (printer.new ≡ written printer.old (spec.enum_tokens definition.now)) }
{
    printer.keyword("enum")?;
    printer.name(&definition.name)?;
    print_directives(&definition.directives, printer)?;
    print_braced(&definition.values, printer)
}

// Desc? EnumValue ConstDirectives
impl Print for EnumValueDefinition {
    ghost tokens = { Rattle.gql_printing.specs.TypeSystems.enum_value_tokens };

    fn print(&self, printer: &mut Printer) -> Result<(), Memory> {
        print_description(&self.description, printer)?;
        printer.name(&self.name)?;
        print_directives(&self.directives, printer)
    }
}

// Input = "input" Name ConstDirectives ("{" InputDef+ "}")?
fn print_input_object(
    definition: &InputObjectDefinition,
    printer: &mut Printer,
) -> Result<(), Memory>
    ensures { OnOk result (printer.new ≡ written printer.old (spec.input_object_tokens definition.now)) }
{
    printer.keyword("input")?;
    printer.name(&definition.name)?;
    print_directives(&definition.directives, printer)?;
    print_braced(&definition.fields, printer)
}

// DirectiveDefinition = "directive" "@" Name Inputs? "repeatable"? "on" "|"? Name ("|" Name)*
fn print_directive_definition(
    definition: &DirectiveDefinition,
    printer: &mut Printer,
) -> Result<(), Memory>
    ensures { OnOk result (printer.new ≡ written printer.old (spec.directive_definition_tokens definition.now)) }
{
    printer.keyword("directive")?;
    printer.punctuator(Kind::At)?;
    printer.name(&definition.name)?;
    print_inputs(&definition.arguments, printer)?;
    print_repeatable(definition.repeatable, printer)?;
    printer.keyword("on")?;
    print_listed(&definition.locations, Kind::Pipe, printer)
}

fn print_repeatable(repeatable: bool, printer: &mut Printer) -> Result<(), Memory>
    ensures { OnOk result (printer.new ≡ written printer.old (spec.repeatable_tokens repeatable)) }
{
    if repeatable {
        printer.keyword("repeatable")
    } else {
        Ok(())
    }
}
