//! Types with fields: objects, interfaces and input objects, and the arguments of fields and directives.
//! One function for each production, with the production above it.

ghost use Rattle.std.specs.Prelude.{◌≡◌, ◌<◌, ◌≤◌, length, OnOk};
ghost use Rattle.gql_documents.specs.Parsing.{Reads, onto, many};
ghost use Rattle.gql_documents.specs.TypeSystems as spec;

use crate::cursor::Cursor;
use crate::error::ParseError;
use crate::executables::default_if_any;
use crate::name_lists::listed_by;
use crate::names::type_node;
use crate::selections::directives;
use gql_model::{
    FieldDefinition, InputDefinition, InputObjectDefinition, Name, ObjectDefinition, TypeSystemForm,
};
use gql_tokens::Kind;
use std::alloc::Global;
use text_types::Items;

// InputDef = Desc? Name ":" Type Default? ConstDirectives
#[tactic(auto, unfolding(crate::specs::TypeSystems::input, crate::specs::Parsing::behind, crate::specs::Parsing::via, crate::specs::Parsing::seq))]
fn input(alloc: Global, tokens: &mut Cursor<'_>) -> Result<InputDefinition, ParseError>
    ensures reads { Reads (spec.input tokens.old) result tokens.new }
    ensures shorter { OnOk result (length tokens.new < length tokens.old) }
{
    let description = tokens.description_if_any(alloc)?;
    let name = tokens.name(alloc)?;
    tokens.mark(Kind::Colon)?;
    let input_type = type_node(alloc, tokens)?;
    let default = default_if_any(alloc, tokens)?;
    let directives = directives(alloc, tokens, true)?;
    Ok(InputDefinition {
        description,
        name,
        input_type,
        default,
        directives,
    })
}

// InputDef*
fn more_inputs(
    alloc: Global,
    tokens: &mut Cursor<'_>,
    mut all: Items<InputDefinition>,
) -> Result<Items<InputDefinition>, ParseError>
    ensures reads { Reads (onto all (many spec.described_start spec.input tokens.old)) result tokens.new }
    ensures shorter { OnOk result (length tokens.new ≤ length tokens.old) }
{
    'turn: while tokens.at_described() {
        let next = input(alloc, tokens)?;
        all.push(next)?;
    }
    Ok(all)
}

// Inputs = "(" InputDef+ ")"
#[tactic(auto, unfolding(crate::specs::TypeSystems::inputs, crate::specs::Parsing::between, crate::specs::Parsing::behind, crate::specs::Parsing::before, crate::specs::Parsing::more, crate::specs::Parsing::via, crate::specs::Parsing::seq))]
fn inputs(alloc: Global, tokens: &mut Cursor<'_>) -> Result<Items<InputDefinition>, ParseError>
    ensures reads { Reads (spec.inputs tokens.old) result tokens.new }
    ensures shorter { OnOk result (length tokens.new < length tokens.old) }
{
    tokens.mark(Kind::ParenOpen)?;
    let mut all = Items::new(alloc);
    let first = input(alloc, tokens)?;
    all.push(first)?;
    let all = more_inputs(alloc, tokens, all)?;
    tokens.mark(Kind::ParenClose)?;
    Ok(all)
}

// Inputs?
#[tactic(auto, unfolding(crate::specs::TypeSystems::inputs_if_any, crate::specs::Parsing::perhaps, crate::specs::Parsing::opt, crate::specs::Parsing::via))]
pub fn inputs_if_any(
    alloc: Global,
    tokens: &mut Cursor<'_>,
) -> Result<Items<InputDefinition>, ParseError>
    ensures reads { Reads (spec.inputs_if_any tokens.old) result tokens.new }
    ensures shorter { OnOk result (length tokens.new ≤ length tokens.old) }
{
    if !tokens.at(Kind::ParenOpen) {
        return Ok(Items::new(alloc));
    }
    inputs(alloc, tokens)
}

// Desc? Name Inputs? ":" Type ConstDirectives
#[tactic(auto, unfolding(crate::specs::TypeSystems::field_definition, crate::specs::Parsing::behind, crate::specs::Parsing::via, crate::specs::Parsing::seq))]
fn field_definition(alloc: Global, tokens: &mut Cursor<'_>) -> Result<FieldDefinition, ParseError>
    ensures reads { Reads (spec.field_definition tokens.old) result tokens.new }
    ensures shorter { OnOk result (length tokens.new < length tokens.old) }
{
    let description = tokens.description_if_any(alloc)?;
    let name = tokens.name(alloc)?;
    let arguments = inputs_if_any(alloc, tokens)?;
    tokens.mark(Kind::Colon)?;
    let field_type = type_node(alloc, tokens)?;
    let directives = directives(alloc, tokens, true)?;
    Ok(FieldDefinition {
        description,
        name,
        arguments,
        field_type,
        directives,
    })
}

// FieldDefinition*
fn more_fields(
    alloc: Global,
    tokens: &mut Cursor<'_>,
    mut all: Items<FieldDefinition>,
) -> Result<Items<FieldDefinition>, ParseError>
    ensures reads { Reads (onto all (many spec.described_start spec.field_definition tokens.old)) result tokens.new }
    ensures shorter { OnOk result (length tokens.new ≤ length tokens.old) }
{
    'turn: while tokens.at_described() {
        let next = field_definition(alloc, tokens)?;
        all.push(next)?;
    }
    Ok(all)
}

// Fields = "{" (Desc? Name Inputs? ":" Type ConstDirectives)+ "}"
#[tactic(auto, unfolding(crate::specs::TypeSystems::field_definitions, crate::specs::Parsing::between, crate::specs::Parsing::behind, crate::specs::Parsing::before, crate::specs::Parsing::more, crate::specs::Parsing::via, crate::specs::Parsing::seq))]
fn field_definitions(
    alloc: Global,
    tokens: &mut Cursor<'_>,
) -> Result<Items<FieldDefinition>, ParseError>
    ensures reads { Reads (spec.field_definitions tokens.old) result tokens.new }
    ensures shorter { OnOk result (length tokens.new < length tokens.old) }
{
    tokens.mark(Kind::BraceOpen)?;
    let mut all = Items::new(alloc);
    let first = field_definition(alloc, tokens)?;
    all.push(first)?;
    let all = more_fields(alloc, tokens, all)?;
    tokens.mark(Kind::BraceClose)?;
    Ok(all)
}

// Fields?
#[tactic(auto, unfolding(crate::specs::TypeSystems::field_definitions_if_any, crate::specs::Parsing::perhaps, crate::specs::Parsing::opt, crate::specs::Parsing::via))]
fn field_definitions_if_any(
    alloc: Global,
    tokens: &mut Cursor<'_>,
) -> Result<Items<FieldDefinition>, ParseError>
    ensures reads { Reads (spec.field_definitions_if_any tokens.old) result tokens.new }
    ensures shorter { OnOk result (length tokens.new ≤ length tokens.old) }
{
    if !tokens.at(Kind::BraceOpen) {
        return Ok(Items::new(alloc));
    }
    field_definitions(alloc, tokens)
}

// Implements = "implements" "&"? Name ("&" Name)*
#[tactic(auto, unfolding(crate::specs::TypeSystems::implements, crate::specs::Parsing::behind, crate::specs::Parsing::via, crate::specs::Parsing::seq))]
fn implements(alloc: Global, tokens: &mut Cursor<'_>) -> Result<Items<Name>, ParseError>
    ensures reads { Reads (spec.implements tokens.old) result tokens.new }
    ensures shorter { OnOk result (length tokens.new < length tokens.old) }
{
    tokens.word(b"implements")?;
    listed_by(alloc, tokens, Kind::Ampersand)
}

// Implements?
#[tactic(auto, unfolding(crate::specs::TypeSystems::implements_if_any, crate::specs::Parsing::perhaps, crate::specs::Parsing::opt, crate::specs::Parsing::via))]
fn implements_if_any(alloc: Global, tokens: &mut Cursor<'_>) -> Result<Items<Name>, ParseError>
    ensures reads { Reads (spec.implements_if_any tokens.old) result tokens.new }
    ensures shorter { OnOk result (length tokens.new ≤ length tokens.old) }
{
    if !tokens.at_word(b"implements") {
        return Ok(Items::new(alloc));
    }
    implements(alloc, tokens)
}

// Name Implements? ConstDirectives Fields?
#[tactic(auto, unfolding(crate::specs::TypeSystems::composite, crate::specs::Parsing::via, crate::specs::Parsing::seq))]
fn composite(alloc: Global, tokens: &mut Cursor<'_>) -> Result<ObjectDefinition, ParseError>
    ensures reads { Reads (spec.composite tokens.old) result tokens.new }
    ensures shorter { OnOk result (length tokens.new < length tokens.old) }
{
    let name = tokens.name(alloc)?;
    let interfaces = implements_if_any(alloc, tokens)?;
    let directives = directives(alloc, tokens, true)?;
    let fields = field_definitions_if_any(alloc, tokens)?;
    Ok(ObjectDefinition {
        name,
        interfaces,
        directives,
        fields,
    })
}

// Object = "type" Name Implements? ConstDirectives Fields?
#[tactic(auto, unfolding(crate::specs::TypeSystems::object_type, crate::specs::Parsing::behind, crate::specs::Parsing::via, crate::specs::Parsing::seq))]
pub fn object_type(alloc: Global, tokens: &mut Cursor<'_>) -> Result<TypeSystemForm, ParseError>
    ensures reads { Reads (spec.object_type tokens.old) result tokens.new }
    ensures shorter { OnOk result (length tokens.new < length tokens.old) }
{
    tokens.word(b"type")?;
    Ok(TypeSystemForm::Object(composite(alloc, tokens)?))
}

// Interface = "interface" Name Implements? ConstDirectives Fields?
#[tactic(auto, unfolding(crate::specs::TypeSystems::interface, crate::specs::Parsing::behind, crate::specs::Parsing::via, crate::specs::Parsing::seq))]
pub fn interface(alloc: Global, tokens: &mut Cursor<'_>) -> Result<TypeSystemForm, ParseError>
    ensures reads { Reads (spec.interface tokens.old) result tokens.new }
    ensures shorter { OnOk result (length tokens.new < length tokens.old) }
{
    tokens.word(b"interface")?;
    Ok(TypeSystemForm::Interface(composite(alloc, tokens)?))
}

// "{" InputDef+ "}"
#[tactic(auto, unfolding(crate::specs::TypeSystems::input_fields, crate::specs::Parsing::between, crate::specs::Parsing::behind, crate::specs::Parsing::before, crate::specs::Parsing::more, crate::specs::Parsing::via, crate::specs::Parsing::seq))]
fn input_fields(
    alloc: Global,
    tokens: &mut Cursor<'_>,
) -> Result<Items<InputDefinition>, ParseError>
    ensures reads { Reads (spec.input_fields tokens.old) result tokens.new }
    ensures shorter { OnOk result (length tokens.new < length tokens.old) }
{
    tokens.mark(Kind::BraceOpen)?;
    let mut all = Items::new(alloc);
    let first = input(alloc, tokens)?;
    all.push(first)?;
    let all = more_inputs(alloc, tokens, all)?;
    tokens.mark(Kind::BraceClose)?;
    Ok(all)
}

// ("{" InputDef+ "}")?
#[tactic(auto, unfolding(crate::specs::TypeSystems::input_fields_if_any, crate::specs::Parsing::perhaps, crate::specs::Parsing::opt, crate::specs::Parsing::via))]
fn input_fields_if_any(
    alloc: Global,
    tokens: &mut Cursor<'_>,
) -> Result<Items<InputDefinition>, ParseError>
    ensures reads { Reads (spec.input_fields_if_any tokens.old) result tokens.new }
    ensures shorter { OnOk result (length tokens.new ≤ length tokens.old) }
{
    if !tokens.at(Kind::BraceOpen) {
        return Ok(Items::new(alloc));
    }
    input_fields(alloc, tokens)
}

// Input = "input" Name ConstDirectives ("{" InputDef+ "}")?
#[tactic(auto, unfolding(crate::specs::TypeSystems::input_object, crate::specs::Parsing::behind, crate::specs::Parsing::via, crate::specs::Parsing::seq))]
pub fn input_object(alloc: Global, tokens: &mut Cursor<'_>) -> Result<TypeSystemForm, ParseError>
    ensures reads { Reads (spec.input_object tokens.old) result tokens.new }
    ensures shorter { OnOk result (length tokens.new < length tokens.old) }
{
    tokens.word(b"input")?;
    let name = tokens.name(alloc)?;
    let directives = directives(alloc, tokens, true)?;
    let fields = input_fields_if_any(alloc, tokens)?;
    Ok(TypeSystemForm::Input(InputObjectDefinition {
        name,
        directives,
        fields,
    }))
}
