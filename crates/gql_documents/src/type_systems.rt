//! Type system definitions: one function for each production, with the production above it.

ghost use Rattle.std.specs.Prelude.{◌≡◌, ◌<◌, ◌≤◌, length, OnOk};
ghost use Rattle.gql_documents.specs.Parsing.{Reads, onto, many};
ghost use Rattle.gql_documents.specs.TypeSystems as spec;
ghost use Rattle.gql_model.specs.Names.{any_name};

use crate::cursor::Cursor;
use crate::error::ParseError;
use crate::fields::{input_object, inputs_if_any, interface, object_type};
use crate::name_lists::listed_by;
use crate::selections::directives;
use gql_model::{
    DirectiveDefinition, EnumDefinition, EnumValueDefinition, Name, RootOperation,
    ScalarDefinition, SchemaDefinition, TypeSystem, TypeSystemForm, UnionDefinition,
};
use gql_tokens::Kind;
use std::alloc::Global;
use text_types::Items;

// OperationType ":" Name
#[tactic(auto, unfolding(crate::specs::TypeSystems::root, crate::specs::Parsing::here, crate::specs::Parsing::behind, crate::specs::Parsing::via, crate::specs::Parsing::seq))]
fn root(alloc: Global, tokens: &mut Cursor<'_>) -> Result<RootOperation, ParseError>
    ensures reads { Reads (spec.root tokens.old) result tokens.new }
    ensures shorter { OnOk result (length tokens.new < length tokens.old) }
{
    let place = tokens.place();
    let kind = tokens.operation_kind()?;
    tokens.mark(Kind::Colon)?;
    let named = tokens.name(alloc)?;
    Ok(RootOperation { place, kind, named })
}

// (OperationType ":" Name)*
fn more_roots(
    alloc: Global,
    tokens: &mut Cursor<'_>,
    mut all: Items<RootOperation>,
) -> Result<Items<RootOperation>, ParseError>
    ensures reads { Reads (onto all (many any_name spec.root tokens.old)) result tokens.new }
    ensures shorter { OnOk result (length tokens.new ≤ length tokens.old) }
{
    'turn: while tokens.at(Kind::Name) {
        let next = root(alloc, tokens)?;
        all.push(next)?;
    }
    Ok(all)
}

// "{" (OperationType ":" Name)+ "}"
#[tactic(auto, unfolding(crate::specs::TypeSystems::roots, crate::specs::Parsing::between, crate::specs::Parsing::behind, crate::specs::Parsing::before, crate::specs::Parsing::more, crate::specs::Parsing::via, crate::specs::Parsing::seq))]
fn roots(alloc: Global, tokens: &mut Cursor<'_>) -> Result<Items<RootOperation>, ParseError>
    ensures reads { Reads (spec.roots tokens.old) result tokens.new }
    ensures shorter { OnOk result (length tokens.new < length tokens.old) }
{
    tokens.mark(Kind::BraceOpen)?;
    let mut all = Items::new(alloc);
    let first = root(alloc, tokens)?;
    all.push(first)?;
    let all = more_roots(alloc, tokens, all)?;
    tokens.mark(Kind::BraceClose)?;
    Ok(all)
}

// Schema = "schema" ConstDirectives "{" (OperationType ":" Name)+ "}"
#[tactic(auto, unfolding(crate::specs::TypeSystems::schema, crate::specs::Parsing::here, crate::specs::Parsing::behind, crate::specs::Parsing::via, crate::specs::Parsing::seq))]
fn schema(alloc: Global, tokens: &mut Cursor<'_>) -> Result<TypeSystemForm, ParseError>
    ensures reads { Reads (spec.schema tokens.old) result tokens.new }
    ensures shorter { OnOk result (length tokens.new < length tokens.old) }
{
    let place = tokens.place();
    tokens.word(b"schema")?;
    let directives = directives(alloc, tokens, true)?;
    let roots = roots(alloc, tokens)?;
    Ok(TypeSystemForm::Schema(SchemaDefinition {
        place,
        directives,
        roots,
    }))
}

// Scalar = "scalar" Name ConstDirectives
#[tactic(auto, unfolding(crate::specs::TypeSystems::scalar, crate::specs::Parsing::behind, crate::specs::Parsing::via, crate::specs::Parsing::seq))]
fn scalar(alloc: Global, tokens: &mut Cursor<'_>) -> Result<TypeSystemForm, ParseError>
    ensures reads { Reads (spec.scalar tokens.old) result tokens.new }
    ensures shorter { OnOk result (length tokens.new < length tokens.old) }
{
    tokens.word(b"scalar")?;
    let name = tokens.name(alloc)?;
    let directives = directives(alloc, tokens, true)?;
    Ok(TypeSystemForm::Scalar(ScalarDefinition { name, directives }))
}

// "=" "|"? Name ("|" Name)*
#[tactic(auto, unfolding(crate::specs::TypeSystems::members, crate::specs::Parsing::behind, crate::specs::Parsing::via, crate::specs::Parsing::seq))]
fn members(alloc: Global, tokens: &mut Cursor<'_>) -> Result<Items<Name>, ParseError>
    ensures reads { Reads (spec.members tokens.old) result tokens.new }
    ensures shorter { OnOk result (length tokens.new < length tokens.old) }
{
    tokens.mark(Kind::Equals)?;
    listed_by(alloc, tokens, Kind::Pipe)
}

// ("=" "|"? Name ("|" Name)*)?
#[tactic(auto, unfolding(crate::specs::TypeSystems::members_if_any, crate::specs::Parsing::perhaps, crate::specs::Parsing::opt, crate::specs::Parsing::via))]
fn members_if_any(alloc: Global, tokens: &mut Cursor<'_>) -> Result<Items<Name>, ParseError>
    ensures reads { Reads (spec.members_if_any tokens.old) result tokens.new }
    ensures shorter { OnOk result (length tokens.new ≤ length tokens.old) }
{
    if !tokens.at(Kind::Equals) {
        return Ok(Items::new(alloc));
    }
    members(alloc, tokens)
}

// Union = "union" Name ConstDirectives ("=" "|"? Name ("|" Name)*)?
#[tactic(auto, unfolding(crate::specs::TypeSystems::union, crate::specs::Parsing::behind, crate::specs::Parsing::via, crate::specs::Parsing::seq))]
fn union(alloc: Global, tokens: &mut Cursor<'_>) -> Result<TypeSystemForm, ParseError>
    ensures reads { Reads (spec.union tokens.old) result tokens.new }
    ensures shorter { OnOk result (length tokens.new < length tokens.old) }
{
    tokens.word(b"union")?;
    let name = tokens.name(alloc)?;
    let directives = directives(alloc, tokens, true)?;
    let members = members_if_any(alloc, tokens)?;
    Ok(TypeSystemForm::Union(UnionDefinition {
        name,
        directives,
        members,
    }))
}

// Desc? EnumValue ConstDirectives
#[tactic(auto, unfolding(crate::specs::TypeSystems::enum_value, crate::specs::Parsing::via, crate::specs::Parsing::seq))]
fn enum_value(alloc: Global, tokens: &mut Cursor<'_>) -> Result<EnumValueDefinition, ParseError>
    ensures reads { Reads (spec.enum_value tokens.old) result tokens.new }
    ensures shorter { OnOk result (length tokens.new < length tokens.old) }
{
    let description = tokens.description_if_any(alloc)?;
    let name = tokens.enum_name(alloc)?;
    let directives = directives(alloc, tokens, true)?;
    Ok(EnumValueDefinition {
        description,
        name,
        directives,
    })
}

// EnumValueDefinition*
fn more_enum_values(
    alloc: Global,
    tokens: &mut Cursor<'_>,
    mut all: Items<EnumValueDefinition>,
) -> Result<Items<EnumValueDefinition>, ParseError>
    ensures reads { Reads (onto all (many spec.described_start spec.enum_value tokens.old)) result tokens.new }
    ensures shorter { OnOk result (length tokens.new ≤ length tokens.old) }
{
    'turn: while tokens.at_described() {
        let next = enum_value(alloc, tokens)?;
        all.push(next)?;
    }
    Ok(all)
}

// "{" EnumValueDefinition+ "}"
#[tactic(auto, unfolding(crate::specs::TypeSystems::enum_values, crate::specs::Parsing::between, crate::specs::Parsing::behind, crate::specs::Parsing::before, crate::specs::Parsing::more, crate::specs::Parsing::via, crate::specs::Parsing::seq))]
fn enum_values(
    alloc: Global,
    tokens: &mut Cursor<'_>,
) -> Result<Items<EnumValueDefinition>, ParseError>
    ensures reads { Reads (spec.enum_values tokens.old) result tokens.new }
    ensures shorter { OnOk result (length tokens.new < length tokens.old) }
{
    tokens.mark(Kind::BraceOpen)?;
    let mut all = Items::new(alloc);
    let first = enum_value(alloc, tokens)?;
    all.push(first)?;
    let all = more_enum_values(alloc, tokens, all)?;
    tokens.mark(Kind::BraceClose)?;
    Ok(all)
}

// ("{" EnumValueDefinition+ "}")?
#[tactic(auto, unfolding(crate::specs::TypeSystems::enum_values_if_any, crate::specs::Parsing::perhaps, crate::specs::Parsing::opt, crate::specs::Parsing::via))]
fn enum_values_if_any(
    alloc: Global,
    tokens: &mut Cursor<'_>,
) -> Result<Items<EnumValueDefinition>, ParseError>
    ensures reads { Reads (spec.enum_values_if_any tokens.old) result tokens.new }
    ensures shorter { OnOk result (length tokens.new ≤ length tokens.old) }
{
    if !tokens.at(Kind::BraceOpen) {
        return Ok(Items::new(alloc));
    }
    enum_values(alloc, tokens)
}

// Enum = "enum" Name ConstDirectives ("{" EnumValueDefinition+ "}")?
#[tactic(auto, unfolding(crate::specs::TypeSystems::enumeration, crate::specs::Parsing::behind, crate::specs::Parsing::via, crate::specs::Parsing::seq))]
fn enumeration(alloc: Global, tokens: &mut Cursor<'_>) -> Result<TypeSystemForm, ParseError>
    ensures reads { Reads (spec.enumeration tokens.old) result tokens.new }
    ensures shorter { OnOk result (length tokens.new < length tokens.old) }
{
    tokens.word(b"enum")?;
    let name = tokens.name(alloc)?;
    let directives = directives(alloc, tokens, true)?;
    let values = enum_values_if_any(alloc, tokens)?;
    Ok(TypeSystemForm::Enum(EnumDefinition {
        name,
        directives,
        values,
    }))
}

// "on" "|"? Name ("|" Name)*
#[tactic(auto, unfolding(crate::specs::TypeSystems::locations, crate::specs::Parsing::behind, crate::specs::Parsing::via, crate::specs::Parsing::seq))]
fn locations(alloc: Global, tokens: &mut Cursor<'_>) -> Result<Items<Name>, ParseError>
    ensures reads { Reads (spec.locations tokens.old) result tokens.new }
    ensures shorter { OnOk result (length tokens.new < length tokens.old) }
{
    tokens.word(b"on")?;
    listed_by(alloc, tokens, Kind::Pipe)
}

// DirectiveDefinition = "directive" "@" Name Inputs? "repeatable"? "on" "|"? Name ("|" Name)*
#[tactic(auto, unfolding(crate::specs::TypeSystems::directive_definition, crate::specs::Parsing::behind, crate::specs::Parsing::via, crate::specs::Parsing::seq))]
fn directive_definition(
    alloc: Global,
    tokens: &mut Cursor<'_>,
) -> Result<TypeSystemForm, ParseError>
    ensures reads { Reads (spec.directive_definition tokens.old) result tokens.new }
    ensures shorter { OnOk result (length tokens.new < length tokens.old) }
{
    tokens.word(b"directive")?;
    tokens.mark(Kind::At)?;
    let name = tokens.name(alloc)?;
    let arguments = inputs_if_any(alloc, tokens)?;
    let repeatable = tokens.has_word(b"repeatable");
    let locations = locations(alloc, tokens)?;
    Ok(TypeSystemForm::Directive(DirectiveDefinition {
        name,
        arguments,
        repeatable,
        locations,
    }))
}

// Union | Enum | Input | DirectiveDefinition
#[tactic(auto, unfolding(crate::specs::TypeSystems::form_from_union, crate::specs::Parsing::either))]
fn form_from_union(alloc: Global, tokens: &mut Cursor<'_>) -> Result<TypeSystemForm, ParseError>
    ensures reads { Reads (spec.form_from_union tokens.old) result tokens.new }
    ensures shorter { OnOk result (length tokens.new < length tokens.old) }
{
    if tokens.at_word(b"union") {
        return union(alloc, tokens);
    }
    if tokens.at_word(b"enum") {
        return enumeration(alloc, tokens);
    }
    if tokens.at_word(b"input") {
        return input_object(alloc, tokens);
    }
    directive_definition(alloc, tokens)
}

// Schema | Scalar | Object | Interface | Union | Enum | Input | DirectiveDefinition
#[tactic(auto, unfolding(crate::specs::TypeSystems::form, crate::specs::Parsing::either))]
fn form(alloc: Global, tokens: &mut Cursor<'_>) -> Result<TypeSystemForm, ParseError>
    ensures reads { Reads (spec.form tokens.old) result tokens.new }
    ensures shorter { OnOk result (length tokens.new < length tokens.old) }
{
    if tokens.at_word(b"schema") {
        return schema(alloc, tokens);
    }
    if tokens.at_word(b"scalar") {
        return scalar(alloc, tokens);
    }
    if tokens.at_word(b"type") {
        return object_type(alloc, tokens);
    }
    if tokens.at_word(b"interface") {
        return interface(alloc, tokens);
    }
    form_from_union(alloc, tokens)
}

// TypeSystem = Desc? (Schema | Scalar | Object | Interface | Union | Enum | Input | DirectiveDefinition)
#[tactic(auto, unfolding(crate::specs::TypeSystems::type_system, crate::specs::Parsing::here, crate::specs::Parsing::via, crate::specs::Parsing::seq))]
pub fn type_system(alloc: Global, tokens: &mut Cursor<'_>) -> Result<TypeSystem, ParseError>
    ensures reads { Reads (spec.type_system tokens.old) result tokens.new }
    ensures shorter { OnOk result (length tokens.new < length tokens.old) }
{
    let place = tokens.place();
    let description = tokens.description_if_any(alloc)?;
    let form = form(alloc, tokens)?;
    Ok(TypeSystem {
        place,
        description,
        form,
    })
}
