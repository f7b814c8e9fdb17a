//! Operations and fragments: one function for each production, with the production above it.

ghost use Rattle.std.specs.Prelude.{◌≡◌, ◌<◌, ◌≤◌, length, OnOk};
ghost use Rattle.gql_documents.specs.Parsing.{Reads, onto, many};
ghost use Rattle.gql_documents.specs.Executables as spec;
ghost use Rattle.gql_model.specs.Sorts.{mark};
ghost use Rattle.gql_tokens.specs.declared.token.Kind.TheVariants as kind;

use crate::cursor::Cursor;
use crate::error::ParseError;
use crate::literals::value;
use crate::names::type_node;
use crate::selections::{directives, selection_set};
use gql_model::{Fragment, Literal, Name, Operation, OperationKind, VariableDefinition};
use gql_tokens::{Kind, Place};
use std::alloc::Global;
use text_types::Items;

// Default? where Default = "=" ConstValue
#[tactic(auto, unfolding(crate::specs::Executables::default_if_any, crate::specs::Parsing::behind, crate::specs::Parsing::opt, crate::specs::Parsing::via, crate::specs::Parsing::seq))]
pub fn default_if_any(alloc: Global, tokens: &mut Cursor<'_>) -> Result<Option<Literal>, ParseError>
    ensures reads { Reads (spec.default_if_any tokens.old) result tokens.new }
    ensures shorter { OnOk result (length tokens.new ≤ length tokens.old) }
{
    if !tokens.at(Kind::Equals) {
        return Ok(None);
    }
    tokens.mark(Kind::Equals)?;
    Ok(Some(value(alloc, tokens, true)?))
}

// VariableDefinition = "$" Name ":" Type Default? ConstDirectives
#[tactic(auto, unfolding(crate::specs::Executables::variable_definition, crate::specs::Parsing::here, crate::specs::Parsing::behind, crate::specs::Parsing::via, crate::specs::Parsing::seq))]
fn variable_definition(
    alloc: Global,
    tokens: &mut Cursor<'_>,
) -> Result<VariableDefinition, ParseError>
    ensures reads { Reads (spec.variable_definition tokens.old) result tokens.new }
    ensures shorter { OnOk result (length tokens.new < length tokens.old) }
{
    let place = tokens.place();
    tokens.mark(Kind::Dollar)?;
    let name = tokens.name(alloc)?;
    tokens.mark(Kind::Colon)?;
    let variable_type = type_node(alloc, tokens)?;
    let default = default_if_any(alloc, tokens)?;
    let directives = directives(alloc, tokens, true)?;
    Ok(VariableDefinition {
        place,
        name,
        variable_type,
        default,
        directives,
    })
}

// VariableDefinition*
fn more_variables(
    alloc: Global,
    tokens: &mut Cursor<'_>,
    mut all: Items<VariableDefinition>,
) -> Result<Items<VariableDefinition>, ParseError>
    ensures reads { Reads (onto all (many (mark kind.Dollar) spec.variable_definition tokens.old)) result tokens.new }
    ensures shorter { OnOk result (length tokens.new ≤ length tokens.old) }
{
    'turn: while tokens.at(Kind::Dollar) {
        let next = variable_definition(alloc, tokens)?;
        all.push(next)?;
    }
    Ok(all)
}

// VariableDefinitions = "(" VariableDefinition+ ")"
#[tactic(auto, unfolding(crate::specs::Executables::variables, crate::specs::Parsing::between, crate::specs::Parsing::behind, crate::specs::Parsing::before, crate::specs::Parsing::more, crate::specs::Parsing::via, crate::specs::Parsing::seq))]
fn variables(
    alloc: Global,
    tokens: &mut Cursor<'_>,
) -> Result<Items<VariableDefinition>, ParseError>
    ensures reads { Reads (spec.variables tokens.old) result tokens.new }
    ensures shorter { OnOk result (length tokens.new < length tokens.old) }
{
    tokens.mark(Kind::ParenOpen)?;
    let mut all = Items::new(alloc);
    let first = variable_definition(alloc, tokens)?;
    all.push(first)?;
    let all = more_variables(alloc, tokens, all)?;
    tokens.mark(Kind::ParenClose)?;
    Ok(all)
}

// VariableDefinitions?
#[tactic(auto, unfolding(crate::specs::Executables::variables_if_any, crate::specs::Parsing::perhaps, crate::specs::Parsing::opt, crate::specs::Parsing::via))]
fn variables_if_any(
    alloc: Global,
    tokens: &mut Cursor<'_>,
) -> Result<Items<VariableDefinition>, ParseError>
    ensures reads { Reads (spec.variables_if_any tokens.old) result tokens.new }
    ensures shorter { OnOk result (length tokens.new ≤ length tokens.old) }
{
    if !tokens.at(Kind::ParenOpen) {
        return Ok(Items::new(alloc));
    }
    variables(alloc, tokens)
}

// Name?
#[tactic(auto, unfolding(crate::specs::Executables::name_if_any, crate::specs::Parsing::opt, crate::specs::Parsing::via))]
fn name_if_any(alloc: Global, tokens: &mut Cursor<'_>) -> Result<Option<Name>, ParseError>
    ensures reads { Reads (spec.name_if_any tokens.old) result tokens.new }
    ensures shorter { OnOk result (length tokens.new ≤ length tokens.old) }
{
    if !tokens.at(Kind::Name) {
        return Ok(None);
    }
    Ok(Some(tokens.name(alloc)?))
}

// Set
#[tactic(auto, unfolding(crate::specs::Executables::short, crate::specs::Parsing::via))]
fn short(alloc: Global, tokens: &mut Cursor<'_>, place: Place) -> Result<Operation, ParseError>
    ensures reads { Reads (spec.short place tokens.old) result tokens.new }
    ensures shorter { OnOk result (length tokens.new < length tokens.old) }
{
    let selection_set = selection_set(alloc, tokens)?;
    Ok(Operation {
        place,
        kind: OperationKind::Query,
        name: None,
        variables: Items::new(alloc),
        directives: Items::new(alloc),
        selection_set,
    })
}

// OperationType Name? VariableDefinitions? Directives Set
#[tactic(auto, unfolding(crate::specs::Executables::long, crate::specs::Parsing::via, crate::specs::Parsing::seq))]
fn long(alloc: Global, tokens: &mut Cursor<'_>, place: Place) -> Result<Operation, ParseError>
    ensures reads { Reads (spec.long place tokens.old) result tokens.new }
    ensures shorter { OnOk result (length tokens.new < length tokens.old) }
{
    let kind = tokens.operation_kind()?;
    let name = name_if_any(alloc, tokens)?;
    let variables = variables_if_any(alloc, tokens)?;
    let directives = directives(alloc, tokens, false)?;
    let selection_set = selection_set(alloc, tokens)?;
    Ok(Operation {
        place,
        kind,
        name,
        variables,
        directives,
        selection_set,
    })
}

// Operation = Set | OperationType Name? VariableDefinitions? Directives Set
#[tactic(auto, unfolding(crate::specs::Executables::operation, crate::specs::Parsing::here, crate::specs::Parsing::either))]
pub fn operation(alloc: Global, tokens: &mut Cursor<'_>) -> Result<Operation, ParseError>
    ensures reads { Reads (spec.operation tokens.old) result tokens.new }
    ensures shorter { OnOk result (length tokens.new < length tokens.old) }
{
    let place = tokens.place();
    if tokens.at(Kind::BraceOpen) {
        return short(alloc, tokens, place);
    }
    long(alloc, tokens, place)
}

// Fragment = "fragment" Name-not-on "on" Name Directives Set
#[tactic(auto, unfolding(crate::specs::Executables::fragment, crate::specs::Parsing::here, crate::specs::Parsing::behind, crate::specs::Parsing::via, crate::specs::Parsing::seq))]
pub fn fragment(alloc: Global, tokens: &mut Cursor<'_>) -> Result<Fragment, ParseError>
    ensures reads { Reads (spec.fragment tokens.old) result tokens.new }
    ensures shorter { OnOk result (length tokens.new < length tokens.old) }
{
    let place = tokens.place();
    tokens.word(b"fragment")?;
    let name = tokens.fragment_name(alloc)?;
    tokens.word(b"on")?;
    let type_condition = tokens.name(alloc)?;
    let directives = directives(alloc, tokens, false)?;
    let selection_set = selection_set(alloc, tokens)?;
    Ok(Fragment {
        place,
        name,
        type_condition,
        directives,
        selection_set,
    })
}
