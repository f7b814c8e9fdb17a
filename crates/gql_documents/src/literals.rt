//! Values: one function for each production, with the production above it.

ghost use Rattle.std.specs.Prelude.{◌≡◌, ◌<◌, ◌≤◌, length, OnOk};
ghost use Rattle.gql_documents.specs.Parsing.{Reads, onto, many, unless};
ghost use Rattle.gql_documents.specs.Literals as spec;
ghost use Rattle.gql_model.specs.Names.{any_name};

use crate::cursor::Cursor;
use crate::error::ParseError;
use gql_model::{Literal, LiteralValue, ObjectField};
use gql_tokens::Kind;
use std::alloc::Global;
use text_types::Items;

// Value = Variable | PlainValue | ListValue | ObjectValue
#[cycle(values)]
#[tactic(auto, using(crate::proofs::ValueLaws::value_again), unfolding(crate::specs::Literals::value_over, crate::specs::Parsing::here, crate::specs::Parsing::via))]
pub fn value(alloc: Global, tokens: &mut Cursor<'_>, constant: bool) -> Result<Literal, ParseError>
    ensures reads { Reads (spec.value constant tokens.old) result tokens.new }
    ensures shorter { OnOk result (length tokens.new < length tokens.old) }
{
    let place = tokens.place();
    let value = literal_value(alloc, tokens, constant)?;
    Ok(Literal { place, value })
}

#[cycle(values)]
#[tactic(auto, unfolding(crate::specs::Literals::literal_value, crate::specs::Parsing::either))]
fn literal_value(
    alloc: Global,
    tokens: &mut Cursor<'_>,
    constant: bool,
) -> Result<LiteralValue, ParseError>
    ensures reads { Reads (spec.literal_value constant (spec.value constant) tokens.old) result tokens.new }
    ensures shorter { OnOk result (length tokens.new < length tokens.old) }
{
    if tokens.at(Kind::BracketOpen) {
        return list(alloc, tokens, constant);
    }
    if tokens.at(Kind::BraceOpen) {
        return object(alloc, tokens, constant);
    }
    if tokens.at(Kind::Dollar) {
        return variable(alloc, tokens, constant);
    }
    tokens.plain_literal(alloc)
}

// Variable = "$" Name, and none in a constant
#[tactic(auto, unfolding(crate::specs::Literals::variable, crate::specs::Parsing::unless, crate::specs::Parsing::behind, crate::specs::Parsing::via, crate::specs::Parsing::seq))]
fn variable(
    alloc: Global,
    tokens: &mut Cursor<'_>,
    constant: bool,
) -> Result<LiteralValue, ParseError>
    ensures reads { Reads (unless constant spec.variable tokens.old) result tokens.new }
    ensures shorter { OnOk result (length tokens.new < length tokens.old) }
{
    if constant {
        return Err(ParseError::Syntax);
    }
    tokens.mark(Kind::Dollar)?;
    let name = tokens.name(alloc)?;
    Ok(LiteralValue::Variable(name.text))
}

// ListValue = "[" Value* "]"
#[cycle(values)]
#[tactic(auto, unfolding(crate::specs::Literals::list, crate::specs::Parsing::between, crate::specs::Parsing::behind, crate::specs::Parsing::before, crate::specs::Parsing::via, crate::specs::Parsing::seq))]
fn list(alloc: Global, tokens: &mut Cursor<'_>, constant: bool) -> Result<LiteralValue, ParseError>
    ensures reads { Reads (spec.list (spec.value constant) tokens.old) result tokens.new }
    ensures shorter { OnOk result (length tokens.new < length tokens.old) }
{
    tokens.mark(Kind::BracketOpen)?;
    let values = values(alloc, tokens, constant)?;
    tokens.mark(Kind::BracketClose)?;
    Ok(LiteralValue::List(values))
}

// Value*
#[cycle(values)]
fn values(
    alloc: Global,
    tokens: &mut Cursor<'_>,
    constant: bool,
) -> Result<Items<Literal>, ParseError>
    ensures reads { Reads (many spec.value_start (spec.value constant) tokens.old) result tokens.new }
    ensures shorter { OnOk result (length tokens.new ≤ length tokens.old) }
{
    let mut all = Items::new(alloc);
    'turn: while tokens.at_value() {
        let next = value(alloc, tokens, constant)?;
        all.push(next)?;
    }
    Ok(all)
}

// ObjectValue = "{" ObjectField* "}"
#[cycle(values)]
#[tactic(auto, unfolding(crate::specs::Literals::object, crate::specs::Parsing::between, crate::specs::Parsing::behind, crate::specs::Parsing::before, crate::specs::Parsing::via, crate::specs::Parsing::seq))]
fn object(
    alloc: Global,
    tokens: &mut Cursor<'_>,
    constant: bool,
) -> Result<LiteralValue, ParseError>
    ensures reads { Reads (spec.object (spec.value constant) tokens.old) result tokens.new }
    ensures shorter { OnOk result (length tokens.new < length tokens.old) }
{
    tokens.mark(Kind::BraceOpen)?;
    let fields = object_fields(alloc, tokens, constant)?;
    tokens.mark(Kind::BraceClose)?;
    Ok(LiteralValue::Object(fields))
}

// ObjectField*
#[cycle(values)]
fn object_fields(
    alloc: Global,
    tokens: &mut Cursor<'_>,
    constant: bool,
) -> Result<Items<ObjectField>, ParseError>
    ensures reads { Reads (many any_name (spec.object_field (spec.value constant)) tokens.old) result tokens.new }
    ensures shorter { OnOk result (length tokens.new ≤ length tokens.old) }
{
    let mut all = Items::new(alloc);
    'turn: while tokens.at(Kind::Name) {
        let next = object_field(alloc, tokens, constant)?;
        all.push(next)?;
    }
    Ok(all)
}

// ObjectField = Name ":" Value
#[cycle(values)]
#[tactic(auto, unfolding(crate::specs::Literals::object_field, crate::specs::Parsing::behind, crate::specs::Parsing::via, crate::specs::Parsing::seq))]
fn object_field(
    alloc: Global,
    tokens: &mut Cursor<'_>,
    constant: bool,
) -> Result<ObjectField, ParseError>
    ensures reads { Reads (spec.object_field (spec.value constant) tokens.old) result tokens.new }
    ensures shorter { OnOk result (length tokens.new < length tokens.old) }
{
    let name = tokens.name(alloc)?;
    tokens.mark(Kind::Colon)?;
    let value = value(alloc, tokens, constant)?;
    Ok(ObjectField { name, value })
}
