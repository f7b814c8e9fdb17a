//! Selection sets, arguments and directives: one function for each production, with the production
//! above it.

ghost use Rattle.std.specs.Prelude.{◌≡◌, ◌<◌, ◌≤◌, length, OnOk};
ghost use Rattle.gql_documents.specs.Parsing.{Reads, onto, many, opt};
ghost use Rattle.gql_documents.specs.Selections as spec;
ghost use Rattle.gql_model.specs.Sorts.{mark};
ghost use Rattle.gql_model.specs.Names.{any_name};
ghost use Rattle.gql_model.specs.Selections.{alias_in, name_in_field};
ghost use Rattle.gql_tokens.specs.declared.token.Kind.TheVariants as kind;

use crate::cursor::Cursor;
use crate::error::ParseError;
use crate::literals::value;
use gql_model::{
    Argument, Directive, Field, InlineFragment, Name, Selection, SelectionSet, Spread,
};
use gql_tokens::{Kind, Place};
use std::alloc::Global;
use text_types::Items;

// Argument = Name ":" Value
#[tactic(auto, unfolding(crate::specs::Selections::argument, crate::specs::Parsing::behind, crate::specs::Parsing::via, crate::specs::Parsing::seq))]
fn argument(alloc: Global, tokens: &mut Cursor<'_>, constant: bool) -> Result<Argument, ParseError>
    ensures reads { Reads (spec.argument constant tokens.old) result tokens.new }
    ensures shorter { OnOk result (length tokens.new < length tokens.old) }
{
    let name = tokens.name(alloc)?;
    tokens.mark(Kind::Colon)?;
    let value = value(alloc, tokens, constant)?;
    Ok(Argument { name, value })
}

// Argument*
fn more_arguments(
    alloc: Global,
    tokens: &mut Cursor<'_>,
    constant: bool,
    mut all: Items<Argument>,
) -> Result<Items<Argument>, ParseError>
    ensures reads { Reads (onto all (many any_name (spec.argument constant) tokens.old)) result tokens.new }
    ensures shorter { OnOk result (length tokens.new ≤ length tokens.old) }
{
    'turn: while tokens.at(Kind::Name) {
        let next = argument(alloc, tokens, constant)?;
        all.push(next)?;
    }
    Ok(all)
}

// Arguments = "(" Argument+ ")"
#[tactic(auto, unfolding(crate::specs::Selections::arguments, crate::specs::Parsing::between, crate::specs::Parsing::behind, crate::specs::Parsing::before, crate::specs::Parsing::more, crate::specs::Parsing::via, crate::specs::Parsing::seq))]
fn arguments(
    alloc: Global,
    tokens: &mut Cursor<'_>,
    constant: bool,
) -> Result<Items<Argument>, ParseError>
    ensures reads { Reads (spec.arguments constant tokens.old) result tokens.new }
    ensures shorter { OnOk result (length tokens.new < length tokens.old) }
{
    tokens.mark(Kind::ParenOpen)?;
    let mut all = Items::new(alloc);
    let first = argument(alloc, tokens, constant)?;
    all.push(first)?;
    let all = more_arguments(alloc, tokens, constant, all)?;
    tokens.mark(Kind::ParenClose)?;
    Ok(all)
}

// Arguments?
#[tactic(auto, unfolding(crate::specs::Selections::arguments_if_any, crate::specs::Parsing::perhaps, crate::specs::Parsing::opt, crate::specs::Parsing::via))]
fn arguments_if_any(
    alloc: Global,
    tokens: &mut Cursor<'_>,
    constant: bool,
) -> Result<Items<Argument>, ParseError>
    ensures reads { Reads (spec.arguments_if_any constant tokens.old) result tokens.new }
    ensures shorter { OnOk result (length tokens.new ≤ length tokens.old) }
{
    if !tokens.at(Kind::ParenOpen) {
        return Ok(Items::new(alloc));
    }
    arguments(alloc, tokens, constant)
}

// Directive = "@" Name Arguments?
#[tactic(auto, unfolding(crate::specs::Selections::directive, crate::specs::Parsing::here, crate::specs::Parsing::behind, crate::specs::Parsing::via, crate::specs::Parsing::seq))]
fn directive(
    alloc: Global,
    tokens: &mut Cursor<'_>,
    constant: bool,
) -> Result<Directive, ParseError>
    ensures reads { Reads (spec.directive constant tokens.old) result tokens.new }
    ensures shorter { OnOk result (length tokens.new < length tokens.old) }
{
    let place = tokens.place();
    tokens.mark(Kind::At)?;
    let name = tokens.name(alloc)?;
    let arguments = arguments_if_any(alloc, tokens, constant)?;
    Ok(Directive {
        place,
        name,
        arguments,
    })
}

// Directives = Directive*
pub fn directives(
    alloc: Global,
    tokens: &mut Cursor<'_>,
    constant: bool,
) -> Result<Items<Directive>, ParseError>
    ensures reads { Reads (spec.directives constant tokens.old) result tokens.new }
    ensures shorter { OnOk result (length tokens.new ≤ length tokens.old) }
{
    let mut all = Items::new(alloc);
    'turn: while tokens.at(Kind::At) {
        let next = directive(alloc, tokens, constant)?;
        all.push(next)?;
    }
    Ok(all)
}

// (":" Name)?
#[tactic(auto, unfolding(crate::specs::Selections::renaming, crate::specs::Parsing::behind, crate::specs::Parsing::opt, crate::specs::Parsing::via, crate::specs::Parsing::seq))]
fn renaming(alloc: Global, tokens: &mut Cursor<'_>) -> Result<Option<Name>, ParseError>
    ensures reads { Reads (spec.renaming tokens.old) result tokens.new }
    ensures shorter { OnOk result (length tokens.new ≤ length tokens.old) }
{
    if !tokens.at(Kind::Colon) {
        return Ok(None);
    }
    tokens.mark(Kind::Colon)?;
    Ok(Some(tokens.name(alloc)?))
}

// Field = (Name ":")? Name Arguments? Directives Set?
#[cycle(sets)]
#[tactic(auto, unfolding(crate::specs::Selections::field, crate::specs::Parsing::via, crate::specs::Parsing::seq))]
fn field(alloc: Global, tokens: &mut Cursor<'_>) -> Result<Field, ParseError>
    ensures reads { Reads (spec.field spec.set tokens.old) result tokens.new }
    ensures shorter { OnOk result (length tokens.new < length tokens.old) }
{
    let first = tokens.name(alloc)?;
    let second = renaming(alloc, tokens)?;
    let arguments = arguments_if_any(alloc, tokens, false)?;
    let directives = directives(alloc, tokens, false)?;
    let selection_set = set_if_any(alloc, tokens)?;
    let (alias, name) = alias_and_name(first, second);
    Ok(Field {
        alias,
        name,
        arguments,
        directives,
        selection_set,
    })
}

/// The first name is the alias where there are two.
fn alias_and_name(first: Name, second: Option<Name>) -> (Option<Name>, Name)
    ensures alias { result.0 ≡ alias_in first second }
    ensures name { result.1 ≡ name_in_field first second }
{
    match second {
        None => (None, first),
        Some(name) => (Some(first), name),
    }
}

// Set?
#[cycle(sets)]
#[tactic(auto, unfolding(crate::specs::Parsing::opt, crate::specs::Parsing::via))]
fn set_if_any(alloc: Global, tokens: &mut Cursor<'_>) -> Result<Option<SelectionSet>, ParseError>
    ensures reads { Reads (opt (mark kind.BraceOpen) spec.set tokens.old) result tokens.new }
    ensures shorter { OnOk result (length tokens.new ≤ length tokens.old) }
{
    if !tokens.at(Kind::BraceOpen) {
        return Ok(None);
    }
    Ok(Some(selection_set(alloc, tokens)?))
}

// ("on" Name)?
#[tactic(auto, unfolding(crate::specs::Selections::condition, crate::specs::Parsing::behind, crate::specs::Parsing::opt, crate::specs::Parsing::via, crate::specs::Parsing::seq))]
fn condition(alloc: Global, tokens: &mut Cursor<'_>) -> Result<Option<Name>, ParseError>
    ensures reads { Reads (spec.condition tokens.old) result tokens.new }
    ensures shorter { OnOk result (length tokens.new ≤ length tokens.old) }
{
    if !tokens.at_word(b"on") {
        return Ok(None);
    }
    tokens.word(b"on")?;
    Ok(Some(tokens.name(alloc)?))
}

// Spread = "..." Name-not-on Directives, behind its `...`
#[tactic(auto, unfolding(crate::specs::Selections::spread, crate::specs::Parsing::via, crate::specs::Parsing::seq))]
fn spread(alloc: Global, tokens: &mut Cursor<'_>, place: Place) -> Result<Selection, ParseError>
    ensures reads { Reads (spec.spread place tokens.old) result tokens.new }
    ensures shorter { OnOk result (length tokens.new < length tokens.old) }
{
    let name = tokens.fragment_name(alloc)?;
    let directives = directives(alloc, tokens, false)?;
    Ok(Selection::Spread(Spread {
        place,
        name,
        directives,
    }))
}

// Inline = "..." ("on" Name)? Directives Set, behind its `...`
#[cycle(sets)]
#[tactic(auto, unfolding(crate::specs::Selections::inline, crate::specs::Parsing::via, crate::specs::Parsing::seq))]
fn inline(alloc: Global, tokens: &mut Cursor<'_>, place: Place) -> Result<Selection, ParseError>
    ensures reads { Reads (spec.inline spec.set place tokens.old) result tokens.new }
    ensures shorter { OnOk result (length tokens.new < length tokens.old) }
{
    let type_condition = condition(alloc, tokens)?;
    let directives = directives(alloc, tokens, false)?;
    let selection_set = selection_set(alloc, tokens)?;
    Ok(Selection::Inline(InlineFragment {
        place,
        type_condition,
        directives,
        selection_set,
    }))
}

// Spread | Inline
#[cycle(sets)]
#[tactic(auto, unfolding(crate::specs::Selections::spreading, crate::specs::Parsing::here, crate::specs::Parsing::behind, crate::specs::Parsing::either, crate::specs::Parsing::via, crate::specs::Parsing::seq))]
fn spreading(alloc: Global, tokens: &mut Cursor<'_>) -> Result<Selection, ParseError>
    ensures reads { Reads (spec.spreading spec.set tokens.old) result tokens.new }
    ensures shorter { OnOk result (length tokens.new < length tokens.old) }
{
    let place = tokens.place();
    tokens.mark(Kind::Spread)?;
    if tokens.at_fragment_name() {
        Ok(spread(alloc, tokens, place)?)
    } else {
        Ok(inline(alloc, tokens, place)?)
    }
}

// Selection = Field | Spread | Inline
#[cycle(sets)]
#[tactic(auto, unfolding(crate::specs::Selections::selection, crate::specs::Parsing::either, crate::specs::Parsing::via))]
fn selection(alloc: Global, tokens: &mut Cursor<'_>) -> Result<Selection, ParseError>
    ensures reads { Reads (spec.selection spec.set tokens.old) result tokens.new }
    ensures shorter { OnOk result (length tokens.new < length tokens.old) }
{
    if tokens.at(Kind::Spread) {
        return spreading(alloc, tokens);
    }
    Ok(Selection::Field(field(alloc, tokens)?))
}

// Selection*
#[cycle(sets)]
fn more_selections(
    alloc: Global,
    tokens: &mut Cursor<'_>,
    mut all: Items<Selection>,
) -> Result<Items<Selection>, ParseError>
    ensures reads { Reads (onto all (many spec.selection_start (spec.selection spec.set) tokens.old)) result tokens.new }
    ensures shorter { OnOk result (length tokens.new ≤ length tokens.old) }
{
    'turn: while tokens.at_selection() {
        let next = selection(alloc, tokens)?;
        all.push(next)?;
    }
    Ok(all)
}

// Set = "{" Selection+ "}"
#[cycle(sets)]
#[tactic(auto, using(crate::proofs::SelectionLaws::set_again), unfolding(crate::specs::Selections::set_over, crate::specs::Parsing::here, crate::specs::Parsing::between, crate::specs::Parsing::behind, crate::specs::Parsing::before, crate::specs::Parsing::more, crate::specs::Parsing::via, crate::specs::Parsing::seq))]
pub fn selection_set(alloc: Global, tokens: &mut Cursor<'_>) -> Result<SelectionSet, ParseError>
    ensures reads { Reads (spec.set tokens.old) result tokens.new }
    ensures shorter { OnOk result (length tokens.new < length tokens.old) }
{
    let place = tokens.place();
    tokens.mark(Kind::BraceOpen)?;
    let mut all = Items::new(alloc);
    let first = selection(alloc, tokens)?;
    all.push(first)?;
    let selections = more_selections(alloc, tokens, all)?;
    tokens.mark(Kind::BraceClose)?;
    Ok(SelectionSet { place, selections })
}
