//! Lists of names with a mark between two of them: one function for each production, with the production
//! above it.

ghost use Rattle.std.specs.Prelude.{◌≡◌, ◌<◌, ◌≤◌, length, false, OnOk};
ghost use Rattle.gql_documents.specs.Parsing.{Reads, onto, many};
ghost use Rattle.gql_documents.specs.TypeSystems as spec;
ghost use Rattle.gql_model.specs.Sorts.{mark};
ghost use Rattle.gql_tokens.specs.Heads.{is_last};

use crate::cursor::Cursor;
use crate::error::ParseError;
use gql_model::Name;
use gql_tokens::Kind;
use std::alloc::Global;
use text_types::Items;

// a mark and a name
#[tactic(auto, unfolding(crate::specs::TypeSystems::name_behind, crate::specs::Parsing::behind, crate::specs::Parsing::via, crate::specs::Parsing::seq))]
fn name_behind(alloc: Global, tokens: &mut Cursor<'_>, kind: Kind) -> Result<Name, ParseError>
    requires { is_last kind ≡ false }
    ensures reads { Reads (spec.name_behind kind tokens.old) result tokens.new }
    ensures shorter { OnOk result (length tokens.new < length tokens.old) }
{
    tokens.mark(kind)?;
    tokens.name(alloc)
}

// (mark Name)*
fn more_names(
    alloc: Global,
    tokens: &mut Cursor<'_>,
    kind: Kind,
    mut all: Items<Name>,
) -> Result<Items<Name>, ParseError>
    requires { is_last kind ≡ false }
    ensures reads { Reads (onto all (many (mark kind) (spec.name_behind kind) tokens.old)) result tokens.new }
    ensures shorter { OnOk result (length tokens.new ≤ length tokens.old) }
{
    'turn: while tokens.at(kind) {
        let next = name_behind(alloc, tokens, kind)?;
        all.push(next)?;
    }
    Ok(all)
}

// mark? Name (mark Name)*
#[tactic(auto, unfolding(crate::specs::TypeSystems::listed_by, crate::specs::Parsing::via, crate::specs::Parsing::seq))]
pub fn listed_by(
    alloc: Global,
    tokens: &mut Cursor<'_>,
    kind: Kind,
) -> Result<Items<Name>, ParseError>
    requires { is_last kind ≡ false }
    ensures reads { Reads (spec.listed_by kind tokens.old) result tokens.new }
    ensures shorter { OnOk result (length tokens.new < length tokens.old) }
{
    tokens.has_mark(kind);
    let mut all = Items::new(alloc);
    let first = tokens.name(alloc)?;
    all.push(first)?;
    more_names(alloc, tokens, kind, all)
}
