//! Types: one function for each production, with the production above it.

ghost use Rattle.std.specs.Prelude.{◌≡◌, ◌<◌, ◌≤◌, length, OnOk, IfOk, IsErrOf};
ghost use Rattle.gql_documents.specs.Parsing.{Reads, between};
ghost use Rattle.gql_documents.specs.Names as spec;
ghost use Rattle.gql_model.specs.Sorts.{mark};
ghost use Rattle.gql_model.specs.Types.{type_of, of_name, of_type};
ghost use Rattle.gql_documents.specs.declared.error.ParseError.TheVariants.{Syntax};
ghost use Rattle.gql_tokens.specs.declared.token.Kind.TheVariants as kind;

use crate::cursor::Cursor;
use crate::error::ParseError;
use gql_model::{Name, TypeNode, TypeRef};
use gql_tokens::Kind;
use sqlite_items::Boxed;
use std::alloc::Global;

// Type = (Name | "[" Type "]") "!"?
#[cycle(types)]
#[tactic(auto, using(crate::proofs::ValueLaws::type_again, crate::proofs::ValueLaws::named_type, crate::proofs::ValueLaws::list_type), unfolding(crate::specs::Names::type_over, crate::specs::Parsing::via, crate::specs::Parsing::seq, crate::specs::Parsing::either))]
pub fn type_node(alloc: Global, tokens: &mut Cursor<'_>) -> Result<TypeNode, ParseError>
    ensures reads { Reads (spec.type_node tokens.old) result tokens.new }
    ensures shorter { OnOk result (length tokens.new < length tokens.old) }
{
    if tokens.at(Kind::Name) {
        let name = tokens.name(alloc)?;
        let non_null = tokens.has_mark(Kind::Bang);
        return Ok(named(name, non_null));
    }
    let inner = bracketed(alloc, tokens)?;
    let non_null = tokens.has_mark(Kind::Bang);
    Ok(list(alloc, inner, non_null)?)
}

fn named(name: Name, non_null: bool) -> TypeNode
    ensures { result ≡ type_of (of_name name, non_null) }
{
    TypeNode {
        place: name.place,
        type_ref: TypeRef::Named {
            named: name.text,
            non_null,
        },
    }
}

fn list(alloc: Global, inner: TypeNode, non_null: bool) -> Result<TypeNode, ParseError>
    ensures ok { IfOk result (λ t. t ≡ type_of (of_type inner, non_null)) }
    ensures err { IsErrOf result Syntax → ⊥ }
{
    Ok(TypeNode {
        place: inner.place,
        type_ref: TypeRef::List {
            of: Boxed::new(alloc, inner.type_ref)?,
            non_null,
        },
    })
}

// "[" Type "]"
#[cycle(types)]
#[tactic(auto, unfolding(crate::specs::Parsing::between, crate::specs::Parsing::behind, crate::specs::Parsing::before, crate::specs::Parsing::via, crate::specs::Parsing::seq))]
fn bracketed(alloc: Global, tokens: &mut Cursor<'_>) -> Result<TypeNode, ParseError>
    ensures reads { Reads (between (mark kind.BracketOpen) (mark kind.BracketClose) spec.type_node tokens.old) result tokens.new }
    ensures shorter { OnOk result (length tokens.new < length tokens.old) }
{
    tokens.mark(Kind::BracketOpen)?;
    let inner = type_node(alloc, tokens)?;
    tokens.mark(Kind::BracketClose)?;
    Ok(inner)
}
