//! All tokens of a text.

ghost use Rattle.std.specs.Prelude.{◌≡◌, ◌-◌, ◌+◌, ◌≤◌, length, IfOk, IfErr};
ghost use Rattle.gql_tokens.specs.Tokens.{AreTokens, AreInOrder, IsAtFault};

use crate::error::SyntaxError;
use crate::heads::{Head, first_head, is_last, next_head};
use crate::token::{Kind, Token, Tokens};
use std::alloc::Global;
use text_types::Items;

/// All tokens of a text, or the place of its first lexical fault.
pub fn lex(alloc: Global, text: &[u8]) -> Result<Tokens, SyntaxError>
    ensures tokens { IfOk result (λ spans. AreTokens text.now spans) }
    ensures order { IfOk result (λ spans. AreInOrder 0 (length text.now) spans) }
    ensures fault { IfErr result (λ e. IsAtFault text.now e) }
{
    let mut tokens = Items::new(alloc);
    let mut head = first_head(text);
    'tokens: while !is_last(head.kind) {
        tokens.push(span_of(&head, text.len()))?;
        head = next_head(&head);
    }
    match head.kind {
        Kind::End => Ok(tokens),
        _ => Err(SyntaxError::Syntax {
            row: head.place.row,
            column: head.place.column,
        }),
    }
}

/// The span of a head in a text of so many bytes.
fn span_of(head: &Head<'_>, whole: usize) -> Token
    requires inside { length head.now.rest.now ≤ whole }
    requires within { head.now.len ≤ length head.now.rest.now }
    ensures kind { result.kind ≡ head.now.kind }
    ensures start { result.start ≡ whole - length head.now.rest.now }
    ensures end { result.end ≡ result.start + head.now.len }
    ensures place { result.place ≡ head.now.place }
{
    let start = whole - head.rest.len();
    Token {
        kind: head.kind,
        start,
        end: start + head.len,
        place: head.place,
    }
}
