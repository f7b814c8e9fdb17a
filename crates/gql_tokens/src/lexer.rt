//! A cursor over the tokens of a text.

ghost use Rattle.std.specs.Prelude.{◌≡◌, ◌<◌, length, false};
ghost use Rattle.gql_tokens.specs.Tokens.{tokens_of};
ghost use Rattle.gql_tokens.specs.Heads.{is_last};
ghost use Rattle.gql_tokens.specs.Cursors.{first_kind, first_text, first_place, tokens_behind_first};
ghost use Rattle.gql_tokens.specs.Names.{IsName};
ghost use Rattle.gql_tokens.specs.Numbers.{IsInteger};

use crate::heads::{Head, first_head, next_head};
use crate::token::{Kind, Place};
use std::marker::Model;

/// The tokens that are left of a text, the first of which is looked at already. Contracts see it as
/// their list, which ends with the first lexical fault or the end of the text. It takes no memory.
#[derive(Drop)]
pub struct Lexer<'a> {
    head: Head<'a>,
}

impl<'a> Model for Lexer<'a> {
    ghost use Rattle.std.specs.Prelude.{List};
    ghost use Rattle.gql_tokens.specs.Tokens.{Token};
    ghost use Rattle.gql_tokens.specs.Heads.{IsHead, tokens_at};

    ghost Value = { List Token };

    ghost view = { λ l. tokens_at l.head };

    ghost invariant = { λ l. IsHead l.head };
}

impl<'a> Lexer<'a> {
    /// A cursor at the first token of a text. Takes no memory.
    pub fn new(text: &'a [u8]) -> Lexer<'a>
        ensures { result ≡ tokens_of text.now }
    {
        Lexer {
            head: first_head(text),
        }
    }

    /// The kind of the first token that is left.
    pub fn kind(&self) -> Kind
        ensures { result ≡ first_kind self.now }
    {
        self.head.kind
    }

    /// The text of the first token that is left.
    pub fn text(&self) -> &'a [u8]
        ensures value { result.now ≡ first_text self.now }
        ensures name { first_kind self.now ≡ Kind.Name → IsName result.now }
        ensures integer { first_kind self.now ≡ Kind.Integer → IsInteger result.now }
    {
        self.head.rest.split_at(self.head.len).0
    }

    /// The place of the first token that is left.
    pub fn place(&self) -> Place
        ensures { result ≡ first_place self.now }
    {
        self.head.place
    }

    /// Goes on behind the first token, which is neither a fault nor the end.
    pub fn advance(&mut self)
        requires { is_last (first_kind self.old) ≡ false }
        ensures rest { self.new ≡ tokens_behind_first self.old }
        ensures shorter { length self.new < length self.old }
    {
        self.head = next_head(&self.head);
    }
}
