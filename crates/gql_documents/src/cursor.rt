//! A cursor over the tokens of a text: one token is looked at, and taken or refused.

ghost use Rattle.std.specs.Prelude.{◌≡◌, ◌+◌, ◌<◌, ◌≤◌, ◌∷◌, [], List, ℕ, IsTrue, length, OnOk, OnErr, IfOk, IsErrOf, Some, None, false, true};
ghost use Rattle.gql_model.specs.Sorts.{starts, mark, word};
ghost use Rattle.gql_model.specs.Rules.{place_of};
ghost use Rattle.gql_model.specs.Names as names;
ghost use Rattle.gql_documents.specs.Parsing.{Reads, Done, first_value, tok, token, whether};
ghost use Rattle.gql_model.specs.Literals as grammar;
ghost use Rattle.gql_model.specs.Executables.{kind_of};
ghost use Rattle.gql_model.specs.TypeSystems.{string_in};
ghost use Rattle.gql_tokens.specs.Tokens.{tokens_of, string_value_of};
ghost use Rattle.gql_tokens.specs.Names.{IsName};
ghost use Rattle.gql_tokens.specs.Heads.{is_last};
ghost use Rattle.gql_tokens.specs.Cursors.{first_kind, first_text, first_place, tokens_behind_first};
ghost use Rattle.gql_documents.specs.declared.error.ParseError.TheVariants.{Syntax};
ghost use Rattle.gql_documents.specs.Names as parser;
ghost use Rattle.gql_documents.specs.Literals as values;
ghost use Rattle.gql_documents.specs.Executables as executables;
ghost use Rattle.gql_documents.specs.TypeSystems as type_systems;
ghost use Rattle.gql_documents.specs.Literals.{value_start};
ghost use Rattle.gql_documents.specs.Documents.{operation_start, first_forms, last_forms, type_system_start, definition_start, ends};
ghost use Rattle.gql_documents.specs.Selections.{selection_start};
ghost use Rattle.gql_documents.specs.TypeSystems.{described_start};

use crate::error::ParseError;
use gql_model::{LiteralValue, Name, OperationKind};
use gql_tokens::{Kind, Lexer, Place, integer_text, integer_value, name_text, string_value};
use std::alloc::Global;
use std::marker::Model;
use std::str;
use text_types::{Memory, Text};

/// The tokens that are left of a text. After a fault it stands at the token at fault.
#[derive(Drop)]
pub struct Cursor<'a> {
    lexer: Lexer<'a>,
}

impl<'a> Model for Cursor<'a> {
    ghost use Rattle.std.specs.Prelude.{List};
    ghost use Rattle.gql_tokens.specs.Tokens.{Token};

    ghost Value = { List Token };

    ghost view = { λ c. c.lexer };
}

impl<'a> Cursor<'a> {
    pub fn new(text: &'a [u8]) -> Cursor<'a>
        ensures { result ≡ tokens_of text.now }
    {
        Cursor {
            lexer: Lexer::new(text),
        }
    }

    /// Where the first token stands.
    pub fn place(&self) -> Place
        ensures { result ≡ place_of self.now }
    {
        self.lexer.place()
    }

    /// Whether the first token has this kind, which isn't that of the last.
    pub fn at(&self, kind: Kind) -> bool
        requires { is_last kind ≡ false }
        ensures { result ≡ starts (mark kind) self.now }
    {
        self.lexer.kind() as u8 == kind as u8
    }

    /// Whether the first token is this name.
    pub fn at_word(&self, text: &[u8]) -> bool
        ensures { result ≡ starts (word text.now) self.now }
    {
        self.at(Kind::Name) && self.lexer.text() == text
    }

    /// Whether the first token is a name that a fragment may have.
    pub fn at_fragment_name(&self) -> bool
        ensures { result ≡ starts names.fragment_name self.now }
    {
        self.at(Kind::Name) && !self.at_word(b"on")
    }

    /// Whether the first token is a name that an enum's value may have.
    pub fn at_enum_name(&self) -> bool
        ensures { result ≡ starts names.enum_name self.now }
    {
        self.at(Kind::Name)
            && !self.at_word(b"true")
            && !self.at_word(b"false")
            && !self.at_word(b"null")
    }

    /// Whether a value begins here.
    pub fn at_value(&self) -> bool
        ensures { result ≡ starts value_start self.now }
    {
        self.at(Kind::BracketOpen)
            || self.at(Kind::BraceOpen)
            || self.at(Kind::Dollar)
            || self.at(Kind::Integer)
            || self.at(Kind::String)
            || self.at(Kind::Name)
    }

    /// Whether a selection begins here.
    pub fn at_selection(&self) -> bool
        ensures { result ≡ starts selection_start self.now }
    {
        self.at(Kind::Spread) || self.at(Kind::Name)
    }

    /// Whether a definition with or without a description begins here.
    pub fn at_described(&self) -> bool
        ensures { result ≡ starts described_start self.now }
    {
        self.at(Kind::String) || self.at(Kind::Name)
    }

    /// Whether an operation begins here.
    pub fn at_operation(&self) -> bool
        ensures { result ≡ starts operation_start self.now }
    {
        self.at(Kind::BraceOpen)
            || self.at_word(b"query")
            || self.at_word(b"mutation")
            || self.at_word(b"subscription")
    }

    /// Whether a schema, scalar, object or interface definition begins here.
    fn at_first_form(&self) -> bool
        ensures { result ≡ starts first_forms self.now }
    {
        self.at_word(b"schema")
            || self.at_word(b"scalar")
            || self.at_word(b"type")
            || self.at_word(b"interface")
    }

    /// Whether a union, enum, input object or directive definition begins here.
    fn at_last_form(&self) -> bool
        ensures { result ≡ starts last_forms self.now }
    {
        self.at_word(b"union")
            || self.at_word(b"enum")
            || self.at_word(b"input")
            || self.at_word(b"directive")
    }

    /// Whether a type system definition begins here.
    #[tactic(auto, using(crate::proofs::StartLaws::type_system_starts))]
    fn at_type_system(&self) -> bool
        ensures { result ≡ starts type_system_start self.now }
    {
        self.at(Kind::String) || self.at_first_form() || self.at_last_form()
    }

    /// Whether a definition begins here.
    #[tactic(auto, using(crate::proofs::StartLaws::definition_starts))]
    pub fn at_definition(&self) -> bool
        ensures { result ≡ starts definition_start self.now }
    {
        self.at_word(b"fragment") || self.at_operation() || self.at_type_system()
    }

    /// Whether nothing but the end is left.
    pub fn at_end(&self) -> bool
        ensures { result ≡ ends self.now }
    {
        self.lexer.kind() as u8 == Kind::End as u8
    }

    /// Takes the first token, which has this kind.
    #[tactic(auto, unfolding(crate::specs::Parsing::tok, crate::specs::Parsing::token))]
    pub fn mark(&mut self, kind: Kind) -> Result<(), ParseError>
        requires { is_last kind ≡ false }
        ensures reads { Reads (token (mark kind) self.old) result self.new }
        ensures shorter { OnOk result (length self.new + 1 ≡ length self.old) }
    {
        if !self.at(kind) {
            return Err(ParseError::Syntax);
        }
        self.lexer.advance();
        Ok(())
    }

    /// Takes the first token, which is this name.
    #[tactic(auto, unfolding(crate::specs::Parsing::tok, crate::specs::Parsing::token))]
    pub fn word(&mut self, text: &[u8]) -> Result<(), ParseError>
        ensures reads { Reads (token (word text.now) self.old) result self.new }
        ensures shorter { OnOk result (length self.new + 1 ≡ length self.old) }
    {
        if !self.at_word(text) {
            return Err(ParseError::Syntax);
        }
        self.lexer.advance();
        Ok(())
    }

    /// Takes the first token if it has this kind, and says whether it had.
    #[tactic(auto, unfolding(crate::specs::Parsing::opt, crate::specs::Parsing::via, crate::specs::Parsing::tok, crate::specs::Parsing::token, crate::specs::Parsing::whether))]
    pub fn has_mark(&mut self, kind: Kind) -> bool
        requires { is_last kind ≡ false }
        ensures reads { whether (mark kind) self.old ≡ Done result self.new }
        ensures shorter { length self.new ≤ length self.old }
    {
        if !self.at(kind) {
            return false;
        }
        self.lexer.advance();
        true
    }

    /// Takes the first token if it is this name, and says whether it was.
    #[tactic(auto, unfolding(crate::specs::Parsing::opt, crate::specs::Parsing::via, crate::specs::Parsing::tok, crate::specs::Parsing::token, crate::specs::Parsing::whether))]
    pub fn has_word(&mut self, text: &[u8]) -> bool
        ensures reads { whether (word text.now) self.old ≡ Done result self.new }
        ensures shorter { length self.new ≤ length self.old }
    {
        if !self.at_word(text) {
            return false;
        }
        self.lexer.advance();
        true
    }

    /// The first token, which is a name.
    fn taken_name(&mut self, alloc: Global) -> Result<Name, ParseError>
        requires { starts names.any_name self.old ≡ true }
        ensures ok { IfOk result (λ n. (n ≡ record { place = first_place self.old; text = first_text self.old }) × (self.new ≡ tokens_behind_first self.old)) }
        ensures err { IsErrOf result Syntax → ⊥ }
    {
        let place = self.lexer.place();
        let text = name_text(alloc, self.lexer.text())?;
        self.lexer.advance();
        Ok(Name { place, text })
    }

    /// Takes a name.
    #[tactic(auto, unfolding(crate::specs::Parsing::tok, crate::specs::Names::name))]
    pub fn name(&mut self, alloc: Global) -> Result<Name, ParseError>
        ensures reads { Reads (parser.name self.old) result self.new }
        ensures shorter { OnOk result (length self.new + 1 ≡ length self.old) }
    {
        if !self.at(Kind::Name) {
            return Err(ParseError::Syntax);
        }
        self.taken_name(alloc)
    }

    /// Takes a name that a fragment may have.
    #[tactic(auto, unfolding(crate::specs::Parsing::tok, crate::specs::Names::fragment_named))]
    pub fn fragment_name(&mut self, alloc: Global) -> Result<Name, ParseError>
        ensures reads { Reads (parser.fragment_named self.old) result self.new }
        ensures shorter { OnOk result (length self.new + 1 ≡ length self.old) }
    {
        if !self.at_fragment_name() {
            return Err(ParseError::Syntax);
        }
        self.taken_name(alloc)
    }

    /// Takes a name that an enum's value may have.
    #[tactic(auto, unfolding(crate::specs::Parsing::tok, crate::specs::Names::enum_named))]
    pub fn enum_name(&mut self, alloc: Global) -> Result<Name, ParseError>
        ensures reads { Reads (parser.enum_named self.old) result self.new }
        ensures shorter { OnOk result (length self.new + 1 ≡ length self.old) }
    {
        if !self.at_enum_name() {
            return Err(ParseError::Syntax);
        }
        self.taken_name(alloc)
    }

    /// Takes a value of one token.
    #[tactic(auto, unfolding(crate::specs::Parsing::tok, crate::specs::Literals::plain_literal))]
    pub fn plain_literal(&mut self, alloc: Global) -> Result<LiteralValue, ParseError>
        ensures reads { Reads (values.plain_literal self.old) result self.new }
        ensures shorter { OnOk result (length self.new + 1 ≡ length self.old) }
    {
        let value = self.plain_value(alloc)?;
        self.lexer.advance();
        Ok(value)
    }

    /// The value that the first token is.
    fn plain_value(&self, alloc: Global) -> Result<LiteralValue, ParseError>
        ensures ok { IfOk result (λ v. grammar.plain_value (first_kind self.now) (first_text self.now) ≡ Some v) }
        ensures err { IsErrOf result Syntax → grammar.plain_value (first_kind self.now) (first_text self.now) ≡ None }
    {
        let text = self.lexer.text();
        match self.lexer.kind() {
            Kind::Integer => Ok(LiteralValue::Integer {
                text: integer_text(alloc, text)?,
                number: integer_value(text),
            }),
            Kind::String => Ok(LiteralValue::String(string_value(alloc, text)?)),
            Kind::Name => Ok(named_value(alloc, text)?),
            _ => Err(ParseError::Syntax),
        }
    }

    /// The kind of an operation that the first token says.
    fn kind_here(&self) -> Option<OperationKind>
        ensures { result ≡ first_value kind_of self.now }
    {
        if self.at_word(b"query") {
            return Some(OperationKind::Query);
        }
        if self.at_word(b"mutation") {
            return Some(OperationKind::Mutation);
        }
        if self.at_word(b"subscription") {
            return Some(OperationKind::Subscription);
        }
        None
    }

    /// Takes the kind of an operation.
    #[tactic(auto, unfolding(crate::specs::Parsing::tok, crate::specs::Executables::operation_kind))]
    pub fn operation_kind(&mut self) -> Result<OperationKind, ParseError>
        ensures reads { Reads (executables.operation_kind self.old) result self.new }
        ensures shorter { OnOk result (length self.new + 1 ≡ length self.old) }
    {
        match self.kind_here() {
            Some(kind) => {
                self.lexer.advance();
                Ok(kind)
            }
            None => Err(ParseError::Syntax),
        }
    }

    /// Takes a description.
    #[tactic(auto, unfolding(crate::specs::Parsing::tok, crate::specs::TypeSystems::description))]
    pub fn description(&mut self, alloc: Global) -> Result<Text, ParseError>
        ensures reads { Reads (type_systems.description self.old) result self.new }
        ensures shorter { OnOk result (length self.new + 1 ≡ length self.old) }
    {
        let text = self.string_text(alloc)?;
        self.lexer.advance();
        Ok(text)
    }

    /// What the first token means as a string.
    fn string_text(&self, alloc: Global) -> Result<Text, ParseError>
        ensures ok { IfOk result (λ t. string_in (first_kind self.now) (first_text self.now) ≡ Some t) }
        ensures err { IsErrOf result Syntax → string_in (first_kind self.now) (first_text self.now) ≡ None }
    {
        match self.lexer.kind() {
            Kind::String => Ok(string_value(alloc, self.lexer.text())?),
            _ => Err(ParseError::Syntax),
        }
    }

    /// Takes a description, if one is there.
    #[tactic(auto, unfolding(crate::specs::Parsing::opt, crate::specs::Parsing::via, crate::specs::TypeSystems::description_if_any))]
    pub fn description_if_any(&mut self, alloc: Global) -> Result<Option<Text>, ParseError>
        ensures reads { Reads (type_systems.description_if_any self.old) result self.new }
        ensures shorter { OnOk result (length self.new ≤ length self.old) }
    {
        if !self.at(Kind::String) {
            return Ok(None);
        }
        Ok(Some(self.description(alloc)?))
    }
}

/// What a name means in the place of a value.
fn named_value(alloc: Global, text: &[u8]) -> Result<LiteralValue, Memory>
    requires { IsName text.now }
    ensures { IfOk result (λ v. v ≡ grammar.named_value text.now) }
{
    if text == b"true".as_slice() {
        return Ok(LiteralValue::Boolean(true));
    }
    if text == b"false".as_slice() {
        return Ok(LiteralValue::Boolean(false));
    }
    if text == b"null".as_slice() {
        return Ok(LiteralValue::Null);
    }
    Ok(LiteralValue::Enum(name_text(alloc, text)?))
}
