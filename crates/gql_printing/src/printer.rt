ghost use Rattle.std.specs.Prelude.{◌≡◌, OnOk};
ghost use Rattle.gql_printing.specs.Tokens as spec;
ghost use Rattle.gql_printing.specs.Progress as progress;
ghost use Rattle.gql_printing.specs.Progress.{begun, after};
ghost use Rattle.gql_spelling.specs.Spelling as spelling;

use crate::appending::{append, append_string};
use crate::punctuators::punctuator_text;
use gql_model::Name;
use gql_tokens::Kind;
use std::alloc::Global;
use std::marker::Model;
use text_types::{Bytes, Memory, Text};

/// The text so far, and whether a word stands at its end: a name, an integer or a string.
#[derive(Drop)]
pub struct Printer {
    bytes: Bytes,
    after_word: bool,
}

impl Model for Printer {
    ghost use Rattle.std.specs.Coded.{coded×, coded_list, coded_ℕ, coded_bool};
    ghost use Rattle.gql_printing.specs.Progress.{Progress};

    ghost Value = { Progress };

    ghost coded = { coded× (coded_list coded_ℕ) coded_bool };

    ghost use Rattle.std.specs.Prelude.{IsUtf8};

    ghost view = { λ p. (p.bytes, p.after_word) };

    ghost invariant = { λ p. IsUtf8 p.bytes };
}

impl Printer {
    pub fn new(alloc: Global) -> Printer
        ensures { result ≡ begun }
    {
        Printer {
            bytes: Bytes::new(alloc),
            after_word: false,
        }
    }

    /// The text of all that was written.
    pub fn into_text(self) -> Text
        ensures { result ≡ self.0 }
    {
        match String::from_utf8(self.bytes.into_vec()) {
            Ok(text) => Text::from_string(text),
            Err(_) => unreachable!(),
        }
    }

    /// Writes a token of this kind and text.
    #[tactic(auto, unfolding(crate::specs::Progress::after))]
    pub fn token(&mut self, kind: Kind, text: &str) -> Result<(), Memory>
        ensures { OnOk result (self.new ≡ after self.old (spec.token kind text.now)) }
    {
        append(space_for(self.after_word, kind), &mut self.bytes)?;
        append(text, &mut self.bytes)?;
        self.after_word = is_word(kind);
        Ok(())
    }

    /// Writes a text as a string.
    #[tactic(auto, unfolding(crate::specs::Progress::after))]
    pub fn string(&mut self, value: &Text) -> Result<(), Memory>
        ensures { OnOk result (self.new ≡ after self.old (spec.string value.now)) }
    {
        append(space_for(self.after_word, Kind::String), &mut self.bytes)?;
        append_string(value, &mut self.bytes)?;
        self.after_word = true;
        Ok(())
    }

    pub fn punctuator(&mut self, kind: Kind) -> Result<(), Memory>
        ensures { OnOk result (self.new ≡ after self.old (spec.punctuator kind)) }
    {
        self.token(kind, punctuator_text(kind))
    }

    pub fn keyword(&mut self, text: &str) -> Result<(), Memory>
        ensures { OnOk result (self.new ≡ after self.old (spec.word text.now)) }
    {
        self.token(Kind::Name, text)
    }

    pub fn word(&mut self, text: &Text) -> Result<(), Memory>
        ensures { OnOk result (self.new ≡ after self.old (spec.word text.now)) }
    {
        self.token(Kind::Name, text.as_str())
    }

    pub fn name(&mut self, name: &Name) -> Result<(), Memory>
        ensures { OnOk result (self.new ≡ after self.old (spec.word name.now.text)) }
    {
        self.word(&name.text)
    }
}

/// The space before a token of this kind, which follows a word or not.
fn space_for(after_word: bool, kind: Kind) -> &'static str
    ensures { result.now ≡ progress.space_for after_word kind }
{
    if after_word && is_word(kind) { " " } else { "" }
}

/// Whether two tokens need a space between them where both are such.
fn is_word(kind: Kind) -> bool
    ensures { result ≡ spelling.is_word kind }
{
    matches!(kind, Kind::Name | Kind::Integer | Kind::String)
}
