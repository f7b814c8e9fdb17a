//! The characters of a comment, a string or a block string, one after another.

ghost use Rattle.std.specs.Prelude.{◌≡◌, ◌≤◌, length, option_map, ◌++◌, IfSome, IfOk, OnOk, string_bytes};
ghost use Rattle.gql_tokens.specs.Runs as spec;
ghost use Rattle.gql_tokens.specs.Lexemes as lexemes;
ghost use Rattle.gql_tokens.specs.Readings.{meant, rule_of, Fits};

use crate::blocks::block_character;
use crate::characters::{Character, is_line_end, plain_text, source_character};
use crate::strings::string_character;
use std::alloc::Global;
use text_types::Memory;

/// What characters stand in.
#[derive(Clone, Copy)]
pub(crate) enum Context {
    Comment,
    String,
    Block,
}

/// CommentChar: the character at the front.
fn comment_character(text: &[u8]) -> Option<Character<'_>>
    ensures value { option_map meant result ≡ lexemes.comment_character text.now }
    ensures within { IfSome result (λ c. Fits text.now (meant c)) }
{
    let (first, _) = text.split_first()?;
    if is_line_end(*first) {
        return None;
    }
    source_character(text)
}

fn character(context: Context, text: &[u8]) -> Option<Character<'_>>
    ensures value { option_map meant result ≡ rule_of context text.now }
    ensures within { IfSome result (λ c. Fits text.now (meant c)) }
{
    match context {
        Context::Comment => comment_character(text),
        Context::String => string_character(text),
        Context::Block => block_character(text),
    }
}

/// The plain bytes at the front together, or else the one character there.
#[tactic(auto, using(crate::proofs::RunLaws::one_begins))]
fn stretch(context: Context, text: &[u8]) -> Option<Character<'_>>
    ensures value { spec.Begins (rule_of context) text.now (option_map meant result) }
    ensures within { IfSome result (λ c. Fits text.now (meant c)) }
{
    let plain = plain_text(text);
    if plain.is_empty() {
        character(context, text)
    } else {
        Some(Character::Source(plain))
    }
}

fn len_of(character: Character<'_>) -> usize
    ensures { result ≡ (meant character.entry).1 }
{
    match character {
        Character::Source(source) => source.len(),
        Character::Escaped(_, len) => len,
        Character::Mark => 4,
    }
}

/// How many bytes at the front are characters of this context.
pub(crate) fn run_len(context: Context, text: &[u8]) -> usize
    ensures value { result ≡ (spec.run (rule_of context) text.now).1 }
    ensures within { result ≤ length text.now }
{
    let mut len = 0;
    let mut rest = text;
    'characters: while let Some(next) = stretch(context, rest) {
        let taken = len_of(next);
        len += taken;
        rest = rest.split_at(taken).1;
    }
    len
}

/// What the characters of this context at the front mean together.
pub(crate) fn run_value(alloc: Global, context: Context, text: &[u8]) -> Result<String, Memory>
    ensures { IfOk result (λ s. string_bytes s ≡ (spec.run (rule_of context) text.now).0) }
{
    let mut value = String::new(alloc);
    let mut rest = text;
    'characters: while let Some(next) = stretch(context, rest) {
        push_character(next, &mut value)?;
        rest = rest.split_at(len_of(next)).1;
    }
    Ok(value)
}

fn push_character(character: Character<'_>, value: &mut String) -> Result<(), Memory>
    ensures { OnOk result (string_bytes value.new ≡ string_bytes value.old ++ (meant character.entry).0) }
{
    match character {
        Character::Source(source) => value.push_str(source)?,
        Character::Escaped(character, _) => value.push(character)?,
        Character::Mark => value.push_str("\"\"\"")?,
    }
    Ok(())
}
