//! The lexical grammar: what stands at the front of a text (GraphQL October 2021, 2.1.5 to 2.1.8).

ghost use Rattle.std.specs.Prelude.{◌≡◌, ◌<◌, ◌≤◌, ◌+◌, ◌∷◌, length, drop, IfSome, option_map};
ghost use Rattle.gql_tokens.specs.Characters as characters;
ghost use Rattle.gql_tokens.specs.Lexemes as spec;
ghost use Rattle.gql_tokens.specs.Lexemes.{of_kind};
ghost use Rattle.gql_tokens.specs.Strings as strings;
ghost use Rattle.gql_tokens.specs.Blocks as blocks;

use crate::characters::{begins_with, is_line_end, is_white_space};
use crate::names::{is_digit, is_name_start, name_len};
use crate::numbers::integer_len;
use crate::runs::{Context, run_len};
use crate::token::Kind;

/// How many bytes at the front are ignored together, or 0.
pub(crate) fn ignored_len(text: &[u8]) -> usize
    ensures value { result ≡ spec.ignored_len text.now }
    ensures within { result ≤ length text.now }
{
    let Some((first, rest)) = text.split_first() else {
        return 0;
    };
    if is_white_space(*first) || *first == b',' {
        1
    } else if is_line_end(*first) {
        line_end_len(*first, rest)
    } else if *first == b'#' {
        1 + run_len(Context::Comment, rest)
    } else if begins_with(b"\xEF\xBB\xBF", text) {
        3
    } else {
        0
    }
}

/// LineTerminator: how many bytes this byte and what follows it take as one line end.
fn line_end_len(byte: u8, rest: &[u8]) -> usize
    ensures value { result ≡ characters.line_end_len byte rest.now }
    ensures within { result ≤ length rest.now + 1 }
{
    if byte == b'\r' && begins_with(b"\n", rest) {
        2
    } else {
        1
    }
}

/// Token: its kind and its length, where one begins at the front.
pub(crate) fn token_at(text: &[u8]) -> Option<(Kind, usize)>
    ensures value { result ≡ spec.token_at text.now }
    ensures within { IfSome result (λ t. (0 < t.1) × (t.1 ≤ length text.now)) }
{
    let (first, _) = text.split_first()?;
    if is_name_start(*first) {
        return Some((Kind::Name, name_len(text)));
    }
    if is_digit(*first) || *first == b'-' {
        return integer_token(text);
    }
    if *first == b'"' {
        return string_token(text);
    }
    punctuator_token(*first, text)
}

fn integer_token(text: &[u8]) -> Option<(Kind, usize)>
    ensures value { result ≡ spec.integer_token text.now }
    ensures within { IfSome result (λ t. (0 < t.1) × (t.1 ≤ length text.now)) }
{
    let len = integer_len(text)?;
    Some((Kind::Integer, len))
}

/// A string at the front of a text that begins with `"`.
fn string_token(text: &[u8]) -> Option<(Kind, usize)>
    requires { 0 < length text.now }
    ensures value { result ≡ spec.string_token text.now }
    ensures within { IfSome result (λ t. (0 < t.1) × (t.1 ≤ length text.now)) }
{
    let len = if begins_with(b"\"\"\"", text) {
        block_len(text.split_at(3).1)?
    } else {
        string_len(text.split_at(1).1)?
    };
    Some((Kind::String, len))
}

/// How long the string with this rest behind its opening `"` is, if it is closed.
fn string_len(inner: &[u8]) -> Option<usize>
    ensures value { result ≡ strings.string_len inner.now }
    ensures within { IfSome result (λ n. (0 < n) × (n ≤ length inner.now + 1)) }
{
    let characters = run_len(Context::String, inner);
    if begins_with(b"\"", inner.split_at(characters).1) {
        Some(characters + 2)
    } else {
        None
    }
}

/// How long the block string with this rest behind its opening mark is, if it is closed.
fn block_len(inner: &[u8]) -> Option<usize>
    ensures value { result ≡ blocks.block_len inner.now }
    ensures within { IfSome result (λ n. (0 < n) × (n ≤ length inner.now + 3)) }
{
    let characters = run_len(Context::Block, inner);
    if begins_with(b"\"\"\"", inner.split_at(characters).1) {
        Some(characters + 6)
    } else {
        None
    }
}

/// `...` or a punctuator of one character, at the front of a text that begins with this byte.
fn punctuator_token(first: u8, text: &[u8]) -> Option<(Kind, usize)>
    requires { 0 < length text.now }
    ensures value { result ≡ spec.punctuator_token first text.now }
    ensures within { IfSome result (λ t. (0 < t.1) × (t.1 ≤ length text.now)) }
{
    if begins_with(b"...", text) {
        return Some((Kind::Spread, 3));
    }
    let kind = punctuator(first)?;
    Some((kind, 1))
}

fn punctuator(byte: u8) -> Option<Kind>
    ensures { result ≡ spec.punctuator byte }
{
    match byte {
        b'!' => Some(Kind::Bang),
        b'$' => Some(Kind::Dollar),
        b'&' => Some(Kind::Ampersand),
        b'(' => Some(Kind::ParenOpen),
        b')' => Some(Kind::ParenClose),
        b':' => Some(Kind::Colon),
        b'=' => Some(Kind::Equals),
        b'@' => Some(Kind::At),
        b'[' => Some(Kind::BracketOpen),
        b']' => Some(Kind::BracketClose),
        b'{' => Some(Kind::BraceOpen),
        b'|' => Some(Kind::Pipe),
        b'}' => Some(Kind::BraceClose),
        _ => None,
    }
}
