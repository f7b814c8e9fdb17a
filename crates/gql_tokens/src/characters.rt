//! Source characters, and the characters inside comments, strings and block strings.

ghost use Rattle.std.specs.Prelude.{◌≡◌, ◌≤◌, ◌∷◌, ℕ, length, take, option_map, IfSome, true};
ghost use Rattle.std.specs.List.{prefix_len};
ghost use Rattle.std.specs.Str as std_str;
ghost use Rattle.gql_tokens.specs.Characters as spec;
ghost use Rattle.gql_tokens.specs.Readings.{meant, Fits};

use std::str;

/// A character inside a comment, a string or a block string.
#[derive(Clone, Copy)]
pub(crate) enum Character<'a> {
    /// One that stands for itself.
    Source(&'a str),
    /// An escape, and how many bytes it takes.
    Escaped(char, usize),
    /// `\"""` in a block string.
    Mark,
}

pub(crate) fn begins_with(front: &[u8], text: &[u8]) -> bool
    ensures value { result ≡ spec.begins_with front.now text.now }
    ensures within { result ≡ true → length front.now ≤ length text.now }
{
    text.starts_with(front)
}

pub(crate) fn is_white_space(byte: u8) -> bool
    ensures { result ≡ spec.is_white_space byte }
{
    matches!(byte, b'\t' | b' ')
}

pub(crate) fn is_line_end(byte: u8) -> bool
    ensures { result ≡ spec.is_line_end byte }
{
    matches!(byte, b'\n' | b'\r')
}

/// Whether a line ends with this byte before this rest.
pub(crate) fn ends_line(byte: u8, rest: &[u8]) -> bool
    ensures { result ≡ spec.ends_line byte rest.now }
{
    byte == b'\n' || (byte == b'\r' && !begins_with(b"\n", rest))
}

fn is_source_byte(byte: u8) -> bool
    ensures { result ≡ spec.is_source_byte byte }
{
    matches!(byte, b'\t' | b'\n' | b'\r') || byte >= 32
}

/// Whether the byte is a character wherever characters stand, and means itself.
fn is_plain(byte: u8) -> bool
    ensures { result ≡ spec.is_plain byte }
{
    byte >= 32 && byte < 128 && byte != b'"' && byte != b'\\'
}

/// How many plain bytes stand at the front.
fn plain_len(text: &[u8]) -> usize
    ensures value { result ≡ prefix_len spec.is_plain text.now }
    ensures within { result ≤ length text.now }
{
    text.iter().take_while(|byte| is_plain(**byte)).count()
}

/// The plain bytes at the front.
pub(crate) fn plain_text(text: &[u8]) -> &str
    ensures { result.now ≡ take (prefix_len spec.is_plain text.now) text.now }
{
    match str::from_utf8(text.split_at(plain_len(text)).0) {
        Ok(plain) => plain,
        Err(_) => unreachable!(),
    }
}

fn encoded_len(byte: u8) -> usize
    ensures { result ≡ spec.encoded_len byte }
{
    match byte {
        0..=127 => 1,
        128..=223 => 2,
        224..=239 => 3,
        _ => 4,
    }
}

/// SourceCharacter: the character at the front.
pub(crate) fn source_character(text: &[u8]) -> Option<Character<'_>>
    ensures value { option_map meant result ≡ spec.source_character text.now }
    ensures within { IfSome result (λ c. Fits text.now (meant c)) }
{
    let (first, _) = text.split_first()?;
    if !is_source_byte(*first) {
        return None;
    }
    utf8_front(encoded_len(*first), text)
}

/// The first `len` bytes, if they are UTF-8.
fn utf8_front(len: usize, text: &[u8]) -> Option<Character<'_>>
    requires { 1 ≤ len }
    ensures value { option_map meant result ≡ spec.utf8_front len text.now }
    ensures within { IfSome result (λ c. Fits text.now (meant c)) }
{
    if len > text.len() {
        return None;
    }
    match str::from_utf8(text.split_at(len).0) {
        Ok(front) => Some(Character::Source(front)),
        Err(_) => None,
    }
}
