//! Characters inside strings (GraphQL October 2021, 2.9.4).

ghost use Rattle.std.specs.Prelude.{◌≡◌, ◌<◌, ◌≤◌, ◌^◌, length, drop, option_map, IfSome, true};
ghost use Rattle.gql_tokens.specs.Strings as spec;
ghost use Rattle.gql_tokens.specs.Readings.{meant, Fits};

use crate::characters::{Character, begins_with, is_line_end, source_character};

/// StringCharacter: the character at the front.
pub(crate) fn string_character(text: &[u8]) -> Option<Character<'_>>
    ensures value { option_map meant result ≡ spec.string_character text.now }
    ensures within { IfSome result (λ c. Fits text.now (meant c)) }
{
    let (first, _) = text.split_first()?;
    if *first == b'\\' {
        return escape(text);
    }
    if *first == b'"' || is_line_end(*first) {
        return None;
    }
    source_character(text)
}

/// An escape at the front, where a backslash stands there.
fn escape(text: &[u8]) -> Option<Character<'_>>
    requires { 0 < length text.now }
    ensures value { option_map meant result ≡ spec.escape text.now }
    ensures within { IfSome result (λ c. Fits text.now (meant c)) }
{
    if begins_with(b"\\u", text) {
        unicode_escape(text)
    } else {
        short_escape(text.split_at(1).1)
    }
}

/// What stands behind the backslash of a short escape.
fn short_escape(behind: &[u8]) -> Option<Character<'_>>
    ensures value { option_map meant result ≡ spec.short_escape behind.now }
    ensures within { IfSome result (λ c. ((meant c).1 ≡ 2) × (0 < length behind.now)) }
{
    let (first, _) = behind.split_first()?;
    let character = escaped_character(*first)?;
    Some(Character::Escaped(character, 2))
}

/// What a backslash before this byte means.
fn escaped_character(byte: u8) -> Option<char>
    ensures value { result ≡ spec.escaped_character byte }
    ensures ascii { IfSome result (λ c. c < 128) }
{
    match byte {
        b'"' | b'\\' | b'/' => Some(byte as char),
        b'b' => Some('\u{8}'),
        b'f' => Some('\u{C}'),
        b'n' => Some('\n'),
        b'r' => Some('\r'),
        b't' => Some('\t'),
        _ => None,
    }
}

/// An escape by a code unit, or by the two of a surrogate pair.
fn unicode_escape(text: &[u8]) -> Option<Character<'_>>
    ensures value { option_map meant result
        ≡ spec.unicode_escape (spec.code_unit text.now) (spec.code_unit (drop 6 text.now)) }
    ensures within { IfSome result (λ c. Fits text.now (meant c)) }
{
    let unit = code_unit(text)?;
    if is_leading_surrogate(unit) {
        return pair_with(unit, text.split_at(6).1);
    }
    if is_trailing_surrogate(unit) {
        return None;
    }
    let character = char::from_u32(unit)?;
    Some(Character::Escaped(character, 6))
}

/// The character of a leading surrogate and of the escape that follows it.
fn pair_with(leading: u32, behind: &[u8]) -> Option<Character<'_>>
    requires { spec.is_leading_surrogate leading ≡ true }
    ensures value { option_map meant result ≡ spec.pair_with leading (spec.code_unit behind.now) }
    ensures within { IfSome result (λ c. ((meant c).1 ≡ 12) × (6 ≤ length behind.now)) }
{
    let trailing = code_unit(behind)?;
    if !is_trailing_surrogate(trailing) {
        return None;
    }
    let character = char::from_u32(paired(leading, trailing))?;
    Some(Character::Escaped(character, 12))
}

fn is_leading_surrogate(unit: u32) -> bool
    ensures { result ≡ spec.is_leading_surrogate unit }
{
    0xD800 <= unit && unit < 0xDC00
}

fn is_trailing_surrogate(unit: u32) -> bool
    ensures { result ≡ spec.is_trailing_surrogate unit }
{
    0xDC00 <= unit && unit < 0xE000
}

fn paired(leading: u32, trailing: u32) -> u32
    requires leads { spec.is_leading_surrogate leading ≡ true }
    requires trails { spec.is_trailing_surrogate trailing ≡ true }
    ensures value { result ≡ spec.paired leading trailing }
    ensures scalar { (0x1_0000 ≤ result) × (result < 0x11_0000) }
{
    0x1_0000 + (leading - 0xD800) * 1024 + (trailing - 0xDC00)
}

/// The code unit of `\u` and four hexadecimal digits.
fn code_unit(text: &[u8]) -> Option<u32>
    ensures value { result ≡ spec.code_unit text.now }
    ensures below { IfSome result (λ unit. unit < 2 ^ 16) }
    ensures within { IfSome result (λ _. 6 ≤ length text.now) }
{
    if !begins_with(b"\\u", text) || text.len() < 6 {
        return None;
    }
    let a = hex_digit(text[2])?;
    let b = hex_digit(text[3])?;
    let c = hex_digit(text[4])?;
    let d = hex_digit(text[5])?;
    Some(a * 4096 + b * 256 + c * 16 + d)
}

fn hex_digit(byte: u8) -> Option<u32>
    ensures value { result ≡ spec.hex_digit byte }
    ensures below { IfSome result (λ digit. digit < 16) }
{
    match byte {
        b'0'..=b'9' => Some(u32::from(byte - b'0')),
        b'a'..=b'f' => Some(u32::from(byte - b'a' + 10)),
        b'A'..=b'F' => Some(u32::from(byte - b'A' + 10)),
        _ => None,
    }
}
