//! Integers (GraphQL October 2021, 2.9.1).

ghost use Rattle.std.specs.Prelude.{◌≡◌, ◌≤◌, ◌<◌, ◌^◌, ◌&&◌, length, MatchOption, IfOk, IfSome, true};
ghost use Rattle.std.specs.List.{list_all, prefix_len};
ghost use Rattle.gql_tokens.specs.Numbers as spec;
ghost use Rattle.gql_tokens.specs.Names.{is_digit};
ghost use Rattle.gql_tokens.specs.Numbers.{IsInteger};
ghost use Rattle.gql_tokens.specs.Tokens.{integer_value_of};

use crate::characters::begins_with;
use crate::names::{is_digit, is_name_start};
use std::alloc::Global;
use std::str;
use text_types::{Memory, Text};

/// One more than the greatest integer, and the magnitude of the least one.
const LIMIT: u64 = 0x8000_0000_0000_0000;

fn has_sign(text: &[u8]) -> bool
    ensures value { result ≡ spec.has_sign text.now }
    ensures within { result ≡ true → 1 ≤ length text.now }
{
    begins_with(b"-", text)
}

/// What stands behind the sign, if there is one.
fn unsigned_part(text: &[u8]) -> &[u8]
    ensures value { result.now ≡ spec.unsigned_part text.now }
    ensures within { length result.now ≤ length text.now }
{
    if has_sign(text) {
        text.split_at(1).1
    } else {
        text
    }
}

/// The number that digits spell, if it is below 2^64.
fn digits_value(digits: &[u8]) -> Option<u64>
    ensures { MatchOption result (2 ^ 64 ≤ spec.digits_value digits.now) (λ n. n ≡ spec.digits_value digits.now) }
{
    let mut value: u64 = 0;
    'digits: for digit in digits {
        let shifted = value.checked_mul(10)?;
        value = shifted.checked_add(u64::from(digit.saturating_sub(b'0')))?;
    }
    Some(value)
}

fn are_digits(text: &[u8]) -> bool
    ensures { result ≡ list_all is_digit text.now }
{
    text.iter().all(|byte| is_digit(*byte))
}

/// `0`, or a digit that isn't 0 and digits.
fn is_whole(text: &[u8]) -> bool
    ensures { result ≡ spec.is_whole text.now }
{
    match text.split_first() {
        None => false,
        Some((first, rest)) => {
            is_digit(*first) && are_digits(rest) && (*first != b'0' || rest.is_empty())
        }
    }
}

/// Whether the number fits in 64 bits with its sign.
fn is_within(negative: bool, n: u64) -> bool
    ensures { result ≡ spec.is_within negative n }
{
    n < LIMIT || (negative && n == LIMIT)
}

fn is_integer(text: &[u8]) -> bool
    ensures { result ≡ spec.is_integer text.now }
{
    let digits = unsigned_part(text);
    if !is_whole(digits) {
        return false;
    }
    match digits_value(digits) {
        Some(n) => is_within(has_sign(text), n),
        None => false,
    }
}

/// How many bytes at the front are digits.
fn digits_len(text: &[u8]) -> usize
    ensures value { result ≡ prefix_len is_digit text.now }
    ensures within { result ≤ length text.now }
{
    text.iter().take_while(|byte| is_digit(**byte)).count()
}

/// How many bytes the sign and the digits at the front take.
fn number_len(text: &[u8]) -> usize
    ensures value { result ≡ spec.number_len text.now }
    ensures within { result ≤ length text.now }
{
    if has_sign(text) {
        1 + digits_len(text.split_at(1).1)
    } else {
        digits_len(text)
    }
}

/// Whether what stands behind an integer would continue it.
fn continues_number(behind: &[u8]) -> bool
    ensures { result ≡ spec.continues_number behind.now }
{
    match behind.split_first() {
        None => false,
        Some((first, _)) => is_digit(*first) || *first == b'.' || is_name_start(*first),
    }
}

/// How long the integer at the front is, if one stands there.
pub(crate) fn integer_len(text: &[u8]) -> Option<usize>
    ensures value { result ≡ spec.integer_len text.now }
    ensures within { IfSome result (λ n. (0 < n) × (n ≤ length text.now)) }
{
    let len = number_len(text);
    let (number, behind) = text.split_at(len);
    if is_integer(number) && !continues_number(behind) {
        Some(len)
    } else {
        None
    }
}

/// An integer as a text.
pub fn integer_text(alloc: Global, text: &[u8]) -> Result<Text, Memory>
    requires { IsInteger text.now }
    ensures { IfOk result (λ t. t ≡ text.now) }
{
    match str::from_utf8(text) {
        Ok(integer) => Text::from_str(alloc, integer),
        Err(_) => unreachable!(),
    }
}

/// The number that an integer spells.
pub fn integer_value(text: &[u8]) -> i64
    requires { IsInteger text.now }
    ensures { result ≡ integer_value_of text.now }
{
    let negative = has_sign(text);
    match digits_value(unsigned_part(text)) {
        None => unreachable!(),
        Some(n) => with_sign(negative, n),
    }
}

fn with_sign(negative: bool, n: u64) -> i64
    requires { spec.is_within negative n ≡ true }
    ensures { result ≡ spec.with_sign negative n }
{
    match i64::try_from(n) {
        Ok(n) if negative => -n,
        Ok(n) => n,
        Err(_) => i64::MIN,
    }
}
