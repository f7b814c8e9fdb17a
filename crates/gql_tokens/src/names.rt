//! Names (GraphQL October 2021, 2.1.9).

ghost use Rattle.std.specs.Prelude.{◌≡◌, ◌≤◌, length, take, IfOk};
ghost use Rattle.std.specs.List.{prefix_len};
ghost use Rattle.gql_tokens.specs.Names as spec;
ghost use Rattle.gql_tokens.specs.Names.{IsName};

use std::alloc::Global;
use std::str;
use text_types::{Memory, Text};

pub(crate) fn is_name_start(byte: u8) -> bool
    ensures { result ≡ spec.is_name_start byte }
{
    matches!(byte, b'_' | b'A'..=b'Z' | b'a'..=b'z')
}

pub(crate) fn is_digit(byte: u8) -> bool
    ensures { result ≡ spec.is_digit byte }
{
    matches!(byte, b'0'..=b'9')
}

fn is_name_continue(byte: u8) -> bool
    ensures { result ≡ spec.is_name_continue byte }
{
    is_name_start(byte) || is_digit(byte)
}

/// How many bytes at the front belong to a name.
pub(crate) fn name_len(text: &[u8]) -> usize
    ensures value { result ≡ prefix_len spec.is_name_continue text.now }
    ensures within { result ≤ length text.now }
{
    text.iter()
        .take_while(|byte| is_name_continue(**byte))
        .count()
}

/// A name as a text.
pub fn name_text(alloc: Global, text: &[u8]) -> Result<Text, Memory>
    requires { IsName text.now }
    ensures { IfOk result (λ t. t ≡ text.now) }
{
    match str::from_utf8(text) {
        Ok(name) => Text::from_str(alloc, name),
        Err(_) => unreachable!(),
    }
}
