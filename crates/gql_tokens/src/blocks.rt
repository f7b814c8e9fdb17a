//! Characters inside block strings (GraphQL October 2021, 2.9.4).

ghost use Rattle.std.specs.Prelude.{◌≡◌, option_map, IfSome};
ghost use Rattle.gql_tokens.specs.Blocks as spec;
ghost use Rattle.gql_tokens.specs.Readings.{meant, Fits};

use crate::characters::{Character, begins_with, source_character};

/// BlockStringCharacter: the character at the front.
pub(crate) fn block_character(text: &[u8]) -> Option<Character<'_>>
    ensures value { option_map meant result ≡ spec.block_character text.now }
    ensures within { IfSome result (λ c. Fits text.now (meant c)) }
{
    if begins_with(b"\\\"\"\"", text) {
        return Some(Character::Mark);
    }
    if begins_with(b"\"\"\"", text) {
        return None;
    }
    source_character(text)
}
