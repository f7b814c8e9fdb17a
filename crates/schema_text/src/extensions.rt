ghost use Rattle.std.specs.Prelude.{◌≡◌, ◌<◌, ◌≤◌, ◌-◌, ◌^◌, length, IfOk};
ghost use Rattle.gql_tokens.specs.Places.{first_place};
ghost use Rattle.schema_text.specs.Extensions.{begins_at, len_before, has_no_token, is_whole, begins_with_extend, extends_at};

use crate::depth::nests_too_deep;
use gql_documents::parse_document;
use gql_tokens::{Kind, Lexer, Place, SyntaxError, place_behind};
use std::alloc::Global;
use text_types::Memory;

/// Whether the name `extend` stands at a place, and before it whole definitions or none.
pub(crate) fn extends_at(alloc: Global, text: &[u8], place: Place) -> Result<bool, Memory>
    ensures { IfOk result (λ extends. extends ≡ extends_at text.now place) }
{
    let (before, behind) = text.split_at(len_before(place, text));
    if begins_with_extend(behind) {
        is_whole(alloc, before)
    } else {
        Ok(false)
    }
}

fn begins_with_extend(text: &[u8]) -> bool
    ensures { result ≡ begins_with_extend text.now }
{
    let lexer = Lexer::new(text);
    lexer.kind() as u8 == Kind::Name as u8 && lexer.text() == b"extend".as_slice()
}

/// Whether a text is whole definitions: none, or a document.
fn is_whole(alloc: Global, text: &[u8]) -> Result<bool, Memory>
    ensures { IfOk result (λ whole. whole ≡ is_whole text.now) }
{
    if has_no_token(text) {
        return Ok(true);
    }
    if nests_too_deep(text) {
        return Ok(false);
    }
    match parse_document(alloc, text) {
        Ok(_) => Ok(true),
        Err(SyntaxError::Syntax { .. }) => Ok(false),
        Err(SyntaxError::Memory) => Err(Memory),
    }
}

fn has_no_token(text: &[u8]) -> bool
    ensures { result ≡ has_no_token text.now }
{
    Lexer::new(text).kind() as u8 == Kind::End as u8
}

/// How many bytes stand before the character at a place.
fn len_before(target: Place, text: &[u8]) -> usize
    ensures value { result ≡ len_before target first_place text.now }
    ensures within { result ≤ length text.now }
{
    let mut place = Place { row: 1, column: 1 };
    let mut rest = text;
    'bytes: while let Some((byte, more)) = rest.split_first() {
        if begins_at(target, place, *byte) {
            return text.len() - rest.len();
        }
        place = place_behind(place, *byte, more);
        rest = more;
    }
    text.len()
}

fn begins_at(target: Place, place: Place, byte: u8) -> bool
    ensures { result ≡ begins_at target place byte }
{
    place.row == target.row && place.column == target.column && !matches!(byte, 128..=191)
}
