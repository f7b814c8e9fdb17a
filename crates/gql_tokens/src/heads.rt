//! The first token of what is left of a text, behind what is ignored.

ghost use Rattle.std.specs.Prelude.{◌≡◌, ◌<◌, ◌≤◌, ◌+◌, ◌-◌, ◌∷◌, length, false};
ghost use Rattle.gql_tokens.specs.Lexemes as lexemes;
ghost use Rattle.gql_tokens.specs.Readings.{HasRoom};
ghost use Rattle.gql_tokens.specs.Tokens.{tokens_from, tokens_of};
ghost use Rattle.gql_tokens.specs.Places as places_spec;
ghost use Rattle.gql_tokens.specs.Heads as spec;
ghost use Rattle.gql_tokens.specs.Heads.{IsHead, IsBehind, tokens_at, token_of};

use crate::lexemes::{ignored_len, token_at};
use crate::places;
use crate::token::{Kind, Place};

/// A token at the front of what is left of a text: its kind, its length, its place and the text
/// from it on.
#[derive(Clone, Copy)]
pub(crate) struct Head<'a> {
    pub(crate) kind: Kind,
    pub(crate) len: usize,
    pub(crate) place: Place,
    pub(crate) rest: &'a [u8],
}

/// Whether no token stands behind one of this kind.
pub(crate) fn is_last(kind: Kind) -> bool
    ensures { result ≡ spec.is_last kind }
{
    matches!(kind, Kind::Fault | Kind::End)
}

/// The first token of a text.
pub(crate) fn first_head(text: &[u8]) -> Head<'_>
    ensures tokens { tokens_at result ≡ tokens_of text.now }
    ensures head { IsHead result }
    ensures behind { IsBehind places_spec.first_place text.now (length text.now - length result.rest.now) result.place result.rest.now }
{
    head_from(places::first(), text)
}

/// The first token of a text that begins at a place.
pub(crate) fn head_from(start: Place, text: &[u8]) -> Head<'_>
    requires { HasRoom start text.now }
    ensures tokens { tokens_at result ≡ tokens_from start text.now }
    ensures head { IsHead result }
    ensures behind { IsBehind start text.now (length text.now - length result.rest.now) result.place result.rest.now }
{
    let (place, rest) = skip_ignored(start, text);
    let (kind, len) = head_of(rest);
    Head {
        kind,
        len,
        place,
        rest,
    }
}

/// The token behind a head, which is neither a fault nor the end.
pub(crate) fn next_head<'a>(head: &Head<'a>) -> Head<'a>
    requires head { IsHead head.now }
    requires goes_on { spec.is_last head.now.kind ≡ false }
    ensures tokens { tokens_at head.now ≡ token_of head.now ∷ tokens_at result }
    ensures head { IsHead result }
    ensures some { 0 < head.now.len }
    ensures shorter { length result.rest.now + head.now.len ≤ length head.now.rest.now }
    ensures behind { IsBehind head.now.place head.now.rest.now (length head.now.rest.now - length result.rest.now) result.place result.rest.now }
{
    let behind = places::after(head.len, head.place, head.rest);
    head_from(behind, head.rest.split_at(head.len).1)
}

/// What stands behind all that is ignored at the front, and its place.
fn skip_ignored(start: Place, text: &[u8]) -> (Place, &[u8])
    requires { HasRoom start text.now }
    ensures tokens { tokens_from result.0 result.1.now ≡ tokens_from start text.now }
    ensures begins { lexemes.ignored_len result.1.now ≡ 0 }
    ensures room { HasRoom result.0 result.1.now }
    ensures behind { IsBehind start text.now (length text.now - length result.1.now) result.0 result.1.now }
{
    let mut place = start;
    let mut rest = text;
    let mut len = ignored_len(rest);
    'ignored: while len > 0 {
        place = places::after(len, place, rest);
        rest = rest.split_at(len).1;
        len = ignored_len(rest);
    }
    (place, rest)
}

/// The kind and the length of the token at the front, where nothing ignored stands there.
fn head_of(text: &[u8]) -> (Kind, usize)
    ensures value { result ≡ spec.head_of text.now }
    ensures within { result.1 ≤ length text.now }
    ensures some { spec.is_last result.0 ≡ false → 0 < result.1 }
{
    match token_at(text) {
        Some(token) => token,
        None if text.is_empty() => (Kind::End, 0),
        None => (Kind::Fault, 0),
    }
}
