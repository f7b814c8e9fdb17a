//! Rows and columns.

ghost use Rattle.std.specs.Prelude.{◌≡◌, ◌≤◌, ◌<◌, ◌+◌, ◌-◌, ◌^◌, length, drop};
ghost use Rattle.std.specs.List.{prefix_len};
ghost use Rattle.gql_tokens.specs.Places as spec;
ghost use Rattle.gql_tokens.specs.Places.{first_place, place_behind, place_after};
ghost use Rattle.gql_tokens.specs.Readings.{HasRoom};

use crate::characters::ends_line;
use crate::token::Place;

/// Where a text begins.
pub(crate) fn first() -> Place
    ensures { result ≡ first_place }
{
    Place { row: 1, column: 1 }
}

/// The place behind a byte that stands at a place before this rest: the next row behind the last byte of a
/// line's end, the same place behind a byte within a character, and else the next column.
pub fn place_behind(place: Place, byte: u8, rest: &[u8]) -> Place
    requires row { place.row < 2 ^ 64 - 1 }
    requires column { place.column < 2 ^ 64 - 1 }
    ensures { result ≡ place_behind place byte rest.now }
{
    if ends_line(byte, rest) {
        Place {
            row: place.row + 1,
            column: 1,
        }
    } else if matches!(byte, 128..=191) {
        place
    } else {
        Place {
            row: place.row,
            column: place.column + 1,
        }
    }
}

/// Whether the byte is a whole character, takes a column and ends no line.
fn takes_column(byte: u8) -> bool
    ensures { result ≡ spec.takes_column byte }
{
    matches!(byte, 32..=127)
}

/// How many bytes at the front take a column each.
fn columns_len(text: &[u8]) -> usize
    ensures value { result ≡ prefix_len spec.takes_column text.now }
    ensures within { result ≤ length text.now }
{
    text.iter().take_while(|byte| takes_column(**byte)).count()
}

/// The place behind the first `len` bytes of a text that stands at a place.
#[tactic(auto, using(crate::proofs::PlaceLaws::columns_then))]
pub(crate) fn after(len: usize, start: Place, text: &[u8]) -> Place
    requires within { len ≤ length text.now }
    requires room { HasRoom start text.now }
    ensures value { result ≡ place_after len start text.now }
    ensures room { HasRoom result (drop len text.now) }
{
    let columns = columns_len(text.split_at(len).0);
    let place = Place {
        row: start.row,
        column: start.column + columns as u64,
    };
    after_bytes(len - columns, place, text.split_at(columns).1)
}

/// The same, byte by byte.
fn after_bytes(len: usize, start: Place, text: &[u8]) -> Place
    requires within { len ≤ length text.now }
    requires room { HasRoom start text.now }
    ensures value { result ≡ place_after len start text.now }
    ensures room { HasRoom result (drop len text.now) }
{
    let mut place = start;
    let mut rest = text;
    'bytes: for _ in 0..len {
        let Some((byte, more)) = rest.split_first() else {
            unreachable!()
        };
        place = place_behind(place, *byte, more);
        rest = more;
    }
    place
}
