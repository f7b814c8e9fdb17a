//! One more byte of a head, and many.

ghost use Rattle.std.specs.Prelude.{◌≡◌, ◌==◌, if◌then◌else◌};
ghost use Rattle.head_scan.specs.Places as spec;
ghost use Rattle.head_scan.specs.Places.{place_of, place_step};

use crate::place::{Place, Step};
use httparse::{is_header_name_token, is_header_value_token};

/// The front of each version (RFC 9112, 2.3).
const VERSION_FRONT: &[u8] = b"HTTP/1.";

/// Where further bytes of a head lead, if they stay within it.
pub(crate) fn placed(from: Place, bytes: &[u8]) -> Option<Place>
    ensures { result ≡ place_of (spec.placed from bytes.now) }
{
    let mut place = from;
    for byte in bytes {
        match step(place, *byte) {
            Step::Stands(next) => place = next,
            Step::Ends | Step::Fails => return None,
        }
    }
    Some(place)
}

fn step(place: Place, byte: u8) -> Step
    ensures { result ≡ place_step place byte }
{
    match place {
        Place::EmptyLines => in_empty_lines(byte),
        Place::EmptyLineCr => expect(byte, b'\n', Step::Stands(Place::EmptyLines)),
        Place::Version(matched) => in_version(matched, byte),
        Place::VersionEnd => expect(byte, b' ', Step::Stands(Place::Status(0))),
        Place::Status(digits) => in_status(digits, byte),
        Place::Value => in_value(byte),
        Place::LineCr => expect(byte, b'\n', Step::Stands(Place::LineStart)),
        Place::LineStart => at_line_start(byte),
        Place::Name => in_name(byte),
        Place::LastCr => expect(byte, b'\n', Step::Ends),
    }
}

/// This byte and no other.
fn expect(byte: u8, expected: u8, next: Step) -> Step
    ensures { result ≡ spec.expected byte expected next }
{
    if byte == expected { next } else { Step::Fails }
}

fn in_empty_lines(byte: u8) -> Step
    ensures { result ≡ spec.in_empty_lines byte }
{
    match byte {
        b'\r' => Step::Stands(Place::EmptyLineCr),
        b'\n' => Step::Stands(Place::EmptyLines),
        _ => expect(byte, b'H', Step::Stands(Place::Version(1))),
    }
}

fn in_version(matched: u8, byte: u8) -> Step
    ensures { result ≡ spec.in_version matched byte }
{
    if matched < 7 {
        let expected = VERSION_FRONT[matched as usize];
        return expect(byte, expected, Step::Stands(Place::Version(matched + 1)));
    }
    if byte == b'0' || byte == b'1' {
        Step::Stands(Place::VersionEnd)
    } else {
        Step::Fails
    }
}

fn in_status(digits: u8, byte: u8) -> Step
    ensures { result ≡ spec.in_status digits byte }
{
    if digits >= 3 {
        return behind_status(byte);
    }
    if byte.is_ascii_digit() {
        Step::Stands(Place::Status(digits + 1))
    } else {
        Step::Fails
    }
}

fn behind_status(byte: u8) -> Step
    ensures { result ≡ spec.at_line_end byte (spec.expected byte 32 (Step.Stands Place.Value)) }
{
    match byte {
        b'\r' => Step::Stands(Place::LineCr),
        b'\n' => Step::Stands(Place::LineStart),
        _ => expect(byte, b' ', Step::Stands(Place::Value)),
    }
}

fn in_value(byte: u8) -> Step
    ensures { result ≡ spec.in_value byte }
{
    if is_header_value_token(byte) {
        return Step::Stands(Place::Value);
    }
    match byte {
        b'\r' => Step::Stands(Place::LineCr),
        b'\n' => Step::Stands(Place::LineStart),
        _ => Step::Fails,
    }
}

fn at_line_start(byte: u8) -> Step
    ensures { result ≡ spec.at_line_start byte }
{
    if is_header_name_token(byte) {
        return Step::Stands(Place::Name);
    }
    match byte {
        b'\r' => Step::Stands(Place::LastCr),
        b'\n' => Step::Ends,
        _ => Step::Fails,
    }
}

fn in_name(byte: u8) -> Step
    ensures { result ≡ spec.in_name byte }
{
    if is_header_name_token(byte) {
        Step::Stands(Place::Name)
    } else {
        expect(byte, b':', Step::Stands(Place::Value))
    }
}
