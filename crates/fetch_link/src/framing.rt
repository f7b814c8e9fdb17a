//! How a body ends, by the fields of its head (RFC 9112, 6).

ghost use Rattle.std.specs.Prelude.{◌≡◌, All, map, length, min, true, ◌+◌};
ghost use Rattle.std.specs.List.{list_all};
ghost use Rattle.std.specs.Char.{is_ascii_digit};
ghost use Rattle.std.specs.Str.Parse.{digits_value};
ghost use Rattle.httparse.specs.Spans.{IsHeaderWithin, header_bytes};
ghost use Rattle.http_model.specs.Framing as spec;
ghost use Rattle.fetch_link.specs.Framing.{length_shown};

use crate::chunks::BODY_LIMIT;
use http_model::{Coding, Framing};
use httparse::spans::HeaderSpan;

/// What the fields `Content-Length` say.
#[derive(Clone, Copy)]
enum Length<'a> {
    Absent,
    Stated(&'a [u8]),
    Unclear,
}

/// How the body of a response ends.
pub(crate) fn response_framing(status: u16, bytes: &[u8], headers: &[HeaderSpan]) -> Framing
    requires { All (IsHeaderWithin (length bytes.now)) headers.now }
    ensures { result ≡ spec.response_framing status (map (header_bytes bytes.now) headers.now) }
{
    match status {
        204 | 304 => Framing::Empty,
        _ => stated_framing(Framing::UntilClose, bytes, headers),
    }
}

/// How a body ends by its coding, and else by its length.
pub(crate) fn stated_framing(unstated: Framing, bytes: &[u8], headers: &[HeaderSpan]) -> Framing
    requires { All (IsHeaderWithin (length bytes.now)) headers.now }
    ensures { result ≡ spec.by_coding unstated (spec.coding_of (map (header_bytes bytes.now) headers.now))
        (spec.length_of (map (header_bytes bytes.now) headers.now)) }
{
    match coding_of(bytes, headers) {
        Coding::Absent => by_length(unstated, length_of(bytes, headers)),
        Coding::Chunked => Framing::Chunked,
        Coding::Other => Framing::Malformed,
    }
}

fn coding_of(bytes: &[u8], headers: &[HeaderSpan]) -> Coding
    requires { All (IsHeaderWithin (length bytes.now)) headers.now }
    ensures { result ≡ spec.coding_of (map (header_bytes bytes.now) headers.now) }
{
    let mut coding = Coding::Absent;
    for header in headers {
        coding = coding_after(coding, header.name.of(bytes), header.value.of(bytes));
    }
    coding
}

fn coding_after(coding: Coding, name: &[u8], value: &[u8]) -> Coding
    ensures { result ≡ spec.coding_after coding (name.now, value.now) }
{
    if is_word(name, b"transfer-encoding") {
        more_coding(coding, value)
    } else {
        coding
    }
}

fn more_coding(coding: Coding, value: &[u8]) -> Coding
    ensures { result ≡ spec.more_coding coding value.now }
{
    match coding {
        Coding::Absent if is_word(value, b"chunked") => Coding::Chunked,
        _ => Coding::Other,
    }
}

fn length_of<'a>(bytes: &'a [u8], headers: &[HeaderSpan]) -> Length<'a>
    requires { All (IsHeaderWithin (length bytes.now)) headers.now }
    ensures { length_shown result ≡ spec.length_of (map (header_bytes bytes.now) headers.now) }
{
    let mut length = Length::Absent;
    for header in headers {
        length = length_after(length, header.name.of(bytes), header.value.of(bytes));
    }
    length
}

fn length_after<'a>(length: Length<'a>, name: &[u8], value: &'a [u8]) -> Length<'a>
    ensures { length_shown result ≡ spec.length_after (length_shown length.entry) (name.now, value.now) }
{
    if is_word(name, b"content-length") {
        more_length(length, value)
    } else {
        length
    }
}

fn more_length<'a>(length: Length<'a>, value: &'a [u8]) -> Length<'a>
    ensures { length_shown result ≡ spec.more_length (length_shown length.entry) value.now }
{
    match length {
        Length::Absent => Length::Stated(value),
        Length::Stated(first) if first == value => Length::Stated(first),
        _ => Length::Unclear,
    }
}

fn by_length(unstated: Framing, length: Length<'_>) -> Framing
    ensures { result ≡ spec.by_length unstated (length_shown length.entry) }
{
    match length {
        Length::Absent => unstated,
        Length::Stated(value) if is_digits(value) => exactly(value),
        _ => Framing::Malformed,
    }
}

fn exactly(value: &[u8]) -> Framing
    requires { list_all is_ascii_digit value.now ≡ true }
    ensures { result ≡ spec.exactly (digits_value 10 value.now) }
{
    let size = capped_value(value);
    if size <= BODY_LIMIT as u64 {
        Framing::Exact(size)
    } else {
        Framing::TooLong
    }
}

fn is_digits(value: &[u8]) -> bool
    ensures { result ≡ spec.is_digits value.now }
{
    !value.is_empty() && are_digits(value)
}

fn are_digits(value: &[u8]) -> bool
    ensures { result ≡ list_all is_ascii_digit value.now }
{
    value.iter().all(|digit| digit.is_ascii_digit())
}

/// The number that digits write, or one past the limit of a body where it is greater.
fn capped_value(digits: &[u8]) -> u64
    requires { list_all is_ascii_digit digits.now ≡ true }
    ensures { result ≡ min (digits_value 10 digits.now) (spec.body_limit + 1) }
{
    let mut value = 0u64;
    for digit in digits {
        value = (value * 10 + u64::from(*digit - b'0')).min(BODY_LIMIT as u64 + 1);
    }
    value
}

/// Whether the bytes are this word, in any case of letters.
fn is_word(bytes: &[u8], word: &[u8]) -> bool
    ensures { result ≡ spec.is_word bytes.now word.now }
{
    bytes.eq_ignore_ascii_case(word)
}
