//! A chunked body (RFC 9112, 7.1).

ghost use Rattle.std.specs.Prelude.{◌≡◌, ◌==◌, ◌+◌, ◌*◌, ◌-◌, nat_lt, if◌then◌else◌, IfOk, fold};
ghost use Rattle.http_model.specs.Chunks as spec;
ghost use Rattle.http_model.specs.Chunks.{reading, chunk_after, chunk_step};
ghost use Rattle.fetch_link.specs.Chunks.{shown};

use http_model::{ChunkPhase, ChunkStep};
use httparse::parse_hex_digit;
use text_types::{Bytes, Memory};

/// The bytes of a body.
pub(crate) const BODY_LIMIT: usize = 8_388_608;

/// A chunked body begins with a size line.
pub(crate) const CHUNKS_START: ChunkPhase = ChunkPhase::Size { digits: 0, size: 0 };

/// What a chunked body is, beside the data that came.
#[derive(Clone, Copy, Debug, PartialEq, Eq)]
pub(crate) enum Chunks {
    Reading(ChunkPhase),
    Whole,
    Malformed,
    TooLong,
}

/// Takes further bytes of a chunked body, and appends their data. Behind the end none is read.
pub(crate) fn read_chunks(
    from: ChunkPhase,
    came: &mut Bytes,
    bytes: &[u8],
) -> Result<Chunks, Memory>
    ensures { IfOk result (λ end. shown end came.new ≡ fold chunk_after (reading from came.old) bytes.now) }
{
    let mut phase = from;
    for byte in bytes {
        match step(phase, *byte) {
            ChunkStep::Form(next) => phase = next,
            ChunkStep::Data(next) => {
                if came.len() >= BODY_LIMIT {
                    return Ok(Chunks::TooLong);
                }
                came.push(*byte)?;
                phase = next;
            }
            ChunkStep::Whole => return Ok(Chunks::Whole),
            ChunkStep::Malformed => return Ok(Chunks::Malformed),
        }
    }
    Ok(Chunks::Reading(phase))
}

/// What one more byte is.
fn step(phase: ChunkPhase, byte: u8) -> ChunkStep
    ensures { result ≡ chunk_step phase byte }
{
    match phase {
        ChunkPhase::Size { digits, size } => in_size(digits, size, byte),
        ChunkPhase::Pad { size } => behind_size(size, byte),
        ChunkPhase::Extension { size } => in_extension(size, byte),
        ChunkPhase::SizeEnd { size } => expect(byte, b'\n', behind_size_line(size)),
        ChunkPhase::Data { left } => ChunkStep::Data(behind_data(left)),
        ChunkPhase::DataEnd => expect(byte, b'\r', ChunkPhase::DataEndLf),
        ChunkPhase::DataEndLf => expect(byte, b'\n', ChunkPhase::Size { digits: 0, size: 0 }),
        ChunkPhase::Trailer => in_trailer(byte),
        ChunkPhase::TrailerCr => behind_trailer_cr(byte),
        ChunkPhase::TrailerLine => in_trailer_line(byte),
    }
}

/// This byte and no other.
fn expect(byte: u8, expected: u8, next: ChunkPhase) -> ChunkStep
    ensures { result ≡ (if byte == expected then ChunkStep.Form next else ChunkStep.Malformed) }
{
    if byte == expected {
        ChunkStep::Form(next)
    } else {
        ChunkStep::Malformed
    }
}

fn in_size(digits: u64, size: u64, byte: u8) -> ChunkStep
    ensures { result ≡ spec.in_size digits size byte }
{
    match parse_hex_digit(byte) {
        Some(_) if digits >= 16 => ChunkStep::Malformed,
        Some(digit) => ChunkStep::Form(ChunkPhase::Size {
            digits: digits + 1,
            size: with_digit(size, digit),
        }),
        None if digits == 0 => ChunkStep::Malformed,
        None => behind_size(size, byte),
    }
}

fn with_digit(size: u64, digit: u64) -> u64
    ensures { result ≡ spec.capped (size * 16 + digit) }
{
    size.saturating_mul(16)
        .saturating_add(digit)
        .min(BODY_LIMIT as u64 + 1)
}

fn behind_size(size: u64, byte: u8) -> ChunkStep
    ensures { result ≡ spec.behind_size size byte }
{
    match byte {
        b' ' | b'\t' => ChunkStep::Form(ChunkPhase::Pad { size }),
        b';' => ChunkStep::Form(ChunkPhase::Extension { size }),
        b'\r' => ChunkStep::Form(ChunkPhase::SizeEnd { size }),
        _ => ChunkStep::Malformed,
    }
}

fn in_extension(size: u64, byte: u8) -> ChunkStep
    ensures { result ≡ chunk_step (ChunkPhase.Extension size) byte }
{
    match byte {
        b'\r' => ChunkStep::Form(ChunkPhase::SizeEnd { size }),
        b'\n' => ChunkStep::Malformed,
        _ => ChunkStep::Form(ChunkPhase::Extension { size }),
    }
}

fn behind_size_line(size: u64) -> ChunkPhase
    ensures { result ≡ spec.behind_size_line size }
{
    if size == 0 {
        ChunkPhase::Trailer
    } else {
        ChunkPhase::Data { left: size }
    }
}

fn behind_data(left: u64) -> ChunkPhase
    ensures { result ≡ (if nat_lt 1 left then ChunkPhase.Data (left - 1) else ChunkPhase.DataEnd) }
{
    if left > 1 {
        ChunkPhase::Data { left: left - 1 }
    } else {
        ChunkPhase::DataEnd
    }
}

fn in_trailer(byte: u8) -> ChunkStep
    ensures { result ≡ chunk_step ChunkPhase.Trailer byte }
{
    match byte {
        b'\n' => ChunkStep::Whole,
        b'\r' => ChunkStep::Form(ChunkPhase::TrailerCr),
        _ => ChunkStep::Form(ChunkPhase::TrailerLine),
    }
}

fn behind_trailer_cr(byte: u8) -> ChunkStep
    ensures { result ≡ chunk_step ChunkPhase.TrailerCr byte }
{
    if byte == b'\n' {
        ChunkStep::Whole
    } else {
        ChunkStep::Form(ChunkPhase::TrailerLine)
    }
}

fn in_trailer_line(byte: u8) -> ChunkStep
    ensures { result ≡ chunk_step ChunkPhase.TrailerLine byte }
{
    if byte == b'\n' {
        ChunkStep::Form(ChunkPhase::Trailer)
    } else {
        ChunkStep::Form(ChunkPhase::TrailerLine)
    }
}
