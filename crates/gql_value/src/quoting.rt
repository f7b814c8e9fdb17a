ghost use Rattle.std.specs.Prelude.{◌≡◌, [], ◌∷◌, ◌++◌, ◌<◌, ◌≤◌, OnOk, OnErr, length, slice_index, take, flat_map, IsUtf8};
ghost use Rattle.std.specs.Bool.{OnTrue, OnFalse};
ghost use Rattle.std.specs.Char.{digit_char};
ghost use Rattle.gql_value.specs.Text.{escaped_byte, IsEscaped, quoted};
ghost use Rattle.gql_value.specs.Fronts.{IsFront};

use crate::fronts::cut_back;
use text_types::{Bytes, Memory, Text};

/// Appends a text as a JSON string.
pub fn write_quoted(text: &Text, out: &mut Bytes) -> Result<(), Memory>
    ensures ok { OnOk result (out.new ≡ out.old ++ quoted text.now) }
    ensures err { OnErr result (out.new ≡ out.old) }
{
    let kept = out.len();
    let written = append_quoted(text, out);
    if written.is_err() {
        cut_back(out, kept);
    }
    written
}

pub(crate) fn append_quoted(text: &Text, out: &mut Bytes) -> Result<(), Memory>
    ensures utf8 { OnOk result (IsUtf8 (quoted text.now)) }
    ensures ok { OnOk result (out.new ≡ out.old ++ quoted text.now) }
    ensures err { OnErr result (IsFront out.old out.new) }
{
    out.push(b'"')?;
    append_escaped(text.as_bytes(), out)?;
    out.push(b'"')?;
    Ok(())
}

/// Bytes of a string. Those that need no escape are copied in runs.
fn append_escaped(bytes: &[u8], out: &mut Bytes) -> Result<(), Memory>
    ensures ok { OnOk result (out.new ≡ out.old ++ flat_map escaped_byte bytes.now) }
    ensures err { OnErr result (IsFront out.old out.new) }
{
    let mut rest = bytes;
    'runs: while !rest.is_empty() {
        let (plain, others) = rest.split_at(plain_len(rest));
        out.append(plain)?;
        match others.split_first() {
            Some((byte, behind)) => {
                append_escape(*byte, out)?;
                rest = behind;
            }
            None => return Ok(()),
        }
    }
    Ok(())
}

/// How many bytes stand before the first that needs an escape.
fn plain_len(bytes: &[u8]) -> usize
    ensures within { result ≤ length bytes.now }
    ensures plain { flat_map escaped_byte (take result bytes.now) ≡ take result bytes.now }
    ensures longest { result < length bytes.now → IsEscaped (slice_index bytes.now result) }
{
    for (at, byte) in bytes.iter().enumerate() {
        if needs_escape(*byte) {
            return at;
        }
    }
    bytes.len()
}

fn needs_escape(byte: u8) -> bool
    ensures yes { OnTrue result (IsEscaped byte) }
    ensures no { OnFalse result (escaped_byte byte ≡ byte ∷ []) }
{
    byte < 32 || byte == b'"' || byte == b'\\'
}

fn append_escape(byte: u8, out: &mut Bytes) -> Result<(), Memory>
    ensures ok { OnOk result (out.new ≡ out.old ++ escaped_byte byte) }
    ensures err { OnErr result (IsFront out.old out.new) }
{
    match byte {
        b'"' => out.append(b"\\\""),
        b'\\' => out.append(b"\\\\"),
        8 => out.append(b"\\b"),
        12 => out.append(b"\\f"),
        b'\n' => out.append(b"\\n"),
        b'\r' => out.append(b"\\r"),
        b'\t' => out.append(b"\\t"),
        0..32 => {
            out.append(b"\\u00")?;
            out.push(hex_digit(byte / 16))?;
            out.push(hex_digit(byte % 16))
        }
        _ => out.push(byte),
    }
}

fn hex_digit(digit: u8) -> u8
    requires { digit < 16 }
    ensures { result ≡ digit_char digit }
{
    if digit < 10 {
        b'0' + digit
    } else {
        b'a' + (digit - 10)
    }
}
