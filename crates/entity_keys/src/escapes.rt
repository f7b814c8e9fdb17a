ghost use Rattle.std.specs.Prelude.{◌≡◌, [], ◌∷◌, ◌++◌, ◌<◌, ◌≤◌, ◌||◌, ◌==◌, OnOk, true, length, slice_index, take, flat_map};
ghost use Rattle.std.specs.Bool.{OnTrue, OnFalse};
ghost use Rattle.cache_model.specs.Keys.{escaped, escaped_byte};
ghost use Rattle.entity_keys.specs.Escapes.{IsEscaped};

use text_types::{Memory, Text};

/// Appends a text with its escapes. What needs none is copied in runs.
pub(crate) fn push_escaped(key: &mut Text, text: &str) -> Result<(), Memory>
    ensures { OnOk result (key.new ≡ key.old ++ escaped text.now) }
{
    let mut rest = text;
    'runs: while !rest.is_empty() {
        let (plain, others) = rest.split_at(plain_len(rest.as_bytes()));
        key.push_str(plain)?;
        if others.is_empty() {
            return Ok(());
        }
        let (mark, behind) = others.split_at(1);
        push_escape(key, mark.as_bytes()[0])?;
        rest = behind;
    }
    Ok(())
}

/// How many bytes stand before the first that needs an escape.
fn plain_len(bytes: &[u8]) -> usize
    ensures within { result ≤ length bytes.now }
    ensures plain { flat_map escaped_byte (take result bytes.now) ≡ take result bytes.now }
    ensures longest { result < length bytes.now → IsEscaped (slice_index bytes.now result) }
{
    for (at, byte) in bytes.iter().enumerate() {
        if needs_escape(*byte) {
            return at;
        }
    }
    bytes.len()
}

fn needs_escape(byte: u8) -> bool
    ensures yes { OnTrue result (IsEscaped byte) }
    ensures no { OnFalse result (escaped_byte byte ≡ byte ∷ []) }
{
    byte == b'%' || byte == b'.'
}

fn push_escape(key: &mut Text, byte: u8) -> Result<(), Memory>
    requires { IsEscaped byte }
    ensures { OnOk result (key.new ≡ key.old ++ escaped_byte byte) }
{
    if byte == b'%' {
        key.push_str("%25")
    } else {
        key.push_str("%2E")
    }
}
