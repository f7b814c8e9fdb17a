//! What is appended to bytes that are UTF-8 leaves them UTF-8.

ghost use Rattle.std.specs.Prelude.{◌≡◌, ◌++◌, OnOk, IsUtf8};
ghost use Rattle.gql_value.specs.Text.{quoted};

use gql_value::write_quoted;
use text_types::{Bytes, Memory, Text};

pub fn append(text: &str, bytes: &mut Bytes) -> Result<(), Memory>
    ensures text { OnOk result (bytes.new ≡ bytes.old ++ text.now) }
    ensures utf8 { IsUtf8 bytes.old → IsUtf8 bytes.new }
{
    bytes.append(text.as_bytes())
}

/// Appends a text as a string in one line.
pub fn append_string(value: &Text, bytes: &mut Bytes) -> Result<(), Memory>
    ensures text { OnOk result (bytes.new ≡ bytes.old ++ quoted value.now) }
    ensures utf8 { IsUtf8 bytes.old → IsUtf8 bytes.new }
{
    let _text = value.as_bytes();
    write_quoted(value, bytes)
}
