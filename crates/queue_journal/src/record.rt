ghost use Rattle.std.specs.Prelude.{◌≡◌, ◌≤◌, ◌<◌, ◌^◌, ◌++◌, [], ◌∷◌, length, IfOk, OnOk, IsUtf8};
ghost use Rattle.queue_model.specs.Queue.{need_of};
ghost use Rattle.queue_model.specs.QueueFile.{with_text, with_record};
ghost use Rattle.queue_journal.specs.Journal.{held_record};

use std::alloc::Global;
use text_types::{Memory, Text};

/// The record of a row that is held, and a closed commit byte behind it.
pub fn record_bytes(
    alloc: Global,
    seq: u64,
    document: &Text,
    operation: &Text,
    variables: &Text,
) -> Result<Vec<u8>, Memory>
    requires { need_of document.now operation.now variables.now ≤ 67108864 }
    ensures bytes { IfOk result (λ bytes. bytes.items
        ≡ with_record (held_record seq document.now operation.now variables.now) (0 ∷ [])) }
    ensures utf8 { OnOk result (IsUtf8 document.now × IsUtf8 operation.now × IsUtf8 variables.now) }
{
    let mut bytes = Vec::new(alloc);
    bytes.push(0)?;
    bytes.extend_from_slice(&seq.to_be_bytes())?;
    push_text(&mut bytes, document)?;
    push_text(&mut bytes, operation)?;
    push_text(&mut bytes, variables)?;
    bytes.push(0)?;
    Ok(bytes)
}

/// Appends a text with its length before it.
fn push_text(bytes: &mut Vec<u8>, text: &Text) -> Result<(), Memory>
    requires { length text.now < 2 ^ 32 }
    ensures bytes { OnOk result (bytes.new.items ≡ bytes.old.items ++ with_text text.now []) }
    ensures utf8 { OnOk result (IsUtf8 text.now) }
{
    let length = text.len() as u32;
    bytes.extend_from_slice(&length.to_be_bytes())?;
    bytes.extend_from_slice(text.as_bytes())?;
    Ok(())
}
