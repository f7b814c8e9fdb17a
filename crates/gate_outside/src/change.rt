ghost use Rattle.std.specs.Prelude.{◌≡◌, ◌+◌, ◌≤◌, max, length, take, drop, OnOk, IsOk, vec_len, vec_capacity};
ghost use Rattle.gate_outside.specs.Disk.{written};
ghost use Rattle.gate_outside.specs.Log.{event_of, changed};

use text_types::Memory;

/// A change of a file in memory.
#[derive(Drop)]
pub enum Change {
    /// A write at this offset, of so many bytes behind `from` among all that were written.
    Wrote { at: usize, from: usize, len: usize },
    /// A cut to this length.
    CutTo { len: usize },
    /// A sync.
    Synced,
}

/// So many bytes from an offset, or as many as there are.
pub fn bytes_at(bytes: &[u8], from: usize, len: usize) -> &[u8]
    ensures { result.now ≡ take len (drop from bytes.now) }
{
    let rest = &bytes[from.min(bytes.len())..];
    &rest[..len.min(rest.len())]
}

/// Puts the bytes at this offset, over what is there and past the end.
pub fn overwrite(file: &mut Vec<u8>, at: usize, bytes: &[u8]) -> Result<(), Memory>
    ensures written { OnOk result (file.new.items ≡ written at bytes.now file.old.items) }
    ensures room { max (vec_len file.old) (at + length bytes.now) ≤ vec_capacity file.old → IsOk result }
    ensures capacity { vec_capacity file.old ≤ vec_capacity file.new }
{
    let at = at.min(file.len());
    let inside = bytes.len().min(file.len() - at);
    file[at..at + inside].copy_from_slice(&bytes[..inside]);
    file.extend_from_slice(&bytes[inside..])?;
    Ok(())
}

/// Makes the change, whose bytes stand among these.
pub fn redo(change: &Change, bytes: &[u8], file: &mut Vec<u8>) -> Result<(), Memory>
    ensures { OnOk result (file.new.items ≡ changed (event_of bytes.now change.now) file.old.items) }
{
    match change {
        Change::Wrote { at, from, len } => overwrite(file, *at, bytes_at(bytes, *from, *len)),
        Change::CutTo { len } => {
            file.truncate(*len);
            Ok(())
        }
        Change::Synced => Ok(()),
    }
}
