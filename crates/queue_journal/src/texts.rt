ghost use Rattle.std.specs.Prelude.{◌≡◌, ◌+◌, ◌≤◌, ◌<◌, ◌^◌, ◌++◌, ◌∷◌, length, take, drop, IfOk, OnOk, IsErrOf};
ghost use Rattle.std.specs.Int.{w32, to_be_bytes};
ghost use Rattle.fault_causes.specs.Causes.{HasCauseOf};
ghost use Rattle.queue_journal.specs.Steps.{WhereTold, IsQuiet};
ghost use Rattle.queue_journal.specs.Reading.{WhereLong, ReadsText, ReadsTexts};

use crate::bytes::read_bytes;
use crate::error::OpenError;
use crate::found::{TextAt, TextsAt};
use gate_outside::Disk;
use std::alloc::Global;
use text_types::Text;

/// The bytes of a text's length.
const SIZE: u64 = 4;

/// Reads the length of a text.
fn read_size<D: Disk>(alloc: Global, disk: &mut D, at: u64) -> Result<u32, OpenError>
    requires within { at + 4 ≤ D.kept disk.old }
    requires fits { at + 4 < 2 ^ 64 }
    ensures small { IfOk result (λ size. size < 2 ^ 32) }
    ensures bytes { WhereTold (D.reads disk.old) (λ file.
        IfOk result (λ size. to_be_bytes w32 size ≡ take 4 (drop at file))) }
    ensures quiet { IsQuiet D.reads D.kept D.may_leave D.moment D.left_since disk.old disk.new }
    ensures cause { HasCauseOf OpenError.Failed (D.faults disk.old) (D.faults disk.new) result }
    ensures readable { IsErrOf result OpenError.NotAJournal → ⊥ }
{
    let bytes = read_bytes(alloc, disk, at, SIZE)?;
    match bytes.as_slice() {
        [a, b, c, d] => Ok(u32::from_be_bytes([*a, *b, *c, *d])),
        _ => unreachable!(),
    }
}

/// Reads a text with its length from a file of this length.
pub fn read_text<D: Disk>(
    alloc: Global,
    disk: &mut D,
    at: u64,
    length: u64,
) -> Result<TextAt, OpenError>
    requires start { at ≤ length }
    requires within { length ≤ D.kept disk.old }
    ensures end { IfOk result (λ found. (at + 4 ≤ found.end) × (found.end ≤ length)) }
    ensures reads { WhereLong (D.reads disk.old) length (λ file. ReadsText file at result) }
    ensures quiet { IsQuiet D.reads D.kept D.may_leave D.moment D.left_since disk.old disk.new }
    ensures cause { HasCauseOf OpenError.Failed (D.faults disk.old) (D.faults disk.new) result }
{
    if length - at < SIZE {
        return Err(OpenError::NotAJournal);
    }
    let size = u64::from(read_size(alloc, disk, at)?);
    let start = at + SIZE;
    if length - start < size {
        return Err(OpenError::NotAJournal);
    }
    let bytes = read_bytes(alloc, disk, start, size)?;
    match String::from_utf8(bytes) {
        Ok(text) => Ok(TextAt {
            text: Text::from_string(text),
            end: start + size,
        }),
        Err(_) => Err(OpenError::NotAJournal),
    }
}

/// Reads the three texts of a row from a file of this length.
pub fn read_texts<D: Disk>(
    alloc: Global,
    disk: &mut D,
    at: u64,
    length: u64,
) -> Result<TextsAt, OpenError>
    requires start { at ≤ length }
    requires within { length ≤ D.kept disk.old }
    ensures end { IfOk result (λ found. (at ≤ found.end) × (found.end ≤ length)) }
    ensures reads { WhereLong (D.reads disk.old) length (λ file. ReadsTexts file at result) }
    ensures quiet { IsQuiet D.reads D.kept D.may_leave D.moment D.left_since disk.old disk.new }
    ensures cause { HasCauseOf OpenError.Failed (D.faults disk.old) (D.faults disk.new) result }
{
    let document = read_text(alloc, disk, at, length)?;
    let operation = read_text(alloc, disk, document.end, length)?;
    let variables = read_text(alloc, disk, operation.end, length)?;
    Ok(TextsAt {
        document: document.text,
        operation: operation.text,
        variables: variables.text,
        end: variables.end,
    })
}
