ghost use Rattle.std.specs.Prelude.{◌≡◌, ◌+◌, ◌≤◌, ◌<◌, ◌^◌, ◌++◌, ◌∷◌, length, take, drop, IfOk, OnOk, IsErrOf};
ghost use Rattle.std.specs.Int.{w64, to_be_bytes};
ghost use Rattle.fault_causes.specs.Causes.{HasCauseOf};
ghost use Rattle.queue_journal.specs.Steps.{WhereTold, IsQuiet};
ghost use Rattle.queue_journal.specs.Reading.{WhereLong, ReadsHead, ReadsRecord};

use crate::bytes::read_bytes;
use crate::error::OpenError;
use crate::found::{Head, RecordAt};
use crate::texts::read_texts;
use gate_outside::Disk;
use queue_model::Row;
use std::alloc::Global;

/// The bytes of a record before its texts: the state byte and the number.
const HEAD: u64 = 9;

/// The last number of a row, 2^63 - 1.
const LAST_NUMBER: u64 = 0x7fff_ffff_ffff_ffff;

/// Reads the first part of a record.
fn read_head<D: Disk>(alloc: Global, disk: &mut D, at: u64) -> Result<Head, OpenError>
    requires within { at + 9 ≤ D.kept disk.old }
    requires fits { at + 9 < 2 ^ 64 }
    ensures number { IfOk result (λ head. head.seq < 2 ^ 64) }
    ensures head { WhereTold (D.reads disk.old) (λ file. IfOk result (λ head.
        head.state ∷ to_be_bytes w64 head.seq ≡ take 9 (drop at file))) }
    ensures quiet { IsQuiet D.reads D.kept D.may_leave D.moment D.left_since disk.old disk.new }
    ensures cause { HasCauseOf OpenError.Failed (D.faults disk.old) (D.faults disk.new) result }
    ensures readable { IsErrOf result OpenError.NotAJournal → ⊥ }
{
    let bytes = read_bytes(alloc, disk, at, HEAD)?;
    match bytes.as_slice() {
        [state, a, b, c, d, e, f, g, h] => Ok(Head {
            state: *state,
            seq: u64::from_be_bytes([*a, *b, *c, *d, *e, *f, *g, *h]),
        }),
        _ => unreachable!(),
    }
}

/// Reads a record from a file of this length, which follows one with the number `low`.
pub fn read_record<D: Disk>(
    alloc: Global,
    disk: &mut D,
    at: u64,
    length: u64,
    low: u64,
) -> Result<RecordAt, OpenError>
    requires start { at ≤ length }
    requires within { length ≤ D.kept disk.old }
    ensures end { IfOk result (λ found. (at + 9 ≤ found.end) × (found.end ≤ length)) }
    ensures number { IfOk result (λ found. (low < found.row.seq) × (found.row.seq < 2 ^ 63)) }
    ensures reads { WhereLong (D.reads disk.old) length (λ file. ReadsRecord file at low result) }
    ensures quiet { IsQuiet D.reads D.kept D.may_leave D.moment D.left_since disk.old disk.new }
    ensures cause { HasCauseOf OpenError.Failed (D.faults disk.old) (D.faults disk.new) result }
{
    if length - at < HEAD {
        return Err(OpenError::NotAJournal);
    }
    let head = read_head(alloc, disk, at)?;
    if head.seq <= low || head.seq > LAST_NUMBER {
        return Err(OpenError::NotAJournal);
    }
    let texts = read_texts(alloc, disk, at + HEAD, length)?;
    Ok(RecordAt {
        state: head.state,
        row: Row {
            seq: head.seq,
            document: texts.document,
            operation: texts.operation,
            variables: texts.variables,
        },
        end: texts.end,
    })
}
