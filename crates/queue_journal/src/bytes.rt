ghost use Rattle.std.specs.Prelude.{◌≡◌, ◌+◌, ◌-◌, ◌≤◌, ◌<◌, ◌^◌, [], ◌∷◌, ◌++◌, length, take, drop, IfOk, OnOk, IsErrOf};
ghost use Rattle.std.specs.Int.{w32, w64, to_be_bytes};
ghost use Rattle.fault_causes.specs.Causes.{HasCauseOf};
ghost use Rattle.queue_journal.specs.Steps.{WhereTold, IsQuiet};

use crate::error::OpenError;
use gate_outside::Disk;
use std::alloc::Global;

/// The most bytes that one read asks for.
const PIECE: usize = 4096;

/// Reads so many bytes from an offset. Room is taken only as the bytes come.
pub fn read_bytes<D: Disk>(
    alloc: Global,
    disk: &mut D,
    at: u64,
    count: u64,
) -> Result<Vec<u8>, OpenError>
    requires within { at + count ≤ D.kept disk.old }
    requires fits { at + count < 2 ^ 64 }
    ensures count { IfOk result (λ bytes. length bytes.items ≡ count) }
    ensures bytes { WhereTold (D.reads disk.old) (λ file.
        IfOk result (λ bytes. bytes.items ≡ take count (drop at file))) }
    ensures quiet { IsQuiet D.reads D.kept D.may_leave D.moment D.left_since disk.old disk.new }
    ensures cause { HasCauseOf OpenError.Failed (D.faults disk.old) (D.faults disk.new) result }
    ensures readable { IsErrOf result OpenError.NotAJournal → ⊥ }
{
    let mut bytes = Vec::new(alloc);
    'pieces: while (bytes.len() as u64) < count {
        let done = bytes.len() as u64;
        read_piece(disk, at + done, count - done, &mut bytes)?;
    }
    Ok(bytes)
}

/// Appends the next bytes from an offset, at least one of them and at most so many.
fn read_piece<D: Disk>(
    disk: &mut D,
    at: u64,
    most: u64,
    bytes: &mut Vec<u8>,
) -> Result<(), OpenError>
    requires some { 0 < most }
    requires within { at + most ≤ D.kept disk.old }
    ensures grows { OnOk result (length bytes.old.items < length bytes.new.items) }
    ensures most { OnOk result (length bytes.new.items ≤ length bytes.old.items + most) }
    ensures bytes { WhereTold (D.reads disk.old) (λ file. OnOk result (bytes.new.items
        ≡ bytes.old.items ++ take (length bytes.new.items - length bytes.old.items) (drop at file))) }
    ensures quiet { IsQuiet D.reads D.kept D.may_leave D.moment D.left_since disk.old disk.new }
    ensures cause { HasCauseOf OpenError.Failed (D.faults disk.old) (D.faults disk.new) result }
    ensures readable { IsErrOf result OpenError.NotAJournal → ⊥ }
{
    let mut piece = [0u8; PIECE];
    let size = most.min(PIECE as u64) as usize;
    let count = disk.read_at(at, &mut piece[..size])?;
    bytes.extend_from_slice(&piece[..count])?;
    Ok(())
}
