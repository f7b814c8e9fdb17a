ghost use Rattle.std.specs.Prelude.{◌≡◌, ℕ, ◌+◌, ◌≤◌, ◌<◌, ◌^◌, List, length, take, IfOk, OnOk, IsErrOf, MatchBool, IsTrue, ◌↔◌};
ghost use Rattle.fault_causes.specs.Causes.{HasCauseOf};
ghost use Rattle.queue_model.specs.QueueFile.{StoredRow, magic};
ghost use Rattle.queue_journal.specs.Steps.{WhereTold, IsQuiet};
ghost use Rattle.queue_journal.specs.Reading.{WhereLong, IsSound, IsRead, AddsRecord, ReadsCommit, ReadsLink, ReadsChain};

use crate::bytes::read_bytes;
use crate::error::OpenError;
use crate::found::{ChainSoFar, RecordAt};
use crate::records::read_record;
use gate_outside::Disk;
use std::alloc::{AllocError, Global};

/// Reads the record chain of a file of this length.
pub fn read_chain<D: Disk>(
    alloc: Global,
    disk: &mut D,
    length: u64,
) -> Result<ChainSoFar, OpenError>
    requires long { 9 < length }
    requires within { length ≤ D.kept disk.old }
    ensures sound { IfOk result (λ read. IsSound read × (read.commit < length)) }
    ensures reads { WhereLong (D.reads disk.old) length (λ file. ReadsChain file result) }
    ensures quiet { IsQuiet D.reads D.kept D.may_leave D.moment D.left_since disk.old disk.new }
    ensures cause { HasCauseOf OpenError.Failed (D.faults disk.old) (D.faults disk.new) result }
{
    if !has_magic(alloc, disk)? {
        return Err(OpenError::NotAJournal);
    }
    let mut chain = ChainSoFar {
        rows: Vec::new(alloc),
        places: Vec::new(alloc),
        commit: 8,
        greatest: 0,
    };
    'records: loop {
        if !read_link(alloc, disk, length, &mut chain)? {
            return Ok(chain);
        }
    }
}

/// Whether the file begins as a queue file does.
fn has_magic<D: Disk>(alloc: Global, disk: &mut D) -> Result<bool, OpenError>
    requires { 8 ≤ D.kept disk.old }
    ensures magic { WhereTold (D.reads disk.old) (λ file.
        IfOk result (λ has. IsTrue has ↔ take 8 file ≡ magic)) }
    ensures quiet { IsQuiet D.reads D.kept D.may_leave D.moment D.left_since disk.old disk.new }
    ensures cause { HasCauseOf OpenError.Failed (D.faults disk.old) (D.faults disk.new) result }
    ensures readable { IsErrOf result OpenError.NotAJournal → ⊥ }
{
    let bytes = read_bytes(alloc, disk, 0, 8)?;
    Ok(bytes.as_slice() == b"GQLGATE1".as_slice())
}

/// Whether a commit byte is open.
fn is_open<D: Disk>(alloc: Global, disk: &mut D, at: u64) -> Result<bool, OpenError>
    requires within { at + 1 ≤ D.kept disk.old }
    requires fits { at + 1 < 2 ^ 64 }
    ensures commit { WhereTold (D.reads disk.old) (λ file. IfOk result (ReadsCommit file at)) }
    ensures quiet { IsQuiet D.reads D.kept D.may_leave D.moment D.left_since disk.old disk.new }
    ensures cause { HasCauseOf OpenError.Failed (D.faults disk.old) (D.faults disk.new) result }
    ensures readable { IsErrOf result OpenError.NotAJournal → ⊥ }
{
    let bytes = read_bytes(alloc, disk, at, 1)?;
    match bytes.as_slice() {
        [byte] => Ok(*byte == 1),
        _ => unreachable!(),
    }
}

/// Reads the next commit byte, and the record behind it where it is open. It says whether it is.
fn read_link<D: Disk>(
    alloc: Global,
    disk: &mut D,
    length: u64,
    chain: &mut ChainSoFar,
) -> Result<bool, OpenError>
    requires within { length ≤ D.kept disk.old }
    requires sound { IsSound chain.old }
    ensures sound { OnOk result (IsSound chain.new) }
    ensures later { IfOk result (λ more. MatchBool more
        ((chain.old.commit < chain.new.commit) × (chain.new.commit ≤ length)) (chain.new.commit < length)) }
    ensures reads { WhereLong (D.reads disk.old) length (λ file. (records : List StoredRow)
        → IsRead file records chain.old → ReadsLink file records chain.new result) }
    ensures quiet { IsQuiet D.reads D.kept D.may_leave D.moment D.left_since disk.old disk.new }
    ensures cause { HasCauseOf OpenError.Failed (D.faults disk.old) (D.faults disk.new) result }
{
    if length <= chain.commit {
        return Err(OpenError::NotAJournal);
    }
    if !is_open(alloc, disk, chain.commit)? {
        return Ok(false);
    }
    let record = read_record(alloc, disk, chain.commit + 1, length, chain.greatest)?;
    take_up(chain, record)?;
    Ok(true)
}

/// Adds a record that was read.
fn take_up(chain: &mut ChainSoFar, found: RecordAt) -> Result<(), AllocError>
    requires sound { IsSound chain.old }
    requires number { chain.old.greatest < found.row.seq }
    requires end { chain.old.commit + 10 ≤ found.end }
    ensures sound { OnOk result (IsSound chain.new) }
    ensures added { OnOk result (AddsRecord chain.old chain.new found) }
{
    let place = chain.commit + 1;
    chain.commit = found.end;
    chain.greatest = found.row.seq;
    if found.state == 0 {
        chain.places.push(place)?;
        chain.rows.push(found.row)?;
    }
    Ok(())
}
