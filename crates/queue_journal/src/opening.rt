ghost use Rattle.std.specs.Prelude.{◌≡◌, ◌+◌, ◌≤◌, ◌<◌, [], length, IfOk, IsErrOf, IsTrue, ◌↔◌};
ghost use Rattle.fault_causes.specs.Causes.{HasCauseOf};
ghost use Rattle.fault_causes.specs.Crash.{Only, LeavesOnly};
ghost use Rattle.queue_model.specs.QueueFile.{QueueOfFile};
ghost use Rattle.queue_journal.specs.Journal.{IsSettled};
ghost use Rattle.queue_journal.specs.Opening.{WasOrSame, IsForeign};
ghost use Rattle.queue_journal.specs.Reading.{WhereLong, IsSound};
ghost use Rattle.queue_journal.specs.Steps.{WhereTold};

use crate::chain::read_chain;
use crate::error::OpenError;
use crate::found::ChainSoFar;
use crate::steps::{close_and_cut, write_synced};
use gate_outside::Disk;
use offline_queue::MemoryKeeper;
use std::alloc::Global;

/// The bytes of a queue file without records.
const EMPTY_END: u64 = 9;

/// What an opening found: the queue, and the places of its rows' state bytes.
#[derive(Drop)]
pub struct Found {
    pub queue: MemoryKeeper,
    pub places: Vec<u64>,
}

/// Begins a queue file, or takes up the one that is there.
pub fn open_queue<D: Disk>(alloc: Global, disk: &mut D, limit: u64) -> Result<Found, OpenError>
    requires low { 9 ≤ limit }
    requires high { limit ≤ 67108864 }
    ensures intact { IfOk result (λ found. IsSettled D.reads D.kept D.may_leave
        (record { disk = disk.new; queue = found.queue; places = found.places.items })) }
    ensures queue { WhereTold (D.reads disk.old) (λ file. IfOk result (λ found. QueueOfFile file limit found.queue)) }
    ensures foreign { WhereTold (D.reads disk.old) (λ file. IsErrOf result OpenError.NotAJournal → IsForeign file) }
    ensures crash { WhereTold (D.reads disk.old) (λ file. LeavesOnly D.moment D.left_since disk.old disk.new
        (WasOrSame (D.may_leave disk.old) file)) }
    ensures untouched { IsErrOf result OpenError.NotAJournal
        → LeavesOnly D.moment D.left_since disk.old disk.new (D.may_leave disk.old) }
    ensures cause { HasCauseOf OpenError.Failed (D.faults disk.old) (D.faults disk.new) result }
{
    disk.sync()?;
    let length = disk.len()?;
    if length <= EMPTY_END {
        begin(alloc, disk, limit)
    } else {
        take_over(alloc, disk, length, limit)
    }
}

/// Begins a queue file over one of at most 9 bytes.
fn begin<D: Disk>(alloc: Global, disk: &mut D, limit: u64) -> Result<Found, OpenError>
    requires low { 9 ≤ limit }
    requires high { limit ≤ 67108864 }
    requires short { WhereTold (D.reads disk.old) (λ file. (length file ≤ 9) × Only file (D.may_leave disk.old)) }
    ensures intact { IfOk result (λ found. IsSettled D.reads D.kept D.may_leave
        (record { disk = disk.new; queue = found.queue; places = found.places.items })) }
    ensures queue { WhereTold (D.reads disk.old) (λ file. IfOk result (λ found. QueueOfFile file limit found.queue)) }
    ensures crash { WhereTold (D.reads disk.old) (λ file. LeavesOnly D.moment D.left_since disk.old disk.new
        (WasOrSame (D.may_leave disk.old) file)) }
    ensures cause { HasCauseOf OpenError.Failed (D.faults disk.old) (D.faults disk.new) result }
    ensures empty { IsErrOf result OpenError.NotAJournal → ⊥ }
{
    write_synced(disk, 0, b"GQLGATE1\0")?;
    Ok(Found {
        queue: MemoryKeeper::new(alloc, limit),
        places: Vec::new(alloc),
    })
}

/// Takes up a queue file of this length. Where none of its rows is held its chain is cut off.
fn take_over<D: Disk>(
    alloc: Global,
    disk: &mut D,
    size: u64,
    limit: u64,
) -> Result<Found, OpenError>
    requires high { limit ≤ 67108864 }
    requires long { 9 < size }
    requires kept { size ≡ D.kept disk.old }
    requires told { WhereTold (D.reads disk.old) (λ file. (size ≡ length file) × Only file (D.may_leave disk.old)) }
    ensures intact { IfOk result (λ found. IsSettled D.reads D.kept D.may_leave
        (record { disk = disk.new; queue = found.queue; places = found.places.items })) }
    ensures queue { WhereTold (D.reads disk.old) (λ file. IfOk result (λ found. QueueOfFile file limit found.queue)) }
    ensures foreign { WhereTold (D.reads disk.old) (λ file. IsErrOf result OpenError.NotAJournal → IsForeign file) }
    ensures crash { WhereTold (D.reads disk.old) (λ file. LeavesOnly D.moment D.left_since disk.old disk.new
        (WasOrSame (D.may_leave disk.old) file)) }
    ensures untouched { IsErrOf result OpenError.NotAJournal
        → LeavesOnly D.moment D.left_since disk.old disk.new (D.may_leave disk.old) }
    ensures cause { HasCauseOf OpenError.Failed (D.faults disk.old) (D.faults disk.new) result }
{
    let chain = read_chain(alloc, disk, size)?;
    if holds_none(&chain) && chain.commit >= EMPTY_END {
        close_and_cut(disk)?;
        return Ok(found_of(chain, EMPTY_END, limit));
    }
    let end = chain.commit + 1;
    Ok(found_of(chain, end, limit))
}

/// Whether no row of the chain is held.
fn holds_none(chain: &ChainSoFar) -> bool
    ensures { IsTrue result ↔ chain.now.rows.items ≡ [] }
{
    chain.rows.is_empty()
}

/// The queue of a chain that was read.
fn found_of(chain: ChainSoFar, end: u64, limit: u64) -> Found
    requires { limit ≤ 67108864 }
    ensures queue { result.queue
        ≡ record { rows = chain.rows.items; end = end; limit = limit; greatest = chain.greatest } }
    ensures places { result.places ≡ chain.places }
{
    Found {
        queue: MemoryKeeper::holding(chain.rows, end, limit, chain.greatest),
        places: chain.places,
    }
}
