//! A journal that is stopped behind each change of its disk, and one whose device calls fail in turn:
//! what a new opening finds in each file that a crash may have left.
ghost use Rattle.std.specs.Prelude.{OnOk};
ghost use Rattle.queue_journal.specs.Journal.{IsSettled};

use crate::puts::{DONE, NOT_DONE, put_once};
use gate_outside::{Disk, Failed, FailingDisk, MemoryDisk, Tear};
use offline_queue::{Keeper, PutError};
use queue_journal::{Journal, OpenError, Unopened};
use std::alloc::Global;
use std::process::Abort;
use std::test::Fail;
use text_types::{Bytes, Memory};

/// The most that the queue's rows may reach, and the room of its disk.
const ROOM: u16 = 4096;

/// What a crash does to a change that isn't synced.
const TEARS: [Tear; 6] = [
    Tear::Nothing,
    Tear::Whole,
    Tear::Filled(0),
    Tear::Filled(1),
    Tear::Filled(255),
    Tear::FilledWithin(1),
];

/// Numbers of rows, for each of the tears.
type Found = [&'static [u64]; 6];

const NONE: &[u64] = &[];

const ONE: &[u64] = &[1];

const BOTH: &[u64] = &[1, 2];

const SECOND: &[u64] = &[2];

/// So many changes one after another, behind each of which a crash leaves these rows.
const RUN: [(usize, Found); 9] = [
    // Opening an empty file, and the record of the first put.
    (6, [NONE; 6]),
    // Its commit byte, which only 1 opens.
    (1, [NONE, ONE, NONE, ONE, NONE, ONE]),
    (3, [ONE; 6]),
    // The commit byte of the second put.
    (1, [ONE, BOTH, ONE, BOTH, ONE, BOTH]),
    (1, [BOTH; 6]),
    // The state byte of the first row, which is held at 0 alone.
    (1, [BOTH, SECOND, BOTH, SECOND, SECOND, SECOND]),
    (1, [SECOND; 6]),
    // The state byte of the second row, and two resets behind it.
    (1, [SECOND, NONE, SECOND, NONE, NONE, NONE]),
    (7, [NONE; 6]),
];

/// The changes of the whole run.
const CHANGES: usize = 21;

/// The changes up to where the first commit byte is closed again, before the file is cut.
const CLOSED: usize = 17;

fn memory_disk(alloc: Global, file: Bytes) -> Result<MemoryDisk, Memory> {
    MemoryDisk::new(alloc, file, ROOM as usize)
}

/// Takes out the first row.
fn done_first<K: Keeper>(keeper: &mut K) -> Result<(), PutError>
    requires { K.intact keeper.old }
    ensures { OnOk result (K.intact keeper.new) }
{
    let rows = keeper.rows()?;
    let answer = match rows.as_slice() {
        [row, ..] => keeper.done(row.seq),
        [] => Ok(()),
    };
    answer.map_err(|_: Failed| PutError::Failed)
}

/// Puts two rows, takes both out, and resets.
fn put_and_take_out<D: Disk>(alloc: Global, journal: &mut Journal<D>) -> Result<(), PutError>
    requires { IsSettled D.reads D.kept D.may_leave journal.old }
{
    put_once(alloc, journal, DONE)?;
    put_once(alloc, journal, NOT_DONE)?;
    done_first(journal)?;
    done_first(journal)?;
    let empty = journal.rows()?.is_empty();
    if empty {
        return journal.reset().map_err(|_: Failed| PutError::Failed);
    }
    Ok(())
}

/// Opens a queue and runs it to its end or to its first failure. The disk is handed back as it is then.
fn run_queue<D: Disk + Drop>(alloc: Global, disk: D) -> (D, Result<(), PutError>) {
    match Journal::open(alloc, disk, ROOM as u64) {
        Ok(mut journal) => {
            let answer = put_and_take_out(alloc, &mut journal);
            (journal.into_disk(), answer)
        }
        Err(Unopened { disk, error }) => match error {
            OpenError::Failed => (disk, Err(PutError::Failed)),
            OpenError::Memory | OpenError::NotAJournal => (disk, Err(PutError::Memory)),
        },
    }
}

/// A new opening finds rows of these numbers.
fn assert_opens<D: Disk + Drop>(
    rt: &impl Abort,
    alloc: Global,
    disk: D,
    numbers: &[u64],
) -> Result<D, Memory> {
    match Journal::open(alloc, disk, ROOM as u64) {
        Ok(journal) => {
            let rows = journal.rows()?;
            assert_eq!(rt; rows.len(), numbers.len());
            for (row, number) in rows.as_slice().iter().zip(numbers) {
                assert_eq!(rt; row.seq, *number);
            }
            Ok(journal.into_disk())
        }
        Err(Unopened { disk: _, error }) => {
            assert_eq!(rt; error, OpenError::Memory);
            Err(Memory)
        }
    }
}

/// A new opening finds the same rows again, wherever it was stopped, and where it went on to its end.
fn assert_opens_again(
    rt: &impl Abort,
    alloc: Global,
    opened: &MemoryDisk,
    numbers: &[u64],
) -> Result<(), Memory> {
    for count in 0..=opened.changes() {
        for tear in &TEARS {
            let image = opened.image(alloc, count, *tear)?;
            assert_opens(rt, alloc, memory_disk(alloc, image)?, numbers)?;
        }
    }
    Ok(())
}

/// A new opening behind so many changes finds these rows.
fn assert_found(
    rt: &impl Abort,
    alloc: Global,
    disk: &MemoryDisk,
    count: usize,
    found: &Found,
) -> Result<(), Memory> {
    assert!(rt; count <= disk.changes());
    for (tear, numbers) in TEARS.iter().zip(found) {
        let image = disk.image(alloc, count, *tear)?;
        let opened = assert_opens(rt, alloc, memory_disk(alloc, image)?, numbers)?;
        assert_opens_again(rt, alloc, &opened, numbers)?;
    }
    Ok(())
}

/// What a new opening finds behind so many changes of a run that begins with an empty file.
fn found_behind(count: usize) -> Found {
    let mut behind = 0usize;
    for (changes, found) in &RUN {
        behind = behind.saturating_add(*changes);
        if count < behind {
            return *found;
        }
    }
    [NONE; 6]
}

#[test]
fn a_stop_leaves_the_rows_before_or_after_a_call(rt: HostRuntime) -> Result<(), Fail> {
    let alloc = rt.alloc();
    let (disk, answer) = run_queue(alloc, memory_disk(alloc, Bytes::new(alloc))?);
    assert_eq!(rt; answer, Ok(()));
    assert_eq!(rt; disk.changes(), CHANGES);
    for count in 0..CHANGES + 1 {
        assert_found(&rt, alloc, &disk, count, &found_behind(count))?;
    }
    Ok(())
}

#[test]
fn a_run_over_what_a_reset_left_stops_alike(rt: HostRuntime) -> Result<(), Fail> {
    let alloc = rt.alloc();
    let (disk, _) = run_queue(alloc, memory_disk(alloc, Bytes::new(alloc))?);
    assert!(rt; CLOSED <= disk.changes());
    let rest = disk.image(alloc, CLOSED, Tear::Whole)?;
    assert_eq!(rt; rest.len(), 146);
    let (disk, answer) = run_queue(alloc, memory_disk(alloc, rest)?);
    assert_eq!(rt; answer, Ok(()));
    // Its opening neither writes nor syncs a new file.
    for count in 2..CHANGES + 1 {
        assert_found(&rt, alloc, &disk, count - 2, &found_behind(count))?;
    }
    Ok(())
}

#[test]
fn each_call_that_fails_leaves_the_rows_before_or_after_it(rt: HostRuntime) -> Result<(), Fail> {
    let alloc = rt.alloc();
    for call in 1..CHANGES as u64 + 2 {
        let fails = [call].to_vec(alloc)?;
        let disk = FailingDisk::new(alloc, Bytes::new(alloc), ROOM as usize, fails)?;
        let (disk, answer) = run_queue(alloc, disk);
        assert_eq!(rt; answer, Err(PutError::Failed), "{call}");
        let disk = disk.into_disk();
        let count = disk.changes();
        // The second call asks for the length, and changes nothing.
        assert_eq!(rt; count as u64, (call - 1).min(call.max(3) - 2));
        let found = found_behind(count);
        assert_found(&rt, alloc, &disk, count, &found)?;
        assert_opens(&rt, alloc, disk, found[1])?;
    }
    Ok(())
}
