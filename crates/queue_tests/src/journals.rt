//! A journal over a file in memory: the layout of its file, and what a new opening finds.
ghost use Rattle.std.specs.Prelude.{◌≤◌, IfOk};
ghost use Rattle.queue_journal.specs.Journal.{IsSettled};

use crate::puts::{DONE, NOT_DONE, put_once};
use gate_outside::{Disk, MemoryDisk};
use offline_queue::{Keeper, PutError};
use queue_journal::{Journal, OpenError, Unopened};
use std::alloc::Global;
use std::test::Fail;
use text_types::Bytes;

/// Opens a journal whose rows may reach this limit.
fn opened<D: Disk + Drop>(alloc: Global, disk: D, limit: u64) -> Result<Journal<D>, OpenError>
    requires least { 9 ≤ limit }
    requires most { limit ≤ 67108864 }
    ensures { IfOk result (λ journal. IsSettled D.reads D.kept D.may_leave journal) }
{
    match Journal::open(alloc, disk, limit) {
        Ok(journal) => Ok(journal),
        Err(Unopened { disk: _, error }) => Err(error),
    }
}

#[test]
fn puts_write_their_rows_and_a_new_opening_finds_them(rt: HostRuntime) -> Result<(), Fail> {
    let alloc = rt.alloc();
    let mut journal = opened(
        alloc,
        MemoryDisk::new(alloc, Bytes::new(alloc), 4096)?,
        4096,
    )?;
    assert_eq!(rt; put_once(alloc, &mut journal, DONE)?, 1);
    let disk = journal.into_disk();
    assert_eq!(rt; disk.bytes().len(), 77);
    assert_eq!(rt;
        &disk.bytes()[..23],
        b"GQLGATE1\x01\0\0\0\0\0\0\0\0\x01\0\0\0\x2cm".as_slice()
    );
    assert_eq!(rt; &disk.bytes()[66..], b"\0\0\0\0\0\0\0\x02{}\0".as_slice());
    let mut again = opened(alloc, disk, 4096)?;
    assert_eq!(rt; put_once(alloc, &mut again, NOT_DONE)?, 2);
    assert_eq!(rt; again.rows()?.len(), 2);
    assert_eq!(rt; again.into_disk().bytes().len(), 146);
    Ok(())
}

#[test]
fn one_place_is_used_twice(rt: HostRuntime) -> Result<(), Fail> {
    let alloc = rt.alloc();
    let mut journal = opened(alloc, MemoryDisk::new(alloc, Bytes::new(alloc), 4096)?, 77)?;
    let first = put_once(alloc, &mut journal, DONE)?;
    journal.done(first)?;
    assert_eq!(rt; put_once(alloc, &mut journal, DONE)?, 2);
    assert_eq!(rt;
        put_once(alloc, &mut journal, DONE),
        Err(PutError::Full { need: 68, left: 0 })
    );
    assert_eq!(rt; journal.into_disk().bytes().len(), 77);
    Ok(())
}

#[test]
fn a_row_that_passes_the_limit_is_refused(rt: HostRuntime) -> Result<(), Fail> {
    let alloc = rt.alloc();
    let mut journal = opened(alloc, MemoryDisk::new(alloc, Bytes::new(alloc), 4096)?, 76)?;
    assert_eq!(rt;
        put_once(alloc, &mut journal, DONE),
        Err(PutError::Full { need: 68, left: 67 })
    );
    assert_eq!(rt; journal.into_disk().bytes().len(), 9);
    Ok(())
}
