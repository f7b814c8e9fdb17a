use crate::queues::{DONE, NOT_DONE, ONE_ROW, TWO_ROWS, disk, opened, put_once};
use gate_outside::MemoryDisk;
use offline_queue::Keeper;
use queue_journal::{Journal, OpenError, Unopened};
use std::alloc::Global;
use std::test::Fail;

#[test]
fn puts_leave_their_records(rt: HostRuntime) -> Result<(), Fail> {
    let alloc = rt.alloc();
    let mut journal = opened(alloc, disk(alloc, b"")?, 4096)?;
    put_once(alloc, &mut journal, DONE)?;
    let one = journal.into_disk();
    assert_eq!(rt; one.bytes(), ONE_ROW);
    assert_eq!(rt; one.bytes().len(), 77);
    let mut again = opened(alloc, one, 4096)?;
    put_once(alloc, &mut again, NOT_DONE)?;
    let both = again.into_disk();
    assert_eq!(rt; both.bytes(), TWO_ROWS);
    assert_eq!(rt; both.bytes().len(), 146);
    Ok(())
}

/// A name, a file, the numbers of the rows that an opening finds or None where it refuses the file, and
/// the file after it.
type Row = (
    &'static str,
    &'static [u8],
    Option<&'static [u64]>,
    &'static [u8],
);

const NONE: &[u64] = &[];

const ONE: &[u64] = &[1];

const BOTH: &[u64] = &[1, 2];

const FIFTH: &[u64] = &[5];

/// A file without rows.
const NEW: &[u8] = b"GQLGATE1\0";

/// A row that is done, one that is held, and what means nothing behind them.
const SECOND_HELD: &[u8] =
    b"GQLGATE1\x01\x01\0\0\0\0\0\0\0\x01\0\0\0\0\0\0\0\0\0\0\0\0\x01\0\0\0\0\0\0\0\0\x05\0\0\0\0\0\0\0\0\0\0\0\x01a\x02rest";

const ALL_DONE: &[u8] = b"GQLGATE1\x01\x01\0\0\0\0\0\0\0\x01\0\0\0\0\0\0\0\0\0\0\0\0\0";

const FALLING: &[u8] =
    b"GQLGATE1\x01\0\0\0\0\0\0\0\0\x02\0\0\0\0\0\0\0\0\0\0\0\0\x01\0\0\0\0\0\0\0\0\x01\0\0\0\0\0\0\0\0\0\0\0\0\0";

const BROKEN_OFF: &[u8] = b"GQLGATE1\x01\0\0\0\0\0\0\0\0\x01\0\0\0\0\0\0\0\0\0\0\0\x02a";

const NO_TEXT: &[u8] = b"GQLGATE1\x01\0\0\0\0\0\0\0\0\x01\0\0\0\x01\xff\0\0\0\0\0\0\0\0\0";

const ROWS: [Row; 13] = [
    ("nothing", b"", Some(NONE), NEW),
    ("five other bytes", b"hello", Some(NONE), NEW),
    ("nine other bytes", b"hello, wo", Some(NONE), NEW),
    (
        "an open commit byte alone",
        b"GQLGATE1\x01",
        Some(NONE),
        NEW,
    ),
    ("a foreign file", b"hello, world", None, b"hello, world"),
    (
        "another number in the magic",
        b"GQLGATE2\0\0",
        None,
        b"GQLGATE2\0\0",
    ),
    ("one row", ONE_ROW, Some(ONE), ONE_ROW),
    ("two rows", TWO_ROWS, Some(BOTH), TWO_ROWS),
    ("a row that is done", SECOND_HELD, Some(FIFTH), SECOND_HELD),
    ("rows that are all done", ALL_DONE, Some(NONE), NEW),
    ("numbers that fall", FALLING, None, FALLING),
    ("a record that breaks off", BROKEN_OFF, None, BROKEN_OFF),
    ("a text that isn't UTF-8", NO_TEXT, None, NO_TEXT),
];

/// The numbers of the rows that an opening finds, and the disk after it.
fn found(alloc: Global, disk: MemoryDisk) -> Result<(Option<Vec<u64>>, MemoryDisk), Fail> {
    match Journal::open(alloc, disk, 4096) {
        Ok(journal) => {
            let rows = journal.rows()?;
            let numbers = rows.as_slice().iter().map(|row| row.seq).collect(alloc)?;
            Ok((Some(numbers), journal.into_disk()))
        }
        Err(Unopened { disk, error }) => {
            if error == OpenError::NotAJournal {
                Ok((None, disk))
            } else {
                Err(error.into())
            }
        }
    }
}

#[test]
fn files_are_opened_or_refused_and_left(rt: HostRuntime) -> Result<(), Fail> {
    let alloc = rt.alloc();
    for (name, file, numbers, after) in ROWS {
        let (rows, disk) = found(alloc, disk(alloc, file)?)?;
        assert_eq!(rt;
            rows.as_ref().map(|rows| rows.as_slice()),
            numbers,
            "{name}"
        );
        assert_eq!(rt; disk.bytes(), after, "{name}");
    }
    Ok(())
}
