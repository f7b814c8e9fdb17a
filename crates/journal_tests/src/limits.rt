use crate::queues::{DONE, ONE_ROW, disk, opened, put_once};
use offline_queue::{Keeper, MemoryKeeper, OfflineStage, PutError};
use std::test::Fail;

/// A file past the limit is opened, and refuses puts as full. Nothing of it is written.
#[test]
fn a_file_past_the_limit_is_full(rt: HostRuntime) -> Result<(), Fail> {
    let alloc = rt.alloc();
    let mut journal = opened(alloc, disk(alloc, ONE_ROW)?, 50)?;
    assert_eq!(rt; journal.rows()?.len(), 1);
    assert_eq!(rt;
        put_once(alloc, &mut journal, DONE),
        Err(PutError::Full { need: 68, left: 0 })
    );
    assert_eq!(rt; journal.into_disk().bytes(), ONE_ROW);
    Ok(())
}

/// The stage takes a row out by its keeper.
#[test]
fn the_stage_takes_a_row_out(rt: HostRuntime) -> Result<(), Fail> {
    let alloc = rt.alloc();
    let mut keeper = MemoryKeeper::new(alloc, 77);
    let row = put_once(alloc, &mut keeper, DONE)?;
    let mut stage = OfflineStage::new(alloc, keeper);
    assert_eq!(rt; stage.rows()?.len(), 1);
    stage.done(row)?;
    assert!(rt; stage.rows()?.is_empty());
    Ok(())
}
