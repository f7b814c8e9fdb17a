//! The keeper in memory, called through its trait.

use crate::puts::{DONE, put_once};
use offline_queue::{Keeper, MemoryKeeper, PutError};
use std::alloc::Global;
use std::test::Fail;

/// The numbers of the rows that are held.
fn numbers<K: Keeper>(alloc: Global, keeper: &K) -> Result<Vec<u64>, Fail> {
    Ok(
        keeper
            .rows()?
            .as_slice()
            .iter()
            .map(|row| row.seq)
            .collect(alloc)?,
    )
}

#[test]
fn one_place_is_used_twice(rt: HostRuntime) -> Result<(), Fail> {
    let alloc = rt.alloc();
    let mut keeper = MemoryKeeper::new(alloc, 77);
    let first = put_once(alloc, &mut keeper, DONE)?;
    assert_eq!(rt; numbers(alloc, &keeper)?.as_slice(), [1].as_slice());
    keeper.done(first)?;
    let second = put_once(alloc, &mut keeper, DONE)?;
    assert_eq!(rt; (first, second), (1, 2));
    assert_eq!(rt; numbers(alloc, &keeper)?.as_slice(), [2].as_slice());
    assert_eq!(rt;
        put_once(alloc, &mut keeper, DONE),
        Err(PutError::Full { need: 68, left: 0 })
    );
    Ok(())
}

#[test]
fn a_row_that_passes_the_limit_is_refused(rt: HostRuntime) -> Result<(), Fail> {
    let mut keeper = MemoryKeeper::new(rt.alloc(), 76);
    assert_eq!(rt;
        put_once(rt.alloc(), &mut keeper, DONE),
        Err(PutError::Full { need: 68, left: 67 })
    );
    Ok(())
}
