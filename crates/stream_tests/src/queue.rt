//! A queue of commands that is run, and what waits by id.
use std::alloc::Global;
use std::collections::VecDeque;
use std::test::Fail;
use stream_core::{Pending, Weighed, drain, drain_with};
use text_types::Memory;

/// A command that counts down.
#[derive(Drop)]
struct Count(u64);

impl Weighed for Count {
    ghost use Rattle.std.specs.Prelude.{◌+◌};

    ghost weight = { λ c. c.0 + 1 };
}

ghost use Rattle.std.specs.Prelude.{OnOk, sum_by, ◌+◌, ◌<◌};

/// Notes the number, and puts the one below it at the end of the queue.
fn count_down(noted: &mut Vec<u64>, count: Count, queue: &mut VecDeque<Count>) -> Result<(), Memory>
    ensures { OnOk result (sum_by (λ c. c.0 + 1) queue.new.items < (count.0 + 1) + sum_by (λ c. c.0 + 1) queue.old.items) }
{
    noted.push(count.0)?;
    if count.0 > 0 {
        queue.push_back(Count(count.0 - 1))?;
    }
    Ok(())
}

fn two_and_one(alloc: Global) -> Result<VecDeque<Count>, Memory> {
    let mut queue = VecDeque::new(alloc);
    queue.push_back(Count(2))?;
    queue.push_back(Count(1))?;
    Ok(queue)
}

#[test]
fn the_first_in_is_run_first(rt: HostRuntime) -> Result<(), Fail> {
    let alloc = rt.alloc();
    let mut noted = Vec::new(alloc);
    let mut queue = two_and_one(alloc)?;
    drain_with(
        &mut queue,
        &mut |count: Count, queue: &mut VecDeque<Count>| { count_down(&mut noted, count, queue) },
    )?;
    assert_eq!(rt; noted.as_slice(), [2u64, 1, 1, 0, 0].as_slice());
    assert!(rt; queue.is_empty());
    Ok(())
}

#[test]
fn a_run_ends_with_the_queue_empty(rt: HostRuntime) -> Result<(), Fail> {
    let alloc = rt.alloc();
    let mut noted = Vec::new(alloc);
    let mut queue = two_and_one(alloc)?;
    drain(&mut queue, |count: Count, queue: &mut VecDeque<Count>| {
        count_down(&mut noted, count, queue)
    })?;
    assert!(rt; queue.is_empty());
    Ok(())
}

#[test]
fn what_waits_is_remembered_by_its_id(rt: HostRuntime) -> Result<(), Fail> {
    let mut pending = Pending::new(rt.alloc());
    pending.put(3, 7u64)?;
    pending.put(3, 8)?;
    assert_eq!(rt; pending.get(3).copied(), Some(8));
    assert_eq!(rt; pending.take(4), None);
    assert_eq!(rt; pending.take(3), Some(8));
    assert_eq!(rt; pending.get(3).copied(), None);
    Ok(())
}
