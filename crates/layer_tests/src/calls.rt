//! Calls made from a number, on the store and on the list.

ghost use Rattle.std.specs.Prelude.{◌≡◌, ◌<◌};

use crate::contents::{Plain, finished_front, write};
use crate::shown::{assert_cells, assert_held_back, spots};
use cache_model::{Kind, Writes};
use entity_keys::Steps;
use layer_store::Store;
use std::alloc::Global;
use std::marker::Brand;
use std::process::Abort;
use std::sync::ledger::{Blank, Ledger};
use std::test::Fail;

/// How many calls are made.
const CALLS: u32 = 300;

/// Up to three writes for a ticket that is open, some of them as a guess.
fn fill(
    alloc: Global,
    store: &mut Store,
    contents: &mut Vec<Plain>,
    ticket: u64,
    number: u32,
) -> Result<(), Fail> {
    if !store.is_open(ticket) {
        return Ok(());
    }
    let kind = if number % 3 == 0 {
        Kind::Optimistic
    } else {
        Kind::Final
    };
    let mut writes = Writes::new(alloc);
    let mut numbers = Vec::new(alloc);
    for at in 0..number % 4 {
        let one = (number >> (4 * at)) % 97;
        writes.push(write(alloc, one)?)?;
        numbers.push(one)?;
    }
    store.fill(ticket, writes, kind)?;
    if let Some(content) = contents.get_mut(ticket as usize - 1) {
        content.writes = numbers;
        content.kind = kind;
    }
    Ok(())
}

/// Takes back what a ticket that is open has.
fn give_up(
    alloc: Global,
    store: &mut Store,
    contents: &mut Vec<Plain>,
    ticket: u64,
) -> Result<(), Fail> {
    if !store.is_open(ticket) {
        return Ok(());
    }
    store.fill(ticket, Writes::new(alloc), Kind::Empty)?;
    if let Some(content) = contents.get_mut(ticket as usize - 1) {
        content.writes = Vec::new(alloc);
        content.kind = Kind::Empty;
    }
    Ok(())
}

/// One call, as the number says, on the store and on the list.
fn step(
    alloc: Global,
    store: &mut Store,
    contents: &mut Vec<Plain>,
    number: u32,
) -> Result<(), Fail> {
    let ticket = u64::from(number / 16) % (contents.len() as u64 + 1);
    match number % 16 {
        0 | 1 | 2 => {
            if store.reserve().is_ok() {
                contents.push(Plain {
                    writes: Vec::new(alloc),
                    kind: Kind::Empty,
                    finished: false,
                })?;
            }
        }
        3 | 4 => store.squash()?,
        5 => give_up(alloc, store, contents, ticket)?,
        6 | 7 | 8 => {
            if store.can_finish(ticket) {
                store.finish(ticket);
                if let Some(content) = contents.get_mut(ticket as usize - 1) {
                    content.finished = true;
                }
            }
        }
        _ => fill(alloc, store, contents, ticket, number / 16)?,
    }
    Ok(())
}

/// Compares the store with the list after each of many calls.
fn calls<L: Ledger>(rt: &(impl Abort + AllocGlobal), blank: Blank) -> Result<(), Fail>
    requires name { blank.name ≡ L.name }
    requires parts { blank.parts ≡ L.parts }
    requires some { 0 < blank.parts }
{
    let alloc = rt.alloc();
    let mut steps = Steps::<L>::new(blank);
    let spots = spots(alloc)?;
    let mut store = Store::new(alloc);
    let mut contents = Vec::new(alloc);
    let mut number: u32 = 1;
    for _ in 0..CALLS {
        number = number.wrapping_mul(1_664_525).wrapping_add(1_013_904_223);
        step(alloc, &mut store, &mut contents, number >> 8)?;
        assert!(rt; store.base_len() as usize <= finished_front(&contents));
        assert_cells(rt, alloc, &store, &contents, &spots, &mut steps)?;
        assert_held_back(
            rt,
            alloc,
            &store,
            &contents,
            &spots,
            u64::from(number >> 16),
        )?;
    }
    store.squash()?;
    assert_eq!(rt; store.base_len() as usize, finished_front(&contents));
    assert!(rt; store.base_len() > 0 && store.kept() > 0);
    Ok(())
}

#[test]
fn calls_made_from_a_number(rt: HostRuntime) -> Result<(), Fail> {
    calls::<Brand>(&rt, Blank::new(1))
}
