//! Calls made from a number, beside a plain list of contents, and each call that reads once.

ghost use Rattle.std.specs.Prelude.{◌≡◌, ◌<◌};

use cache_model::{Cell, EntityKey, FieldKey, Kind, Write, Writes};
use entity_keys::{Lookup, Steps, covers};
use gql_value::Value;
use layer_store::Store;
use std::alloc::Global;
use std::marker::Brand;
use std::process::Abort;
use std::sync::ledger::{Blank, Ledger};
use std::test::Fail;
use text_types::Text;

const CELLS: [(&str, &str); 4] = [
    ("A", "todo"),
    ("A", "todo(1)"),
    ("A", "todos"),
    ("B", "todo"),
];

/// A content as it was filled, its writes as numbers.
#[derive(Drop)]
struct Plain {
    writes: Vec<u32>,
    finished: bool,
}

fn entity(alloc: Global, text: &str) -> Result<EntityKey, Fail> {
    Ok(EntityKey::from_text(Text::from_str(alloc, text)?))
}

fn field(alloc: Global, text: &str) -> Result<FieldKey, Fail> {
    Ok(FieldKey::from_text(Text::from_str(alloc, text)?))
}

fn write(alloc: Global, number: u32) -> Result<Write, Fail> {
    let object = entity(alloc, if number % 2 == 0 { "A" } else { "B" })?;
    let cell = Cell::Leaf(Value::Int(i64::from(number)));
    Ok(match number / 2 % 6 {
        0 => Write::Set(object, field(alloc, "todo")?, cell),
        1 => Write::Set(object, field(alloc, "todo(1)")?, cell),
        2 => Write::Set(object, field(alloc, "todos")?, cell),
        3 => Write::Drop(object, field(alloc, "todo")?),
        4 => Write::DropName(object, Text::from_str(alloc, "todo")?),
        _ => Write::DropAll(object),
    })
}

fn number_of(cell: Option<&Cell>) -> Option<i64> {
    match cell {
        Some(Cell::Leaf(Value::Int(number))) => Some(*number),
        _ => None,
    }
}

fn set_number(write: &Write) -> Option<i64> {
    match write {
        Write::Set(_, _, cell) => number_of(Some(cell)),
        _ => None,
    }
}

/// What the last write that covers the cell leaves there.
fn plain_number(
    alloc: Global,
    contents: &[Plain],
    entity: &EntityKey,
    field: &FieldKey,
) -> Result<Option<i64>, Fail> {
    let mut found = None;
    for content in contents {
        for number in &content.writes {
            let write = write(alloc, *number)?;
            if covers(&write, entity, field) {
                found = set_number(&write);
            }
        }
    }
    Ok(found)
}

fn fill(
    alloc: Global,
    store: &mut Store,
    contents: &mut Vec<Plain>,
    ticket: u64,
    number: u32,
) -> Result<(), Fail> {
    if !store.is_open(ticket) {
        return Ok(());
    }
    let kind = if number % 3 == 0 {
        Kind::Optimistic
    } else {
        Kind::Final
    };
    let mut writes = Writes::new(alloc);
    let mut numbers = Vec::new(alloc);
    for at in 0..number % 4 {
        let one = (number >> (4 * at)) % 97;
        writes.push(write(alloc, one)?)?;
        numbers.push(one)?;
    }
    store.fill(ticket, writes, kind)?;
    if let Some(content) = contents.get_mut(ticket as usize - 1) {
        content.writes = numbers;
    }
    Ok(())
}

/// One call, as the number says, on the store and on the list.
fn step(
    alloc: Global,
    store: &mut Store,
    contents: &mut Vec<Plain>,
    number: u32,
) -> Result<(), Fail> {
    let ticket = u64::from(number / 8) % (contents.len() as u64 + 1);
    match number % 8 {
        0 | 1 => {
            if store.reserve().is_ok() {
                contents.push(Plain {
                    writes: Vec::new(alloc),
                    finished: false,
                })?;
            }
        }
        2 => store.squash()?,
        3 => {
            if store.can_finish(ticket) {
                store.finish(ticket);
                if let Some(content) = contents.get_mut(ticket as usize - 1) {
                    content.finished = true;
                }
            }
        }
        _ => fill(alloc, store, contents, ticket, number / 8)?,
    }
    Ok(())
}

/// How many contents stand before the first that isn't finished.
fn finished_front(contents: &[Plain]) -> usize {
    contents
        .iter()
        .position(|content| !content.finished)
        .unwrap_or(contents.len())
}

/// Looks cells up after each of many calls.
fn calls<L: Ledger>(rt: &(impl Abort + AllocGlobal), blank: Blank) -> Result<(), Fail>
    requires name { blank.name ≡ L.name }
    requires parts { blank.parts ≡ L.parts }
    requires some { 0 < blank.parts }
{
    let alloc = rt.alloc();
    let mut steps = Steps::<L>::new(blank);
    let mut store = Store::new(alloc);
    let mut contents = Vec::new(alloc);
    let mut number: u32 = 2026;
    for turn in 0..120 {
        number = number.wrapping_mul(1_664_525).wrapping_add(1_013_904_223);
        step(alloc, &mut store, &mut contents, number >> 8)?;
        assert!(rt; store.base_len() as usize <= finished_front(&contents));
        for (object, name) in CELLS {
            let object = entity(alloc, object)?;
            let name = field(alloc, name)?;
            let wanted = plain_number(alloc, &contents, &object, &name)?;
            assert_eq!(rt;
                number_of(store.lookup(&object, &name, &mut steps)),
                wanted,
                "turn {turn}"
            );
        }
    }
    store.squash()?;
    assert_eq!(rt; store.base_len() as usize, finished_front(&contents));
    assert!(rt; store.base_len() > 0);
    Ok(())
}

#[test]
fn calls_made_from_a_number(rt: HostRuntime) -> Result<(), Fail> {
    calls::<Brand>(&rt, Blank::new(1))
}

fn reads<L: Ledger>(rt: &(impl Abort + AllocGlobal), blank: Blank) -> Result<(), Fail>
    requires name { blank.name ≡ L.name }
    requires parts { blank.parts ≡ L.parts }
    requires some { 0 < blank.parts }
{
    let alloc = rt.alloc();
    let mut steps = Steps::<L>::new(blank);
    let mut store = Store::new(alloc);
    let first = store.reserve().ok().ok_or("no ticket")?;
    assert_eq!(rt; store.reserve(), Ok(2));
    if store.is_open(first) {
        let mut writes = Writes::new(alloc);
        writes.push(write(alloc, 1)?)?;
        writes.push(write(alloc, 2)?)?;
        writes.push(write(alloc, 0)?)?;
        store.fill(first, writes, Kind::Optimistic)?;
    }
    let object = entity(alloc, "A")?;
    let name = field(alloc, "todo")?;
    assert_eq!(rt;
        number_of(store.lookup(&object, &name, &mut steps)),
        Some(0)
    );
    assert!(rt; store.touched(&object, &name));
    let cells = store.flat(&mut steps)?;
    assert_eq!(rt; cells.len(), 3);
    let places = [("A", "todo", 0), ("A", "todo(1)", 2), ("B", "todo", 1)];
    for (cell, place) in cells.as_slice().iter().zip(places.iter()) {
        assert!(rt; cell.0.as_text().is(place.0) && cell.1.as_text().is(place.1));
        assert_eq!(rt; number_of(Some(&cell.2)), Some(place.2));
    }
    Ok(())
}

#[test]
fn each_call_reads_what_was_filled(rt: HostRuntime) -> Result<(), Fail> {
    reads::<Brand>(&rt, Blank::new(1))
}
