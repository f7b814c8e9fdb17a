use dependents::Index;
use entity_keys::{Cell, EntityKey, FieldKey, Visited, Write, Writes};
use gql_value::Value;
use std::alloc::Global;
use std::test::Fail;
use text_types::Text;

fn entity(alloc: Global, key: &str) -> Result<EntityKey, Fail> {
    Ok(EntityKey::from_text(Text::from_str(alloc, key)?))
}

fn field(alloc: Global, key: &str) -> Result<FieldKey, Fail> {
    Ok(FieldKey::from_text(Text::from_str(alloc, key)?))
}

fn visited(alloc: Global, cell: (&str, &str)) -> Result<Visited, Fail> {
    let mut visited = Visited::new(alloc);
    visited.push((entity(alloc, cell.0)?, field(alloc, cell.1)?))?;
    Ok(visited)
}

fn set(alloc: Global, cell: (&str, &str)) -> Result<Write, Fail> {
    Ok(Write::Set(
        entity(alloc, cell.0)?,
        field(alloc, cell.1)?,
        Cell::Leaf(Value::Null),
    ))
}

fn drop_of(alloc: Global, cell: (&str, &str)) -> Result<Write, Fail> {
    Ok(Write::Drop(entity(alloc, cell.0)?, field(alloc, cell.1)?))
}

fn drop_name(alloc: Global, cell: (&str, &str)) -> Result<Write, Fail> {
    Ok(Write::DropName(entity(alloc, cell.0)?, Text::from_str(alloc, cell.1)?))
}

fn queries(alloc: Global) -> Result<Index, Fail> {
    let mut index = Index::new(alloc);
    for (sub, cell) in [
        (7, ("Todo:1", "text")),
        (2, ("Todo:1", "text")),
        (3, ("Query", "todos({\"first\":1})")),
        (4, ("Query", "todosCount")),
        (5, ("Todo:1", "text")),
        (2, ("Todo:1", "done")),
    ] {
        index.put(sub, &visited(alloc, cell)?)?;
    }
    index.take(5);
    Ok(index)
}

fn woken(alloc: Global, index: &Index, write: Write) -> Result<Vec<u64>, Fail> {
    let mut writes = Writes::new(alloc);
    writes.push(write)?;
    Ok(index.woken(&writes)?.into_vec())
}

#[test]
fn queries_wake_by_what_they_visited_last(rt: HostRuntime) -> Result<(), Fail> {
    let alloc = rt.alloc();
    let index = queries(alloc)?;
    let by_set = woken(alloc, &index, set(alloc, ("Todo:1", "text"))?)?;
    assert_eq!(rt; by_set.as_slice(), [7].as_slice());
    let by_drop = woken(alloc, &index, drop_of(alloc, ("Todo:1", "done"))?)?;
    assert_eq!(rt; by_drop.as_slice(), [2].as_slice());
    let by_name = woken(alloc, &index, drop_name(alloc, ("Query", "todos"))?)?;
    assert_eq!(rt; by_name.as_slice(), [3].as_slice());
    let by_entity = woken(alloc, &index, Write::DropAll(entity(alloc, "Todo:1")?))?;
    assert_eq!(rt; by_entity.as_slice(), [2, 7].as_slice());
    Ok(())
}
