use cache_model::{Cell, EntityKey, FieldKey, Link, Links, Write};
use gql_value::Value;
use std::alloc::Global;
use std::test::Fail;
use text_types::Text;

fn entity(alloc: Global, text: &str) -> Result<EntityKey, Fail> {
    Ok(EntityKey::from_text(Text::from_str(alloc, text)?))
}

fn field(alloc: Global, text: &str) -> Result<FieldKey, Fail> {
    Ok(FieldKey::from_text(Text::from_str(alloc, text)?))
}

fn linked(alloc: Global, text: &str) -> Result<Cell, Fail> {
    let mut links = Links::new(alloc);
    links.push(Link::Null)?;
    links.push(Link::Entity(entity(alloc, text)?))?;
    Ok(Cell::Link(Link::List(links)))
}

fn write(alloc: Global, at: usize) -> Result<Write, Fail> {
    let todo = entity(alloc, "Todo:1")?;
    Ok(match at {
        0 => Write::Set(todo, field(alloc, "author")?, Cell::Leaf(Value::Null)),
        1 => Write::Set(todo, field(alloc, "author")?, Cell::Link(Link::Null)),
        2 => Write::Set(todo, field(alloc, "author")?, linked(alloc, "User:1")?),
        3 => Write::Set(todo, field(alloc, "author")?, linked(alloc, "User:2")?),
        4 => Write::Drop(todo, field(alloc, "author")?),
        5 => Write::DropName(todo, Text::from_str(alloc, "author")?),
        6 => Write::DropAll(todo),
        _ => Write::DropAll(entity(alloc, "User:1")?),
    })
}

#[test]
fn a_copy_is_the_same(rt: HostRuntime) -> Result<(), Fail> {
    for at in 0..8 {
        let first = write(rt.alloc(), at)?;
        let copy = first.copy(rt.alloc())?;
        for other_at in 0..8 {
            let same = copy.same(&write(rt.alloc(), other_at)?);
            assert_eq!(rt; same, at == other_at, "at {at} beside {other_at}");
        }
        assert!(rt; copy.entity().same(first.entity()), "at {at}");
    }
    Ok(())
}
