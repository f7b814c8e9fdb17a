use gql_copying::CopyIn;
use gql_model::{Argument, Literal, LiteralValue, Name};
use gql_tokens::Place;
use std::alloc::Global;
use std::test::Fail;
use text_types::{Items, Memory, Text};

const PLACE: Place = Place { row: 1, column: 1 };

fn name(alloc: Global, of: &str) -> Result<Name, Memory> {
    Ok(Name {
        place: PLACE,
        text: Text::from_str(alloc, of)?,
    })
}

fn argument(alloc: Global) -> Result<Argument, Memory> {
    let mut items = Items::new(alloc);
    items.push(Literal {
        place: PLACE,
        value: LiteralValue::Variable(Text::from_str(alloc, "b")?),
    })?;
    Ok(Argument {
        name: name(alloc, "a")?,
        value: Literal {
            place: PLACE,
            value: LiteralValue::List(items),
        },
    })
}

#[test]
fn parts_are_copied(rt: HostRuntime) -> Result<(), Fail> {
    let alloc = rt.alloc();
    let copy = Some(argument(alloc)?).copy_in(alloc)?;
    let argument = copy.ok_or("nothing")?;
    assert!(rt; argument.name.text.is("a"));
    assert!(rt; matches!(&argument.value.value, LiteralValue::List(items) if items.len() == 1));
    Ok(())
}
