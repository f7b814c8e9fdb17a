use cache_model::{Cell, Cells, EntityKey, FieldKey, Link, Links};
use gql_model::OperationKind;
use gql_value::{Fault, Value, Values};
use machine_model::{Ending, Out, Refusal, Tickets};
use output_lines::line_of;
use std::alloc::Global;
use std::test::Fail;
use text_types::{Bytes, Memory, Text};

/// The lines of the outputs below, in their order.
const LINES: &[&str] = &[
    "{\"out\":\"reply\",\"id\":1,\"data\":null,\"partial\":true,\"stale\":false}\n",
    "{\"out\":\"reply\",\"id\":2,\"data\":7,\"errors\":[null,\"\\u0001\"],\"partial\":false,\"stale\":true}\n",
    "{\"out\":\"fault\",\"id\":1,\"code\":\"F1\"}\n",
    "{\"out\":\"fault\",\"id\":1,\"code\":\"F3\",\"path\":\"data.\\\"\"}\n",
    "{\"out\":\"fault\",\"id\":1,\"code\":\"F5\",\"status\":500}\n",
    "{\"out\":\"fault\",\"id\":1,\"code\":\"E13\"}\n",
    "{\"out\":\"queued\",\"id\":1,\"row\":18446744073709551615}\n",
    "{\"out\":\"refused\",\"line\":3,\"code\":\"E6\",\"row\":1,\"column\":13}\n",
    "{\"out\":\"refused\",\"line\":4,\"code\":\"E8\",\"rule\":10}\n",
    "{\"out\":\"refused\",\"line\":5,\"code\":\"E9\",\"variable\":\"id\"}\n",
    "{\"out\":\"refused\",\"line\":6,\"code\":\"E17\"}\n",
    "{\"out\":\"layers\",\"base\":0,\"kept\":[]}\n",
    "{\"out\":\"layers\",\"base\":1,\"kept\":[2,3]}\n",
    "{\"out\":\"flat\",\"cells\":[]}\n",
    "{\"out\":\"flat\",\"cells\":[[\"Query\",\"me\",{\"link\":[null,\"User:7\"]}],[\"User:7\",\"id\",{\"leaf\":7}]]}\n",
    "{\"out\":\"fetch\",\"fetch\":1,\"query\":\"{me}\",\"operationName\":null,\"variables\":{}}\n",
    "{\"out\":\"fetch\",\"fetch\":2,\"query\":\"\\\"\",\"operationName\":\"A\",\"variables\":{\"n\":1}}\n",
    "{\"out\":\"cancel\",\"fetch\":1}\n",
];

#[test]
fn each_output_has_its_line(rt: HostRuntime) -> Result<(), Fail> {
    for (at, line) in LINES.iter().enumerate() {
        let mut text = Bytes::new(rt.alloc());
        line_of(&output(rt.alloc(), at)?, &mut text)?;
        assert_eq!(rt; text.as_slice(), line.as_bytes(), "output {at}");
    }
    Ok(())
}

fn output(alloc: Global, at: usize) -> Result<Out, Memory> {
    match at {
        0..2 => reply(alloc, at),
        2..7 => ended(alloc, at),
        7..11 => Ok(Out::Refused {
            peer: 0,
            line: at as u64 - 4,
            refusal: refusal(alloc, at)?,
        }),
        11..13 => layers(alloc, at),
        13..15 => flat(alloc, at),
        15 => fetch(alloc, 1, "{me}", None, "{}"),
        16 => fetch(alloc, 2, "\"", Some("A"), "{\"n\":1}"),
        _ => Ok(Out::Cancel { fetch: 1 }),
    }
}

fn reply(alloc: Global, at: usize) -> Result<Out, Memory> {
    let mut errors = Values::new(alloc);
    if at == 0 {
        return Ok(Out::Reply {
            peer: 0,
            id: 1,
            answer: Value::Null,
            errors: Value::List(errors),
            partial: true,
            stale: false,
        });
    }
    errors.push(Value::Null)?;
    errors.push(Value::Text(Text::from_str(alloc, "\u{1}")?))?;
    Ok(Out::Reply {
        peer: 0,
        id: 2,
        answer: Value::Int(7),
        errors: Value::List(errors),
        partial: false,
        stale: true,
    })
}

fn ended(alloc: Global, at: usize) -> Result<Out, Memory> {
    let ending = match at {
        2 => Ending::Outside(Fault::F1),
        3 => Ending::Outside(Fault::F3 {
            path: Text::from_str(alloc, "data.\"")?,
        }),
        4 => Ending::Outside(Fault::F5 { status: 500 }),
        5 => Ending::QueueFull,
        _ => return Ok(Out::Queued {
            peer: 0,
            id: 1,
            row: u64::MAX,
        }),
    };
    Ok(Out::Fault {
        peer: 0,
        id: 1,
        ending,
    })
}

fn refusal(alloc: Global, at: usize) -> Result<Refusal, Memory> {
    Ok(match at {
        7 => Refusal::E6 { row: 1, column: 13 },
        8 => Refusal::E8 { rule: 10 },
        9 => Refusal::E9 {
            variable: Text::from_str(alloc, "id")?,
        },
        _ => Refusal::E17,
    })
}

fn layers(alloc: Global, at: usize) -> Result<Out, Memory> {
    let mut kept = Tickets::new(alloc);
    if at == 11 {
        return Ok(Out::Layers {
            peer: 0,
            base: 0,
            kept,
        });
    }
    kept.push(2)?;
    kept.push(3)?;
    Ok(Out::Layers {
        peer: 0,
        base: 1,
        kept,
    })
}

fn flat(alloc: Global, at: usize) -> Result<Out, Memory> {
    let mut cells = Cells::new(alloc);
    if at == 14 {
        let mut links = Links::new(alloc);
        links.push(Link::Null)?;
        links.push(Link::Entity(EntityKey::from_text(Text::from_str(alloc, "User:7")?)))?;
        cells.push(placed(alloc, "Query", "me", Cell::Link(Link::List(links)))?)?;
        cells.push(placed(alloc, "User:7", "id", Cell::Leaf(Value::Int(7)))?)?;
    }
    Ok(Out::Flat { peer: 0, cells })
}

fn placed(
    alloc: Global,
    entity: &str,
    field: &str,
    cell: Cell,
) -> Result<(EntityKey, FieldKey, Cell), Memory> {
    Ok((
        EntityKey::from_text(Text::from_str(alloc, entity)?),
        FieldKey::from_text(Text::from_str(alloc, field)?),
        cell,
    ))
}

fn fetch(
    alloc: Global,
    fetch: u64,
    query: &str,
    name: Option<&str>,
    variables: &str,
) -> Result<Out, Memory> {
    let operation = match name {
        None => None,
        Some(name) => Some(Text::from_str(alloc, name)?),
    };
    Ok(Out::Fetch {
        fetch,
        kind: OperationKind::Query,
        query: Text::from_str(alloc, query)?,
        operation,
        variables: Text::from_str(alloc, variables)?,
    })
}
