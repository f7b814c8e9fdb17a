//! Answers that are written to a map, and what is read from it then.

ghost use Rattle.std.specs.Prelude.{◌≡◌, ◌<◌};

use crate::cell_map::CellMap;
use crate::operations::{TODOS, Types};
use crate::reading::told_reading;
use crate::values::answer_of;
use crate::writing::written;
use entity_keys::Steps;
use std::alloc::Global;
use std::marker::Brand;
use std::process::Abort;
use std::sync::ledger::{Blank, Ledger};
use std::test::Fail;

/// Writes the answer of a response's body to a map.
fn write(
    alloc: Global,
    types: &Types,
    map: &mut CellMap,
    query: &str,
    body: &str,
) -> Result<(), Fail> {
    let (answer, errors) = answer_of(alloc, body)?;
    match written(alloc, types, query, &answer, &errors)? {
        Ok(writes) => map.apply(writes),
        Err(_) => Err("the answer doesn't fit")?,
    }
}

/// A user and a todo with its author.
const ANN: (&str, &str) = (
    "{me{id name}}",
    "{\"data\":{\"me\":{\"__typename\":\"User\",\"id\":\"7\",\"name\":\"Ann\"}}}",
);

const AUTHOR: (&str, &str) = (
    "{todo(id:\"1\"){id author{id}}}",
    "{\"data\":{\"todo\":{\"__typename\":\"Todo\",\"id\":\"1\",\"author\":{\"__typename\":\"User\",\"id\":\"7\"}}}}",
);

const LIST: (&str, &str) = (
    "{todos{id}}",
    "{\"data\":{\"todos\":[{\"__typename\":\"Todo\",\"id\":\"1\"}]}}",
);

const TEXTS: (&str, &str) = (
    "{todos{text}}",
    "{\"data\":{\"todos\":[{\"__typename\":\"Todo\",\"text\":\"a\"}]}}",
);

const LARGE: (&str, &str) = (
    "{me{id name}}",
    "{\"data\":{\"me\":{\"__typename\":\"User\",\"id\":9223372036854775807,\"name\":\"Ann\"}}}",
);

const FAILED: (&str, &str) = (
    "{me{id name} todo(id:\"1\"){id}}",
    "{\"data\":{\"me\":null,\"todo\":{\"__typename\":\"Todo\",\"id\":\"1\"}},\"errors\":[{\"message\":\"no\",\"path\":[\"me\",\"name\"]}]}",
);

const TWO: (&str, &str) = (
    "{a:todo(id:\"1\"){id} b:todo(id:\"2.5\"){id}}",
    "{\"data\":{\"a\":{\"__typename\":\"Todo\",\"id\":\"1\"},\"b\":{\"__typename\":\"Todo\",\"id\":\"2.5\"}}}",
);

/// Queries with the bodies of their responses, and the cells that these leave, in the order of their places.
const CELLS: &[(&[(&str, &str)], &str)] = &[
    (
        &[ANN],
        "Query me ->User:7;User:7 __typename =\"User\";User:7 id =\"7\";User:7 name =\"Ann\";",
    ),
    (
        &[FAILED],
        "Query todo({\"id\":\"1\"}) ->Todo:1;Todo:1 __typename =\"Todo\";Todo:1 id =\"1\";",
    ),
    (
        &[ANN, FAILED],
        "Query todo({\"id\":\"1\"}) ->Todo:1;Todo:1 __typename =\"Todo\";Todo:1 id =\"1\";User:7 __typename =\"User\";User:7 id =\"7\";User:7 name =\"Ann\";",
    ),
    (
        &[TWO],
        "Query todo({\"id\":\"1\"}) ->Todo:1;Query todo({\"id\":\"2.5\"}) ->Todo:2%2E5;Todo:1 __typename =\"Todo\";Todo:1 id =\"1\";Todo:2%2E5 __typename =\"Todo\";Todo:2%2E5 id =\"2.5\";",
    ),
    (
        &[LIST, TEXTS],
        "Query todos ->[Query.todos.0@Todo ];Query.todos.0@Todo __typename =\"Todo\";Query.todos.0@Todo text =\"a\";Todo:1 __typename =\"Todo\";Todo:1 id =\"1\";",
    ),
];

/// A map of what the answers of these bodies leave, one after another.
fn map_after(alloc: Global, types: &Types, bodies: &[(&str, &str)]) -> Result<CellMap, Fail> {
    let mut map = CellMap::new(alloc);
    for (query, body) in bodies {
        write(alloc, types, &mut map, query, body)?;
    }
    Ok(map)
}

#[test]
fn answers_leave_cells(rt: HostRuntime) -> Result<(), Fail> {
    let alloc = rt.alloc();
    let types = Types::of(alloc, TODOS)?;
    for (bodies, expected) in CELLS {
        let map = map_after(alloc, &types, bodies)?;
        let told = map.told(alloc)?;
        assert_eq!(rt; told.as_str(), *expected);
    }
    Ok(())
}

/// A query with the body of its response, another query, and what that one reads then.
const READINGS: &[((&str, &str), &str, &str)] = &[
    (
        ANN,
        "{me{name id}}",
        "H {\"me\":{\"name\":\"Ann\",\"id\":\"7\"}} <- Query.me User:7.__typename User:7.name User:7.id",
    ),
    (
        ANN,
        "{me{id nick}}",
        "P {\"me\":{\"id\":\"7\",\"nick\":null}} <- Query.me User:7.__typename User:7.id User:7.nick",
    ),
    (
        AUTHOR,
        "{todo(id:\"1\"){id author{name}}}",
        "P {\"todo\":{\"id\":\"1\",\"author\":null}} <- Query.todo({\"id\":\"1\"}) Todo:1.__typename Todo:1.id Todo:1.author User:7.__typename User:7.name",
    ),
    (
        LIST,
        "{todos{text}}",
        "M <- Query.todos Todo:1.__typename Todo:1.text",
    ),
    (
        TEXTS,
        "{todos{id}}",
        "M <- Query.todos Query.todos.0@Todo.__typename Query.todos.0@Todo.id",
    ),
    (
        LARGE,
        "{me{id name}}",
        "H {\"me\":{\"id\":\"9223372036854775807\",\"name\":\"Ann\"}} <- Query.me User:9223372036854775807.__typename User:9223372036854775807.id User:9223372036854775807.name",
    ),
    (
        FAILED,
        "{me{id name} todo(id:\"1\"){id}}",
        "P {\"me\":null,\"todo\":{\"id\":\"1\"}} <- Query.me Query.todo({\"id\":\"1\"}) Todo:1.__typename Todo:1.id",
    ),
    (
        TWO,
        "{b:todo(id:\"2.5\"){id} a:todo(id:1){id}}",
        "H {\"b\":{\"id\":\"2.5\"},\"a\":{\"id\":\"1\"}} <- Query.todo({\"id\":\"2.5\"}) Todo:2%2E5.__typename Todo:2%2E5.id Query.todo({\"id\":\"1\"}) Todo:1.__typename Todo:1.id",
    ),
];

fn read_rows<L: Ledger>(rt: &(impl Abort + AllocGlobal), blank: Blank) -> Result<(), Fail>
    requires name { blank.name ≡ L.name }
    requires parts { blank.parts ≡ L.parts }
    requires some { 0 < blank.parts }
{
    let alloc = rt.alloc();
    let mut steps = Steps::<L>::new(blank);
    let types = Types::of(alloc, TODOS)?;
    for (answered, query, expected) in READINGS {
        let map = map_after(alloc, &types, &[*answered])?;
        let told = told_reading(alloc, &types, query, &map, &mut steps)?;
        assert_eq!(rt; told.as_str(), *expected);
    }
    Ok(())
}

#[test]
fn answers_are_read(rt: HostRuntime) -> Result<(), Fail> {
    read_rows::<Brand>(&rt, Blank::new(1))
}
