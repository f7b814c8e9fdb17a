use crate::operations::{NODES, Types, operation};
use crate::sending::as_sent;
use crate::telling::{push_cell, push_place};
use crate::values::answered;
use cache_model::{Write, Writes};
use entity_keys::KeyRules;
use gql_value::Value;
use op_keys::fronts;
use result_writer::{WriteError, writes_of};
use schema_model::Table;
use std::alloc::Global;
use std::test::Fail;
use text_types::Text;

/// The writes of an answer to a query, or the first place that doesn't fit.
pub(crate) fn written(
    alloc: Global,
    types: &Types,
    query: &str,
    answer: &Value,
    errors: &Value,
) -> Result<Result<Writes, Text>, Fail> {
    let operation = operation(alloc, types, query)?;
    let variables = Table::new(alloc);
    let fronts = fronts(alloc, &types.schema, &operation.document)?;
    let asking = as_sent(alloc, types, &operation, &variables, fronts.as_slice())?;
    let keys = KeyRules::new(alloc);
    match writes_of(alloc, &asking, &keys, answer, errors) {
        Ok(writes) => Ok(Ok(writes)),
        Err(WriteError::Shape { path }) => Ok(Err(path)),
        Err(WriteError::Memory) => Err("out of memory")?,
    }
}

/// The writes of a response's body, or the first place that doesn't fit behind a `!`.
fn told(alloc: Global, types: &Types, query: &str, body: &str) -> Result<Text, Fail> {
    match answered(alloc, body)? {
        Ok((answer, errors)) => told_writes(alloc, written(alloc, types, query, &answer, &errors)?),
        Err(path) => told_misfit(alloc, &path),
    }
}

fn told_misfit(alloc: Global, path: &Text) -> Result<Text, Fail> {
    let mut text = Text::from_str(alloc, "!")?;
    text.push(path)?;
    Ok(text)
}

fn told_writes(alloc: Global, written: Result<Writes, Text>) -> Result<Text, Fail> {
    match written {
        Ok(writes) => told_in_order(alloc, writes.as_slice()),
        Err(path) => told_misfit(alloc, &path),
    }
}

fn told_in_order(alloc: Global, writes: &[Write]) -> Result<Text, Fail> {
    let mut text = Text::new(alloc);
    for write in writes {
        push_write(alloc, &mut text, write)?;
    }
    Ok(text)
}

/// A write of a cell, or of none.
fn push_write(alloc: Global, text: &mut Text, write: &Write) -> Result<(), Fail> {
    match write {
        Write::Set(entity, field, cell) => push_cell(alloc, text, entity, field, cell),
        Write::Drop(entity, field) => {
            push_place(text, entity, field)?;
            text.push_str("dropped;")?;
            Ok(())
        }
        _ => Err("no write of an answer")?,
    }
}

/// A query, the body of its response, and what is written.
const ANSWERS: &[(&str, &str, &str)] = &[
    (
        "{me{id name}}",
        "{\"data\":{\"me\":{\"__typename\":\"User\",\"id\":\"7\",\"name\":\"Ann\"}}}",
        "Query me ->User:7;User:7 __typename =\"User\";User:7 id =\"7\";User:7 name =\"Ann\";",
    ),
    (
        "{me{id}}",
        "{\"data\":{\"me\":{\"__typename\":\"User\",\"id\":9223372036854775807}}}",
        "Query me ->User:9223372036854775807;User:9223372036854775807 __typename =\"User\";User:9223372036854775807 id =\"9223372036854775807\";",
    ),
    (
        "{me{id name} todo(id:\"1\"){id}}",
        "{\"data\":{\"me\":null,\"todo\":{\"__typename\":\"Todo\",\"id\":\"1\"}},\"errors\":[{\"message\":\"no\",\"path\":[\"me\",\"name\"]}]}",
        "Query me dropped;Query todo({\"id\":\"1\"}) ->Todo:1;Todo:1 __typename =\"Todo\";Todo:1 id =\"1\";",
    ),
    (
        "{me{id name}}",
        "{\"data\":{\"me\":null},\"errors\":[{\"message\":\"no\",\"path\":[\"you\"]}]}",
        "Query me =null;",
    ),
    (
        "{a:todo(id:\"1\"){id} b:todo(id:\"2.5\"){id}}",
        "{\"data\":{\"a\":{\"__typename\":\"Todo\",\"id\":\"1\"},\"b\":{\"__typename\":\"Todo\",\"id\":\"2.5\"}}}",
        "Query todo({\"id\":\"1\"}) ->Todo:1;Todo:1 __typename =\"Todo\";Todo:1 id =\"1\";Query todo({\"id\":\"2.5\"}) ->Todo:2%2E5;Todo:2%2E5 __typename =\"Todo\";Todo:2%2E5 id =\"2.5\";",
    ),
    (
        "{me{friends{name}}}",
        "{\"data\":{\"me\":{\"__typename\":\"User\",\"friends\":[null,{\"__typename\":\"User\",\"name\":\"Bob\"}]}}}",
        "Query me ->Query.me@User;Query.me@User __typename =\"User\";Query.me@User friends ->[null Query.me@User.friends.1@User ];Query.me@User.friends.1@User __typename =\"User\";Query.me@User.friends.1@User name =\"Bob\";",
    ),
    (
        "{grid{text}}",
        "{\"data\":{\"grid\":[null,[null,{\"__typename\":\"Todo\",\"text\":\"a\"}]]}}",
        "Query grid ->[null [] ];Query.grid.1.1@Todo __typename =\"Todo\";Query.grid.1.1@Todo text =\"a\";",
    ),
    (
        "mutation{rename(id:7 name:\"Bob\"){id}}",
        "{\"data\":{\"rename\":{\"__typename\":\"User\",\"id\":\"7\"}}}",
        "User:7 __typename =\"User\";User:7 id =\"7\";",
    ),
    ("{me{id}}", "{\"data\":null}", ""),
];

#[test]
fn what_an_answer_writes(rt: HostRuntime) -> Result<(), Fail> {
    let alloc = rt.alloc();
    let types = Types::of(alloc, NODES)?;
    for (query, body, expected) in ANSWERS {
        let told = told(alloc, &types, query, body)?;
        assert_eq!(rt; told.as_str(), *expected);
    }
    Ok(())
}

/// A query, the body of its response, and the first place that doesn't fit.
const MISFITS: &[(&str, &str, &str)] = &[
    (
        "{me{id name}}",
        "{\"data\":{\"me\":{\"__typename\":\"User\",\"id\":1.0,\"name\":\"Ann\"}}}",
        "!data.me.id",
    ),
    (
        "{me{id name}}",
        "{\"data\":{\"me\":{\"__typename\":\"User\",\"id\":9223372036854775808,\"name\":\"Ann\"}}}",
        "!data.me.id",
    ),
    (
        "{me{id name}}",
        "{\"data\":{\"me\":{\"id\":\"7\",\"name\":\"Ann\"}}}",
        "!data.me.__typename",
    ),
    (
        "{me{id}}",
        "{\"data\":{\"me\":{\"__typename\":\"Todo\",\"id\":\"7\"}}}",
        "!data.me.__typename",
    ),
    ("{me{id}}", "{\"data\":{}}", "!data.me"),
    ("{me{id}}", "{\"data\":[]}", "!data"),
    (
        "{todos{id text}}",
        "{\"data\":{\"todos\":[{\"__typename\":\"Todo\",\"id\":\"1\",\"text\":5},{\"id\":\"2\"}]}}",
        "!data.todos.0.text",
    ),
    (
        "{todos{id}}",
        "{\"data\":{\"todos\":[{\"__typename\":\"Todo\",\"id\":\"1\"},null]}}",
        "!data.todos.1",
    ),
    (
        "{todos{id}}",
        "{\"data\":{\"todos\":[{\"__typename\":\"Todo\"},5]}}",
        "!data.todos.0.id",
    ),
    (
        "{...F} fragment F on Query{me{id}}",
        "{\"data\":{\"me\":null}}",
        "!data.__typename",
    ),
];

#[test]
fn the_first_place_that_does_not_fit(rt: HostRuntime) -> Result<(), Fail> {
    let alloc = rt.alloc();
    let types = Types::of(alloc, NODES)?;
    for (query, body, expected) in MISFITS {
        let told = told(alloc, &types, query, body)?;
        assert_eq!(rt; told.as_str(), *expected);
    }
    Ok(())
}
