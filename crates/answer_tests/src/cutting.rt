use crate::operations::{NODES, Types, operation};
use crate::values::{answer_of, push_value};
use partial_reader::project;
use schema_model::Table;
use std::alloc::Global;
use std::test::Fail;
use text_types::Text;

/// What of the answer of a body its client has asked for.
fn cut(alloc: Global, types: &Types, query: &str, body: &str) -> Result<Text, Fail> {
    let operation = operation(alloc, types, query)?;
    let variables = Table::new(alloc);
    let (answer, _) = answer_of(alloc, body)?;
    let cut = project(alloc, types.inputs(), &operation, &variables, &answer)?;
    let mut text = Text::new(alloc);
    push_value(alloc, &mut text, &cut)?;
    Ok(text)
}

/// A query, the body of its response, and what of the answer its client has asked for.
const CUTS: &[(&str, &str, &str)] = &[
    (
        "{me{id name}}",
        "{\"data\":{\"me\":{\"__typename\":\"User\",\"name\":\"Ann\",\"id\":9223372036854775807,\"nick\":null}}}",
        "{\"me\":{\"id\":9223372036854775807,\"name\":\"Ann\"}}",
    ),
    (
        "{me{id name} todo(id:\"1\"){id}}",
        "{\"data\":{\"me\":null,\"todo\":{\"__typename\":\"Todo\",\"id\":\"1\"}},\"errors\":[{\"message\":\"no\",\"path\":[\"me\",\"name\"]}]}",
        "{\"me\":null,\"todo\":{\"id\":\"1\"}}",
    ),
    (
        "{a:todo(id:\"1\"){id} b:todo(id:\"2.5\"){id}}",
        "{\"data\":{\"b\":{\"__typename\":\"Todo\",\"id\":\"2.5\"},\"a\":{\"__typename\":\"Todo\",\"id\":\"1\"}}}",
        "{\"a\":{\"id\":\"1\"},\"b\":{\"id\":\"2.5\"}}",
    ),
    (
        "{me{n:name t:__typename}}",
        "{\"data\":{\"me\":{\"__typename\":\"User\",\"t\":\"User\",\"n\":\"Ann\"}}}",
        "{\"me\":{\"n\":\"Ann\",\"t\":\"User\"}}",
    ),
    (
        "{todos{t:text ...on Node{id}}}",
        "{\"data\":{\"todos\":[{\"__typename\":\"Todo\",\"t\":\"a\",\"id\":\"1\"},null,{\"id\":\"2\"}]}}",
        "{\"todos\":[{\"t\":\"a\",\"id\":\"1\"},null,{}]}",
    ),
    ("{me{id}}", "{\"data\":null}", "null"),
];

#[test]
fn answers_are_cut(rt: HostRuntime) -> Result<(), Fail> {
    let alloc = rt.alloc();
    let types = Types::of(alloc, NODES)?;
    for (query, body, expected) in CUTS {
        let told = cut(alloc, &types, query, body)?;
        assert_eq!(rt; told.as_str(), *expected);
    }
    Ok(())
}
