use crate::operations::{NODES, Types, operation};
use crate::values::push_number;
use execution_model::Group;
use gql_collection::{Collector, is_passed_over};
use gql_model::{Directive, Selection, SelectionSet};
use gql_value::Value;
use schema_model::Table;
use std::alloc::Global;
use std::test::Fail;
use text_types::Text;

/// The variable `v` with this value.
fn variable(alloc: Global, truth: bool) -> Result<Table<Value>, Fail> {
    let table = Table::new(alloc);
    Ok(table.put(Text::from_str(alloc, "v")?, Value::Bool(truth))?)
}

/// The response keys that the set of a query's root collects, each with the number of its joined sets.
fn collected(alloc: Global, types: &Types, query: &str) -> Result<Text, Fail> {
    let operation = operation(alloc, types, query)?;
    let variables = variable(alloc, true)?;
    let collector = Collector {
        schema: &types.schema,
        document: &operation.document,
        numbering: &operation.numbering,
        fragments: &operation.fragments,
        variables: &variables,
        object: types.root()?,
        fronts: &[],
    };
    let groups = collector.collect(alloc, operation.sets.as_slice())?;
    told(alloc, groups.as_slice())
}

fn told(alloc: Global, groups: &[Group]) -> Result<Text, Fail> {
    let mut text = Text::new(alloc);
    for group in groups {
        text.push(&group.key)?;
        text.push_str(":")?;
        push_number(&mut text, group.sets.len() as u64)?;
        text.push_str(" ")?;
    }
    Ok(text)
}

#[test]
fn fields_are_collected_by_response_key(rt: HostRuntime) -> Result<(), Fail> {
    let alloc = rt.alloc();
    let types = Types::of(alloc, NODES)?;
    let rows = [
        ("{me{id} now me{name}}", "me:2 now:0 "),
        (
            "{b:now ...F a:now} fragment F on Query{me{id} b:now}",
            "b:0 me:1 a:0 ",
        ),
        (
            "{...F ...F ...on Query{me{nick}}} fragment F on Query{me{id}}",
            "me:2 ",
        ),
        (
            "query($v:Boolean!){now @skip(if:$v) me @include(if:$v){id} __typename}",
            "me:1 __typename:0 ",
        ),
    ];
    for (query, expected) in rows {
        let told = collected(alloc, &types, query)?;
        assert_eq!(rt; told.as_str(), expected);
    }
    Ok(())
}

/// The directives of the first selection, if it is a field.
fn first_directives(set: &SelectionSet) -> Result<&[Directive], Fail> {
    match set.selections.as_slice().first() {
        Some(Selection::Field(field)) => Ok(field.directives.as_slice()),
        _ => Err("no field")?,
    }
}

/// Whether the first field of a query is passed over, where the variable `v` is true.
fn first_is_passed_over(alloc: Global, types: &Types, query: &str) -> Result<bool, Fail> {
    let operation = operation(alloc, types, query)?;
    let variables = variable(alloc, true)?;
    let directives = first_directives(&operation.operation().selection_set)?;
    Ok(is_passed_over(&variables, directives))
}

#[test]
fn selections_are_passed_over(rt: HostRuntime) -> Result<(), Fail> {
    let alloc = rt.alloc();
    let types = Types::of(alloc, NODES)?;
    let rows = [
        ("{now}", false),
        ("{now @skip(if:true)}", true),
        ("{now @skip(if:false)}", false),
        ("{now @include(if:false)}", true),
        ("{now @include(if:true)}", false),
        ("{now @include(if:true) @skip(if:true)}", true),
        ("query($v:Boolean!){now @skip(if:$v)}", true),
        ("query($v:Boolean!){now @include(if:$v)}", false),
    ];
    for (query, expected) in rows {
        let found = first_is_passed_over(alloc, &types, query)?;
        assert!(rt; found == expected, "{query}");
    }
    Ok(())
}
