use crate::operations::{NODES, Types};
use crate::values::{answer_of, members_of};
use answer_parts::{MemberIndex, ObjectType, parent_below, type_of_members, type_told};
use gql_value::Members;
use schema_model::TypeId;
use std::alloc::Global;
use std::test::Fail;
use text_types::Text;

/// The object type that an answer's object tells at a field: by the object, and by its `__typename` alone.
fn told(alloc: Global, types: &Types, name: &str, body: &str) -> Result<Text, Fail> {
    let name = Text::from_str(alloc, name)?;
    let (answer, _) = answer_of(alloc, body)?;
    let members = members_of(&answer)?;
    match parent_below(&types.schema, types.field_type(&name)?) {
        Some(parent) => told_below(alloc, types, parent, members),
        None => Ok(Text::from_str(alloc, "leaf")?),
    }
}

fn told_below(
    alloc: Global,
    types: &Types,
    parent: TypeId,
    members: &Members,
) -> Result<Text, Fail> {
    let mut text = Text::new(alloc);
    push_type(&mut text, type_of_members(&types.schema, parent, members))?;
    text.push_str(" ")?;
    let index = MemberIndex::new(alloc, members)?;
    if let Some(value) = index.get(&Text::from_str(alloc, "__typename")?) {
        push_type(&mut text, type_told(&types.schema, parent, value))?;
    }
    Ok(text)
}

fn push_type(text: &mut Text, told: Option<ObjectType<'_>>) -> Result<(), Fail> {
    match told {
        Some((_, name)) => text.push(name)?,
        None => text.push_str("-")?,
    }
    Ok(())
}

#[test]
fn types_are_told_by_objects(rt: HostRuntime) -> Result<(), Fail> {
    let alloc = rt.alloc();
    let types = Types::of(alloc, NODES)?;
    let rows = [
        ("node", "{\"data\":{\"__typename\":\"Todo\"}}", "Todo Todo"),
        ("node", "{\"data\":{\"__typename\":\"Query\"}}", "- -"),
        ("node", "{\"data\":{\"__typename\":\"Node\"}}", "- -"),
        ("node", "{\"data\":{\"__typename\":5}}", "- -"),
        ("node", "{\"data\":{\"id\":\"Todo\"}}", "- "),
        ("grid", "{\"data\":{\"__typename\":\"Todo\"}}", "Todo Todo"),
        ("me", "{\"data\":{\"__typename\":\"Todo\"}}", "- -"),
        ("now", "{\"data\":{}}", "leaf"),
    ];
    for (name, body, expected) in rows {
        let told = told(alloc, &types, name, body)?;
        assert_eq!(rt; told.as_str(), expected);
    }
    Ok(())
}
