use crate::operations::Types;
use crate::values::{answer_of, members_of, push_number, push_value};
use answer_parts::{Fitted, MemberIndex, fitted};
use std::alloc::Global;
use std::test::Fail;
use text_types::Text;

/// A field of each leaf type.
const LEAVES: &str =
    "type Query{n:Int! l:[[Int!]] s:String! i:ID f:Float b:Boolean e:E c:Date} enum E{A B} scalar Date";

/// What the member of this name becomes at the type of the field of this name.
fn fit(alloc: Global, types: &Types, name: &str, body: &str) -> Result<Text, Fail> {
    let name = Text::from_str(alloc, name)?;
    let (answer, _) = answer_of(alloc, body)?;
    let members = MemberIndex::new(alloc, members_of(&answer)?)?;
    let value = members.get(&name).ok_or("no such member")?;
    let found = fitted(alloc, &types.schema, types.field_type(&name)?, value)?;
    told(alloc, &found)
}

/// What a value becomes, or the indexes of the first item that doesn't fit behind a `!`.
fn told(alloc: Global, found: &Fitted) -> Result<Text, Fail> {
    let mut text = Text::new(alloc);
    match found {
        Ok(value) => push_value(alloc, &mut text, value)?,
        Err(places) => push_places(&mut text, places.as_slice())?,
    }
    Ok(text)
}

fn push_places(text: &mut Text, places: &[u64]) -> Result<(), Fail> {
    text.push_str("!")?;
    for place in places {
        text.push_str(".")?;
        push_number(text, *place)?;
    }
    Ok(())
}

#[test]
fn values_fit_leaf_types(rt: HostRuntime) -> Result<(), Fail> {
    let alloc = rt.alloc();
    let types = Types::of(alloc, LEAVES)?;
    let rows = [
        ("n", "{\"data\":{\"s\":1,\"n\":5}}", "5"),
        ("n", "{\"data\":{\"n\":null}}", "!"),
        ("n", "{\"data\":{\"n\":\"5\"}}", "!"),
        ("l", "{\"data\":{\"l\":[[1],null]}}", "[[1],null]"),
        ("l", "{\"data\":{\"l\":[[1],null,[2,null]]}}", "!.2.1"),
        ("l", "{\"data\":{\"l\":[1]}}", "!.0"),
        ("l", "{\"data\":{\"l\":1}}", "!"),
        ("s", "{\"data\":{\"s\":1}}", "!"),
        ("i", "{\"data\":{\"i\":7}}", "\"7\""),
        ("i", "{\"data\":{\"i\":null}}", "null"),
        ("i", "{\"data\":{\"i\":true}}", "!"),
        ("f", "{\"data\":{\"f\":-3}}", "-3"),
        ("b", "{\"data\":{\"b\":false}}", "false"),
        ("b", "{\"data\":{\"b\":0}}", "!"),
        ("e", "{\"data\":{\"e\":\"A\"}}", "\"A\""),
        ("e", "{\"data\":{\"e\":1}}", "!"),
        ("c", "{\"data\":{\"c\":{\"y\":[1]}}}", "{\"y\":[1]}"),
    ];
    for (name, body, expected) in rows {
        let told = fit(alloc, &types, name, body)?;
        assert_eq!(rt; told.as_str(), expected);
    }
    Ok(())
}
