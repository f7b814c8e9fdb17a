use crate::judging::{ACCEPTED, first_rule};
use crate::texts::{SHARED, schema};
use std::test::Fail;

#[test]
fn selections(rt: HostRuntime) -> Result<(), Fail> {
    let alloc = rt.alloc();
    let schema = schema(alloc, SHARED)?;
    let rows = [
        ("{me{...on Ghost{id}}}", "", 8),
        ("{me{...F}} fragment F on Ghost{id}", "", 8),
        ("{node(id:1){...on User{name}}}", "", ACCEPTED),
        ("{me{...on State{id}}}", "", 9),
        ("{me{...F}} fragment F on Filter{text}", "", 9),
        ("{any{...on Any{...{__typename}}}}", "", ACCEPTED),
        ("{me{age}}", "", 10),
        ("{any{label}}", "", 10),
        ("{node(id:1){name}}", "", 10),
        ("{any{__typename ...on Tag{label}}}", "", ACCEPTED),
        ("{me}", "", 11),
        ("{any}", "", 11),
        ("{me{name{x}}}", "", 11),
        ("{me{__typename{x}}}", "", 11),
        ("{me{name friends{name}}}", "", ACCEPTED),
        ("{me{...on Todo{text}}}", "", 12),
        ("{node(id:1){...F}} fragment F on Tag{label}", "", 12),
        ("{node(id:1){...on Any{...on User{id}}}}", "", ACCEPTED),
        ("{me{...on Node{id} ...on Any{__typename}}}", "", ACCEPTED),
    ];
    for (text, name, expected) in rows {
        let found = first_rule(alloc, &schema, text, name)?;
        assert!(rt; found == expected, "{text}");
    }
    Ok(())
}
