use crate::judging::{ACCEPTED, first_rule};
use crate::texts::{SHARED, schema};
use std::test::Fail;

#[test]
fn variables(rt: HostRuntime) -> Result<(), Fail> {
    let alloc = rt.alloc();
    let schema = schema(alloc, SHARED)?;
    let rows = [
        ("query($a:Int $a:Int){todos(first:$a){id}}", "", 19),
        (
            "query A($a:Int){todos(first:$a){id}} query B($a:Int){todos(first:$a){id}}",
            "B",
            ACCEPTED,
        ),
        ("query($a:User){me{id}}", "", 20),
        (
            "query($a:Filter!){search(filter:$a){__typename}}",
            "",
            ACCEPTED,
        ),
        ("{todos(first:$a){id}}", "", 21),
        ("query($a:Int){todos(first:$b){id}}", "", 21),
        ("query($a:Int){me{id}}", "", 22),
        (
            "query($a:Int){...F} fragment F on Query{todos(first:$a){id}}",
            "",
            ACCEPTED,
        ),
    ];
    for (text, name, expected) in rows {
        let found = first_rule(alloc, &schema, text, name)?;
        assert!(rt; found == expected, "{text}");
    }
    Ok(())
}

#[test]
fn values_and_merging(rt: HostRuntime) -> Result<(), Fail> {
    let alloc = rt.alloc();
    let schema = schema(alloc, SHARED)?;
    let rows = [
        ("{todos(first:\"x\"){id}}", "", 23),
        ("{search(filter:{state:OPEN}){__typename}}", "", 23),
        ("{todos(tags:\"x\"){id}}", "", ACCEPTED),
        (
            "{search(filter:{text:\"a\" text:\"b\"}){__typename}}",
            "",
            24,
        ),
        (
            "{search(filter:{text:\"a\" state:OPEN}){__typename}}",
            "",
            ACCEPTED,
        ),
        ("query($d:String){todo(id:$d){id}}", "", 25),
        ("query($d:ID!){todo(id:$d){id}}", "", ACCEPTED),
        ("query($d:String){todo(id:$d){id} todo(id:2){id}}", "", 25),
        ("{todo(id:\"1\"){id} todo(id:\"2\"){id}}", "", 26),
        ("{todo(id:\"1\"){id} todo(id:\"1\"){text}}", "", ACCEPTED),
        (
            "subscription{added{id} added:removed{id} x:added{id}}",
            "",
            26,
        ),
        ("subscription{added{id} removed{id}}", "", 27),
        (
            "query A{me{id}} subscription B{added{id} ...on Subscription{removed{id}}}",
            "A",
            27,
        ),
        ("subscription{added{id} added{text}}", "", ACCEPTED),
    ];
    for (text, name, expected) in rows {
        let found = first_rule(alloc, &schema, text, name)?;
        assert!(rt; found == expected, "{text}");
    }
    Ok(())
}
