use crate::judging::{ACCEPTED, INTROSPECTION, TOO_LARGE, UNKNOWN_OPERATION, first_rule};
use crate::texts::{SHARED, schema};
use std::test::Fail;

#[test]
fn definitions(rt: HostRuntime) -> Result<(), Fail> {
    let alloc = rt.alloc();
    let schema = schema(alloc, SHARED)?;
    let rows = [
        ("{me{id}}", "", ACCEPTED),
        ("query A{me{id}} query B{me{id}}", "", UNKNOWN_OPERATION),
        ("query A{me{id}} query B{me{id}}", "B", ACCEPTED),
        ("query A{me{id}}", "C", UNKNOWN_OPERATION),
        ("fragment F on User{id}", "", UNKNOWN_OPERATION),
        ("{__schema{types}}", "", INTROSPECTION),
        ("{__x:me{id}}", "", INTROSPECTION),
        ("{me{id}} fragment F on User{__type}", "", INTROSPECTION),
        ("{x:__typename}", "", ACCEPTED),
        ("{me{id}} type X{a:Int}", "", 1),
        ("{me{id}} schema{query:Query}", "", 1),
        ("query A{me{id}} query A{me{id}}", "A", 2),
        ("query A{me{id}} subscription A{added{id}}", "A", 2),
        (
            "query A{me{id}} mutation B{rename(id:1 name:\"x\"){id}}",
            "A",
            ACCEPTED,
        ),
        ("{me{id}} query A{me{id}}", "A", 3),
        ("query{me{...F}} fragment F on User{id}", "", ACCEPTED),
        (
            "{me{...F}} fragment F on User{id} fragment F on User{name}",
            "",
            4,
        ),
        ("query F{me{...F}} fragment F on User{id}", "F", ACCEPTED),
    ];
    for (text, name, expected) in rows {
        let found = first_rule(alloc, &schema, text, name)?;
        assert!(rt; found == expected, "{text}");
    }
    Ok(())
}

#[test]
fn spreads(rt: HostRuntime) -> Result<(), Fail> {
    let alloc = rt.alloc();
    let schema = schema(alloc, SHARED)?;
    let rows = [
        ("{me{id} ...F}", "", 5),
        ("{me{id}} fragment F on User{...G}", "", 5),
        ("{...F} fragment F on Query{me{id}}", "", ACCEPTED),
        ("{me{...F}} fragment F on User{...F}", "", 6),
        (
            "{me{...F}} fragment F on User{friends{...G}} fragment G on User{friends{...F}}",
            "",
            6,
        ),
        ("{me{id}} fragment F on User{friends{...F}}", "", 6),
        (
            "{me{...F ...G}} fragment F on User{...H} fragment G on User{...H} fragment H on User{id}",
            "",
            ACCEPTED,
        ),
        (
            "{me{...A}} fragment A on User{...B ...B ...B ...B ...B ...B ...B ...B} fragment B on User{...C ...C ...C ...C ...C ...C ...C ...C} fragment C on User{...D ...D ...D ...D ...D ...D ...D ...D} fragment D on User{...E ...E ...E ...E ...E ...E ...E ...E} fragment E on User{...F ...F ...F ...F ...F ...F ...F ...F} fragment F on User{...G ...G ...G ...G ...G ...G ...G ...G} fragment G on User{id}",
            "",
            TOO_LARGE,
        ),
        (
            "{me{id}} fragment A on User{...B ...B ...B ...B ...B ...B ...B ...B} fragment B on User{...C ...C ...C ...C ...C ...C ...C ...C} fragment C on User{...D ...D ...D ...D ...D ...D ...D ...D} fragment D on User{...E ...E ...E ...E ...E ...E ...E ...E} fragment E on User{...F ...F ...F ...F ...F ...F ...F ...F} fragment F on User{...G ...G ...G ...G ...G ...G ...G ...G} fragment G on User{id}",
            "",
            TOO_LARGE,
        ),
        (
            "{me{...A}} fragment A on User{...B ...B ...B ...B ...B ...B ...B ...B} fragment B on User{...C ...C ...C ...C ...C ...C ...C ...C} fragment C on User{...D ...D ...D ...D ...D ...D ...D ...D} fragment D on User{id}",
            "",
            ACCEPTED,
        ),
        ("{me{id}} fragment F on User{id}", "", 7),
        (
            "{me{id}} fragment F on User{...G} fragment G on User{id}",
            "",
            7,
        ),
        (
            "query A{me{id}} query B{me{...F}} fragment F on User{id}",
            "A",
            ACCEPTED,
        ),
    ];
    for (text, name, expected) in rows {
        let found = first_rule(alloc, &schema, text, name)?;
        assert!(rt; found == expected, "{text}");
    }
    Ok(())
}
