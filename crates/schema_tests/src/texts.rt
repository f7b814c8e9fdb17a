use schema_text::{Flaw, TextError, type_definitions};
use std::test::Fail;

/// How many definitions a text holds, or its flaw.
const ROWS: [(&str, &str, Result<usize, Flaw>); 12] = [
    ("two definitions", "scalar A type B", Ok(2)),
    ("a description", "\"a\" scalar A", Ok(1)),
    ("nothing", "", Err(Flaw::NotASchema { line: 1 })),
    ("a fault", "scalar A\n}", Err(Flaw::NotASchema { line: 2 })),
    (
        "an operation",
        "scalar A\n{a}\nfragment F on A{a}",
        Err(Flaw::NotASchema { line: 2 }),
    ),
    (
        "an extension first",
        "# a\n extend type A {a: Int}",
        Err(Flaw::Extends { line: 2 }),
    ),
    (
        "an extension behind a definition and before a lexical fault",
        "type A # \u{e9}\nextend type A {a: Int} ?",
        Err(Flaw::Extends { line: 2 }),
    ),
    (
        "an extension behind an operation",
        "{a} \u{feff}extend type A {a: Int}",
        Err(Flaw::Extends { line: 1 }),
    ),
    (
        "the name behind a description",
        "\"x\"\nextend type A {a: Int}",
        Err(Flaw::NotASchema { line: 2 }),
    ),
    (
        "the name within a definition",
        "directive @a extend",
        Err(Flaw::NotASchema { line: 1 }),
    ),
    ("the name as a name", "scalar extend", Ok(1)),
    (
        "a lexical fault in a comment",
        "scalar A #\u{7}\nextend",
        Err(Flaw::NotASchema { line: 1 }),
    ),
];

#[test]
fn texts_and_their_flaws(rt: HostRuntime) -> Result<(), Fail> {
    for (name, text, expected) in ROWS {
        let told = match type_definitions(rt.alloc(), text.as_bytes()) {
            Ok(forms) => Ok(forms.len()),
            Err(TextError::Flawed(flaw)) => Err(flaw),
            Err(TextError::Memory) => Ok(usize::MAX),
        };
        assert!(rt; told == expected, "{name}");
    }
    Ok(())
}
