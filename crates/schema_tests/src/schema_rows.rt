//! Texts that give no schema, each with its least code and line, and some that give one.

use gql_schema::{SchemaError, read_schema};
use std::test::Fail;

/// A name, the text, and the code and line of its refusal.
type Row = (&'static str, &'static str, u8, u64);

const REFUSED: [Row; 68] = [
    ("a fault of syntax", "type Query {\n a: }", 1, 2),
    ("nothing at all", "", 1, 1),
    (
        "the 65th open bracket",
        "type Query {\n a: [[[[[[[[[[[[[[[[[[[[[[[[[[[[[[[[[[[[[[[[[[[[[[[[[[[[[[[[[[[[[[[[Int",
        1,
        2,
    ),
    (
        "the 65th open bracket before an extension",
        "extend type Query {\n a: [[[[[[[[[[[[[[[[[[[[[[[[[[[[[[[[[[[[[[[[[[[[[[[[[[[[[[[[[[[[[[[[",
        1,
        2,
    ),
    (
        "an operation among definitions",
        "type Query { a: Int }\n{ a }",
        1,
        2,
    ),
    (
        "a fragment among definitions",
        "type Query { a: Int }\n\nfragment F on Query { a }",
        1,
        3,
    ),
    ("an extension", "extend type Query { a: Int }", 2, 1),
    (
        "an extension behind a definition",
        "type Query { a: Int }\nextend type Query { b: Int }",
        2,
        2,
    ),
    (
        "an extension behind an operation",
        "{ a }\nextend schema { query: Query }",
        2,
        2,
    ),
    (
        "an extension with a description",
        "type Query { a: Int }\n\"b\"\nextend type Query { b: Int }",
        1,
        3,
    ),
    ("a type twice", "type Query { a: Int }\nscalar Query", 3, 2),
    (
        "a built-in scalar as a type",
        "type Query { a: Int }\ntype Int { a: Query }",
        3,
        2,
    ),
    (
        "a directive twice",
        "type Query { a: Int }\ndirective @d on FIELD\ndirective @d on QUERY",
        3,
        3,
    ),
    (
        "a schema twice",
        "schema { query: Query }\ntype Query { a: Int }\nschema { query: Query }",
        3,
        3,
    ),
    (
        "a field twice",
        "type Query { a: Int a: Int }\ntype __B { a: Int }",
        3,
        1,
    ),
    (
        "an input field twice",
        "type Query { a: Int }\ninput I { a: Int\n a: Int }",
        3,
        3,
    ),
    (
        "an argument twice",
        "type Query { a(b: Int\n b: Int): Int }",
        3,
        2,
    ),
    (
        "a directive's argument twice",
        "type Query { a: Int }\ndirective @d(a: Int a: Int) on FIELD",
        3,
        2,
    ),
    (
        "an enum value twice",
        "type Query { a: Int }\nenum E { A\n A }",
        3,
        3,
    ),
    (
        "a union member twice",
        "type Query { a: Int }\nunion U = Query\n | Query",
        3,
        3,
    ),
    (
        "an interface twice",
        "interface I { a: Int }\ntype Query implements I &\n I { a: Int }",
        3,
        3,
    ),
    (
        "a root kind twice",
        "schema { query: Query\n query: Query }\ntype Query { a: Int }",
        3,
        2,
    ),
    ("a reserved type", "type Query { a: Int }\nscalar __A", 4, 2),
    ("a reserved field", "type Query { a: Int\n __a: Int }", 4, 2),
    (
        "a reserved argument",
        "type Query { a(\n __b: Int): Int }",
        4,
        2,
    ),
    (
        "a reserved input field",
        "type Query { a: Int }\ninput I { __a: Int }",
        4,
        2,
    ),
    (
        "a reserved enum value",
        "type Query { a: Int }\nenum E { __A }",
        4,
        2,
    ),
    (
        "a reserved directive",
        "type Query { a: Int }\ndirective @__d on FIELD",
        4,
        2,
    ),
    ("an unknown type of a field", "type Query { a: B }", 5, 1),
    (
        "an unknown type of an argument",
        "type Query { a(\n b: [B!]): Int }",
        5,
        2,
    ),
    (
        "an unknown type of an input field",
        "type Query { a: Int }\ninput I { a: B }",
        5,
        2,
    ),
    (
        "an unknown type of a directive's argument",
        "type Query { a: Int }\ndirective @d(a: B) on FIELD",
        5,
        2,
    ),
    (
        "an unknown interface",
        "type Query implements\n B { a: Int }",
        5,
        2,
    ),
    (
        "an unknown union member",
        "type Query { a: Int }\nunion U = B",
        5,
        2,
    ),
    (
        "an unknown root",
        "schema { query: Query\n mutation: B }\ntype Query { a: Int }",
        5,
        2,
    ),
    ("an introspection type", "type Query { a: __Schema }", 5, 1),
    (
        "an unknown location",
        "type Query { a: Int }\ndirective @d on FIELD |\n FIELDS",
        5,
        3,
    ),
    (
        "an object type in an argument's place",
        "type Query { a(\n b: Query): Int }",
        6,
        2,
    ),
    (
        "an input object in a field's place",
        "type Query { a: I }\ninput I { a: Int }",
        6,
        1,
    ),
    (
        "a union member that is an interface",
        "type Query { a: Int }\ninterface I { a: Int }\nunion U = I",
        6,
        3,
    ),
    (
        "an implemented object type",
        "type Query implements A { a: Int }\ntype A { a: Int }",
        6,
        1,
    ),
    (
        "an interface's field that is missing",
        "type Query\n implements I { a: Int }\ninterface I { b: Int }",
        7,
        2,
    ),
    (
        "a field that isn't of a subtype",
        "type Query implements I { a: Int }\ninterface I { a: Int! }",
        7,
        1,
    ),
    (
        "an argument that is missing",
        "type Query implements I { a: Int }\ninterface I { a(b: Int): Int }",
        7,
        1,
    ),
    (
        "an argument of another type",
        "type Query implements I { a(b: Int!): Int }\ninterface I { a(b: Int): Int }",
        7,
        1,
    ),
    (
        "a further argument that is required",
        "type Query implements I { a(b: Int!): Int }\ninterface I { a: Int }",
        7,
        1,
    ),
    (
        "an interface of the interface that isn't declared",
        "type Query implements I { a: Int }\ninterface I implements J { a: Int }\ninterface J { a: Int }",
        7,
        1,
    ),
    (
        "an interface that implements itself",
        "type Query { a: Int }\ninterface I implements I { a: Int }",
        7,
        2,
    ),
    (
        "two interfaces that implement each other",
        "type Query { a: Int }\ninterface I implements J { a: Int }\ninterface J implements I { a: Int }",
        7,
        2,
    ),
    ("no query root", "type A { a: Int }", 8, 0),
    (
        "no query root in the schema",
        "type Query { a: Int }\nschema { mutation: Query }",
        8,
        0,
    ),
    (
        "a root that isn't an object type",
        "schema { query: Query\n mutation: M }\ntype Query { a: Int }\nscalar M",
        8,
        2,
    ),
    (
        "a default root that isn't an object type",
        "type Query { a: Int }\nenum Mutation { A }",
        8,
        2,
    ),
    (
        "one type that is two roots",
        "schema { query: Query\n mutation: Query }\ntype Query { a: Int }",
        8,
        2,
    ),
    (
        "a type without fields",
        "type Query { a: Int }\ntype A",
        9,
        2,
    ),
    (
        "an interface without fields",
        "type Query { a: Int }\ninterface A",
        9,
        2,
    ),
    (
        "a union without members",
        "type Query { a: Int }\nunion A",
        9,
        2,
    ),
    (
        "an enum without values",
        "type Query { a: Int }\nenum A",
        9,
        2,
    ),
    (
        "an input object without fields",
        "type Query { a: Int }\ninput A",
        9,
        2,
    ),
    (
        "a default that doesn't fit",
        "type Query { a(x: Int = \"q\"): Int }",
        9,
        1,
    ),
    (
        "a default that lacks a required field",
        "type Query { a(\n b: I = {}): Int }\ninput I { a: Int! }",
        9,
        2,
    ),
    (
        "a default with an unknown field",
        "type Query { a(\n b: I = {b: 1}): Int }\ninput I { a: Int }",
        9,
        2,
    ),
    (
        "a default in which a field stands twice",
        "type Query { a(\n b: I = {a: 1 a: 2}): Int }\ninput I { a: Int }",
        9,
        2,
    ),
    (
        "a directive's default that doesn't fit",
        "type Query { a: Int }\ndirective @d(a: Int! = null) on FIELD",
        9,
        2,
    ),
    (
        "an input object that needs itself",
        "type Query { a: Int }\ninput I { a: I! }",
        9,
        2,
    ),
    (
        "input objects that need each other, and one that leads to them",
        "type Query { a: Int }\ninput L { a: I! }\ninput I {\n a: J! }\ninput J { a: I! = {a: {a: null}} }",
        9,
        3,
    ),
    (
        "a default that needs itself",
        "type Query { a: Int }\ninput I {\n a: I = {} }",
        9,
        3,
    ),
    (
        "defaults that need each other, and one that leads to them",
        "type Query { a: Int }\ninput L { l: I = {} }\ninput I { x: Int\n a: [J] = [{}] }\ninput J { b: I = {x: 1} }",
        9,
        4,
    ),
];

/// A name and a text.
const TAKEN: [(&str, &str); 7] = [
    (
        "a circle through a list",
        "type Query { a: Int }\ninput I { a: [I!]! }",
    ),
    (
        "a circle through a nullable field",
        "type Query { a: Int }\ninput I { a: J! }\ninput J { a: I }",
    ),
    (
        "a default that gives its own field",
        "type Query { a: Int }\ninput I { a: I = {a: null} b: Int = 1 }",
    ),
    (
        "what the language has already",
        "scalar Int scalar Int directive @skip(a: Nothing) on NOWHERE type Query { a: Int }",
    ),
    (
        "directives that nobody defines",
        "type Query @a(b: c) { a: Int @deprecated }",
    ),
    (
        "a location twice",
        "type Query { a: Int } directive @d on FIELD | FIELD",
    ),
    (
        "one value for a list",
        "type Query { a(b: [[Int]] = 1, c: E = A): Int } enum E { A }",
    ),
];

#[test]
fn texts_are_refused(rt: HostRuntime) -> Result<(), Fail> {
    for (name, text, code, line) in REFUSED {
        let told = match read_schema(rt.alloc(), text.as_bytes()) {
            Ok(_) => (0, 0),
            Err(SchemaError::Refused { code, line }) => (code, line),
            Err(SchemaError::Memory) => (u8::MAX, 0),
        };
        assert_eq!(rt; told, (code, line), "{name}");
    }
    Ok(())
}

#[test]
fn texts_give_schemas(rt: HostRuntime) -> Result<(), Fail> {
    for (name, text) in TAKEN {
        assert!(rt; read_schema(rt.alloc(), text.as_bytes()).is_ok(), "{name}");
    }
    Ok(())
}

#[test]
fn a_schema_is_utf_8(rt: HostRuntime) -> Result<(), Fail> {
    let told = match read_schema(rt.alloc(), b"type Query { a: Int }\n# \xff".as_slice()) {
        Err(SchemaError::Refused { code, line }) => (code, line),
        _ => (0, 0),
    };
    assert_eq!(rt; told, (1, 2));
    Ok(())
}
