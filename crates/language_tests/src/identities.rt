use gql_documents::{nesting, parse_document};
use gql_model::{Definition, Document, TypeNode, TypeRef};
use gql_printing::print_document;
use gql_tokens::Place;
use gql_value::Value;
use op_keys::{Identity, Keys, canonical, with_typename};
use schema_model::{
    Interfaced, RootName, RootNames, Schema, SchemaField, SchemaType, Table, TypeForm,
};
use std::alloc::Global;
use std::test::Fail;
use text_types::{Memory, Text};

fn text(alloc: Global, of: &str) -> Result<Text, Memory> {
    Text::from_str(alloc, of)
}

/// An object type with a field `me` of a type `User`.
fn object(alloc: Global) -> Result<SchemaType, Memory> {
    let field = SchemaField {
        line: 1,
        arguments: Table::new(alloc),
        field_type: TypeNode {
            place: Place { row: 1, column: 1 },
            type_ref: TypeRef::Named {
                named: text(alloc, "User")?,
                non_null: false,
            },
        },
    };
    Ok(SchemaType {
        line: 1,
        form: TypeForm::Object(Interfaced {
            interfaces: Table::new(alloc),
            fields: Table::new(alloc).put(text(alloc, "me")?, field)?,
        }),
    })
}

fn root(alloc: Global, name: &str) -> Result<Option<RootName>, Memory> {
    Ok(Some(RootName {
        line: 1,
        text: text(alloc, name)?,
    }))
}

/// Types `Query`, `Subscription` and `User`, each with a field `me` of type `User`.
fn schema(alloc: Global) -> Result<Schema, Memory> {
    let types = Table::new(alloc)
        .put(text(alloc, "Query")?, object(alloc)?)?
        .put(text(alloc, "Subscription")?, object(alloc)?)?
        .put(text(alloc, "User")?, object(alloc)?)?;
    Ok(Schema {
        types,
        directives: Table::new(alloc),
        roots: RootNames {
            query: root(alloc, "Query")?,
            mutation: None,
            subscription: root(alloc, "Subscription")?,
        },
    })
}

fn document(alloc: Global, of: &str) -> Option<Document> {
    if nesting(of.as_bytes()) > 64 {
        return None;
    }
    parse_document(alloc, of.as_bytes()).ok()
}

fn sent(alloc: Global, of: &str) -> Option<Text> {
    let schema = schema(alloc).ok()?;
    let sent = with_typename(alloc, &schema, &document(alloc, of)?).ok()?;
    print_document(alloc, &sent).ok()
}

#[test]
fn what_is_sent(rt: HostRuntime) -> Result<(), Fail> {
    let alloc = rt.alloc();
    for (text, wanted) in [
        ("{me{id}}", "{me{__typename id}}"),
        ("{me{id __typename}}", "{me{id __typename}}"),
        ("{me{a:__typename}}", "{me{__typename a:__typename}}"),
        (
            "{me{__typename@skip(if:true)}}",
            "{me{__typename __typename@skip(if:true)}}",
        ),
        ("{...{me{id}}}", "{...{__typename me{__typename id}}}"),
        (
            "query A{me{id}}subscription B{...F}fragment F on Subscription{me{id}}",
            "query A{me{__typename id}}subscription B{...F}fragment F on Subscription{me{__typename id}}",
        ),
        (
            "query A{...F}fragment F on Query{me{id}}",
            "query A{...F}fragment F on Query{__typename me{__typename id}}",
        ),
    ] {
        let found = sent(alloc, text).ok_or("nothing is sent")?;
        assert!(rt; found.is(wanted), "at {text}");
    }
    Ok(())
}

fn identity(alloc: Global, of: &str, variable: i64) -> Option<Identity> {
    let document = document(alloc, of)?;
    let variables = Table::new(alloc)
        .put(text(alloc, "b").ok()?, Value::Int(variable))
        .ok()?
        .put(text(alloc, "a").ok()?, Value::Null)
        .ok()?;
    match document.definitions.as_slice().first()? {
        Definition::Operation(operation) => canonical(alloc, &document, operation, &variables).ok(),
        _ => None,
    }
}

fn number(alloc: Global, keys: &mut Keys, of: &str, variable: i64) -> Option<u32> {
    keys.intern(identity(alloc, of, variable)?).ok()
}

#[test]
fn what_makes_a_request(rt: HostRuntime) -> Result<(), Fail> {
    let alloc = rt.alloc();
    let found = identity(alloc, "query Q { me { id } }", 1).ok_or("nothing")?;
    assert!(rt; found.document.is("query Q{me{id}}"));
    assert!(rt; found.operation.is("Q"));
    assert!(rt; found.variables.is("{\"a\":null,\"b\":1}"));
    Ok(())
}

#[test]
fn numbers_of_requests(rt: HostRuntime) {
    let alloc = rt.alloc();
    let mut keys = Keys::new(alloc);
    assert!(rt; number(alloc, &mut keys, "{me{id}}", 1) == Some(0));
    assert!(rt; number(alloc, &mut keys, "query Q{me{id}}", 1) == Some(1));
    assert!(rt; number(alloc, &mut keys, "{me{id}}", 2) == Some(2));
    assert!(rt; number(alloc, &mut keys, "query { me { id, } }", 1) == Some(0));
}
