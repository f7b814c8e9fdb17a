use gql_copying::CopyIn;
use gql_documents::{Definition, Document, nesting, parse_document};
use gql_model::{Fragment, Operation};
use gql_printing::print_document;
use std::alloc::Global;
use std::test::Fail;
use text_types::{Items, Memory};

fn document(alloc: Global, text: &str) -> Option<Document> {
    if nesting(text.as_bytes()) > 64 {
        return None;
    }
    parse_document(alloc, text.as_bytes()).ok()
}

/// A copy of the definition. What it selects isn't copied: a set can't be by itself.
fn copied(alloc: Global, definition: Definition) -> Result<Definition, Memory> {
    Ok(match definition {
        Definition::Operation(operation) => Definition::Operation(Operation {
            name: operation.name.copy_in(alloc)?,
            variables: operation.variables.copy_in(alloc)?,
            directives: operation.directives.copy_in(alloc)?,
            ..operation
        }),
        Definition::Fragment(fragment) => Definition::Fragment(Fragment {
            name: fragment.name.copy_in(alloc)?,
            type_condition: fragment.type_condition.copy_in(alloc)?,
            directives: fragment.directives.copy_in(alloc)?,
            ..fragment
        }),
        Definition::TypeSystem(definition) => Definition::TypeSystem(definition.copy_in(alloc)?),
    })
}

/// Whether the copy of a text's document prints as this canonical text again.
fn is_copied(alloc: Global, text: &str) -> Result<bool, Fail> {
    let document = document(alloc, text).ok_or("no document")?;
    let mut definitions = Items::new(alloc);
    for definition in document.definitions.into_vec() {
        definitions.push(copied(alloc, definition)?)?;
    }
    let printed = print_document(alloc, &Document { definitions })?;
    Ok(printed.is(text))
}

#[test]
fn copies_print_alike(rt: HostRuntime) -> Result<(), Fail> {
    for text in [
        "query A($a:[Int!]=[1 -0]@b(c:{d:\"e\"})$f:G)@h{i}",
        "fragment a on B@c{d}",
        "schema@a{query:Q mutation:M subscription:S}",
        "\"d\" scalar A@b",
        "type A implements B&C@d{\"e\" f(\"x\" g:[H!]!=1@i h:J):K@l}type M",
        "interface A implements B interface C{d:[[E]!]}",
        "union A@b=C|D union E",
        "enum A{B \"c\" on@d}enum E",
        "input A{\"b\" c:D=[{e:1}]}input F",
        "directive@a(b:C)repeatable on FIELD|QUERY",
    ] {
        assert!(rt; is_copied(rt.alloc(), text)?, "at {text}");
    }
    Ok(())
}
