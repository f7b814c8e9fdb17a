use gql_documents::{nesting, parse_document};
use gql_printing::print_document;
use std::alloc::Global;
use text_types::Text;

/// The canonical text of the document that a text is.
fn printed(alloc: Global, text: &str) -> Option<Text> {
    if nesting(text.as_bytes()) > 64 {
        return None;
    }
    match parse_document(alloc, text.as_bytes()) {
        Ok(document) => print_document(alloc, &document).ok(),
        Err(_) => None,
    }
}

/// Whether a text is printed as another.
fn is_printed(alloc: Global, text: &str, canonical: &str) -> bool {
    match printed(alloc, text) {
        Some(found) => found.is(canonical),
        None => false,
    }
}

#[test]
fn texts_that_change(rt: HostRuntime) {
    for (text, canonical) in [
        ("query { me { id , name } }", "{me{id name}}"),
        (
            "query Q ( $a : [ Int ! ] ! = [ 1 , 2 ] , $b : S = \"x\\ny\" ) @d ( a : { b : -0 } ) { x : f ( a : $b ) }",
            "query Q($a:[Int!]!=[1 2]$b:S=\"x\\ny\")@d(a:{b:-0}){x:f(a:$b)}",
        ),
        (
            "query A($a:[Int!]=[1,2]){x:todo(id:\"\"\"  q\"\"\"){id}}",
            "query A($a:[Int!]=[1 2]){x:todo(id:\"  q\"){id}}",
        ),
        (
            "mutation{rename(id:\"7\",name:\"Bob\"){id}}",
            "mutation{rename(id:\"7\" name:\"Bob\"){id}}",
        ),
        (
            "{a:todo(id:\"1\"){id} b:todo(id:\"2.5\"){id}}",
            "{a:todo(id:\"1\"){id}b:todo(id:\"2.5\"){id}}",
        ),
        (
            "query Page($id:ID=\"1\",$n:Boolean!){todos{...T} todo(id:$id){id author{id nick @include(if:$n)}}} fragment T on Todo{id text done author{...U}} fragment U on User{id name}",
            "query Page($id:ID=\"1\"$n:Boolean!){todos{...T}todo(id:$id){id author{id nick@include(if:$n)}}}fragment T on Todo{id text done author{...U}}fragment U on User{id name}",
        ),
        (
            "{f(a:\"\\u0041\\\"\\\\\\/\\b\\u0001\\u00e9\")}",
            "{f(a:\"A\\\"\\\\/\\b\\u0001é\")}",
        ),
        ("\"\"\"\n  a\n  b\n\"\"\" scalar C", "\"a\\nb\" scalar C"),
        (
            "type A implements &B & C{d:E}",
            "type A implements B&C{d:E}",
        ),
        ("union A = | B | C", "union A=B|C"),
        ("directive @a on | FIELD", "directive@a on FIELD"),
        (
            "{a} type B{b:C} query{d} fragment E on F{g} query{h}",
            "{a}type B{b:C}query{d}fragment E on F{g}{h}",
        ),
    ] {
        assert!(rt; is_printed(rt.alloc(), text, canonical), "at {text}");
    }
}

#[test]
fn texts_that_stay(rt: HostRuntime) {
    for text in [
        "{...F...on T@a{b}...@c{d}...{e}...G@h}",
        "subscription S{a}",
        "query($a:B){c}",
        "query@a{b}",
        "{f(a:true b:false c:null d:E e:[]g:{}h:[-0 0 -12]i:{j:{k:\"l\"}})@m(n:1)}",
        "fragment on1 on on{a:b}",
        "schema@a{query:Q mutation:M subscription:S}",
        "\"d\" scalar A@b",
        "type A implements B&C@d{\"e\" f(\"x\" g:[H!]!=1@i h:J):K@l}type M",
        "interface A implements B interface C{d:[[E]!]}",
        "union A@b=C|D union E",
        "enum A{B \"c\" on@d}enum E",
        "input A{\"b\" c:D=[{e:1}]}input F",
        "directive@a(b:C)repeatable on FIELD|QUERY",
        "scalar A query{b}",
    ] {
        assert!(rt; is_printed(rt.alloc(), text, text), "at {text}");
    }
}
