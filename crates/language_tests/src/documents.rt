use gql_documents::parse_document;
use gql_tokens::{SyntaxError, nesting};
use std::alloc::Global;

/// The row and column of the fault, or 0 and 0 where the text is a document.
fn fault(alloc: Global, text: &[u8]) -> Option<(u64, u64)> {
    if nesting(text) > 64 {
        return None;
    }
    match parse_document(alloc, text) {
        Ok(_) => Some((0, 0)),
        Err(SyntaxError::Syntax { row, column }) => Some((row, column)),
        Err(SyntaxError::Memory) => None,
    }
}

#[test]
fn each_production_is_read(rt: HostRuntime) {
    for text in [
        b"{me{id name}}".as_slice(),
        b"{query mutation on}",
        b"query{me}",
        b"query A($a:[Int!]=[1,2]){x:todo(id:\"\"\"  q\"\"\"){id}}",
        b"mutation M($b:B={c:1} @e){f(g:$b)}",
        b"subscription($a:A=-0 @c(d:{e:[true null F 9]})){f @g(h:$a) ...I ...on J{k} ...@l{m}}",
        b"fragment a on on{...b}",
        b"schema @a{query:Q mutation:M subscription:S}",
        b"\"d\" scalar A @b",
        b"type A implements &B&C @d{\"e\" f(g:[H!]!=1 @i):J @k}",
        b"interface A implements B type C type D{e:F}",
        b"union A=|B|C union D",
        b"enum A{B \"c\" on @d} enum E",
        b"input A{\"b\" c:D=[{e:1}]} input F",
        b"directive @a(b:C) repeatable on|FIELD|QUERY",
        // values
        b"{a(b:[],c:{},d:-0,e:[[1][$f]],g:{h:{i:null}},j:\"\",k:\"\"\"\"\"\",on:true)}",
        b"query($a:[[A!]]!=[{b:FALSE}]){c}",
        // selections
        b"{a:b@c@d(e:1){f:g{h}} ...on on{i} ...i@j ...on K@l{m} ...{n}}",
        b"query A@b{c} fragment d on E@f{g} subscription{h}",
        // words that have a meaning elsewhere
        b"{fragment on query:type(input:enum){schema true null}}",
        b"type type implements interface{union(scalar:directive):implements} enum extend{repeatable on}",
        // type system definitions with the parts that may be left out
        b"\"\"\"d\"\"\" schema{subscription:S} \"d\" interface A",
        b"type A implements B&C@d type E@f{g:H} interface I implements&J{\"k\" l(\"m\" n:O=1@p,q:R):S}",
        b"union A@b=C union D@e=|F|G",
        b"enum A@b{\"\"\"c\"\"\" D@e F}",
        b"input A@b{c:[D]=[]@e \"f\" g:H!}",
        b"\"a\" directive@b(c:D=null@e)on F directive@g repeatable on H",
        // what is ignored
        b"\xef\xbb\xbf,,{a,b#c\r\n\td:e},",
    ] {
        assert_eq!(rt; fault(rt.alloc(), text), Some((0, 0)), "at {text:?}");
    }
}

#[test]
fn a_fault_is_the_first_token_behind_the_longest_beginning(rt: HostRuntime) {
    for (text, row, column) in [
        (b"".as_slice(), 1, 1),
        (b"{me{id name}", 1, 13),
        (b"{a\n", 2, 1),
        (b"{}", 1, 2),
        (b"{a(b:1.5)}", 1, 6),
        (b"fragment on on User{id}", 1, 10),
        (b"{...on{a}}", 1, 7),
        (b"type A {me}", 1, 11),
        (b"\"x\" {me}", 1, 5),
        (b"query($a:A=$b){c}", 1, 12),
        (b"{a} extend type B", 1, 5),
        (b"enum A{true}", 1, 8),
        (b"{a b: }", 1, 7),
        // an end too early
        (b"query", 1, 6),
        (b"query A", 1, 8),
        (b"fragment", 1, 9),
        (b"fragment a on", 1, 14),
        (b"fragment a on B", 1, 16),
        (b"\"x\"", 1, 4),
        (b"scalar", 1, 7),
        (b"type", 1, 5),
        (b"union A=", 1, 9),
        (b"union A=B|", 1, 11),
        (b"directive @a on", 1, 16),
        // lists that need a member
        (b"query(){a}", 1, 7),
        (b"{a()}", 1, 4),
        (b"{a{}}", 1, 4),
        (b"schema{}", 1, 8),
        (b"type A{}", 1, 8),
        (b"type A{b():C}", 1, 10),
        (b"type A implements{b:C}", 1, 18),
        (b"enum A{}", 1, 8),
        (b"input A{}", 1, 9),
        // executable definitions
        (b"foo", 1, 1),
        (b"{a}}", 1, 4),
        (b"{a} b", 1, 5),
        (b"{...}", 1, 5),
        (b"{...on @a{b}}", 1, 8),
        (b"{a @}", 1, 5),
        (b"{a(b)}", 1, 5),
        (b"{a(b:)}", 1, 6),
        (b"{a(b:$)}", 1, 7),
        (b"{a(b:[1}", 1, 8),
        (b"{a(b:{c})}", 1, 8),
        (b"{a(b:{c:})}", 1, 9),
        (b"query(a:A){b}", 1, 7),
        (b"query($a){b}", 1, 9),
        (b"query($a:){b}", 1, 10),
        (b"query($a:[A){b}", 1, 12),
        (b"query($a:A=){b}", 1, 12),
        (b"query($a:A @b(c:$d)){e}", 1, 17),
        (b"fragment a B{c}", 1, 12),
        // type system definitions
        (b"schema{query}", 1, 13),
        (b"schema{foo:A}", 1, 8),
        (b"scalar A B", 1, 10),
        (b"type A&B", 1, 7),
        (b"interface A{b}", 1, 14),
        (b"type A{b:C=1}", 1, 11),
        (b"union A B", 1, 9),
        (b"enum A{b:c}", 1, 9),
        (b"input A{b:C(d:E)}", 1, 12),
        (b"directive a on FIELD", 1, 11),
        (b"directive @a FIELD", 1, 14),
        (b"directive @a repeatable FIELD", 1, 25),
        // lexical faults, and places behind line ends and characters of several bytes
        (b"{a ~}", 1, 4),
        (b"{a(b:01)}", 1, 6),
        (b"{a(b:\"c\\q\")}", 1, 6),
        (b"{a(b:\"c", 1, 6),
        (b"{a #\x00", 1, 5),
        (b"{\r\n}", 2, 1),
        (b"{\n  a(b:\r)}", 3, 1),
        (b"{a(b:\"\xc3\xa9\xf0\x9f\x98\x80\") ~}", 1, 12),
    ] {
        assert_eq!(rt; fault(rt.alloc(), text), Some((row, column)), "at {text:?}");
    }
}
