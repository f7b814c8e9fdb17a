//! Dispatches that are refused: the first ground in the order in which they are tried.

use crate::outside::{ALL_WELL, PLAIN, run};
use std::test::Fail;

/// A name, a line, and what is written for it.
type Row = (&'static str, &'static str, &'static str);

const REFUSED: [Row; 37] = [
    (
        "not JSON",
        "{\"do\":\n",
        "{\"out\":\"refused\",\"line\":1,\"code\":\"E2\"}\n",
    ),
    (
        "not an object",
        "[1]\n",
        "{\"out\":\"refused\",\"line\":1,\"code\":\"E3\",\"member\":\"do\"}\n",
    ),
    (
        "an id that is a text",
        "{\"do\":\"dispatch\",\"id\":\"x\",\"query\":\"{me{id}}\"}\n",
        "{\"out\":\"refused\",\"line\":1,\"code\":\"E3\",\"member\":\"id\"}\n",
    ),
    (
        "no query",
        "{\"do\":\"dispatch\",\"id\":1,\"operationName\":1}\n",
        "{\"out\":\"refused\",\"line\":1,\"code\":\"E3\",\"member\":\"query\"}\n",
    ),
    (
        "a name that is a number",
        "{\"do\":\"dispatch\",\"id\":1,\"query\":\"{\",\"operationName\":1,\"variables\":1}\n",
        "{\"out\":\"refused\",\"line\":1,\"code\":\"E3\",\"member\":\"operationName\"}\n",
    ),
    (
        "variables that are a list",
        "{\"do\":\"dispatch\",\"id\":1,\"query\":\"{\",\"operationName\":null,\"variables\":[1.5],\"policy\":\"x\"}\n",
        "{\"out\":\"refused\",\"line\":1,\"code\":\"E3\",\"member\":\"variables\"}\n",
    ),
    (
        "a policy",
        "{\"do\":\"dispatch\",\"id\":1,\"query\":\"{\",\"variables\":{\"a\":1.5},\"policy\":\"cache-first\",\"then\":[]}\n",
        "{\"out\":\"refused\",\"line\":1,\"code\":\"E3\",\"member\":\"policy\"}\n",
    ),
    (
        "what follows",
        "{\"do\":\"dispatch\",\"id\":1,\"query\":\"{\",\"variables\":{\"a\":1.5},\"then\":[]}\n",
        "{\"out\":\"refused\",\"line\":1,\"code\":\"E3\",\"member\":\"then\"}\n",
    ),
    (
        "a response with a member of a dispatch",
        "{\"do\":\"response\",\"fetch\":1,\"body\":{},\"variables\":{}}\n",
        "{\"out\":\"refused\",\"line\":1,\"code\":\"E3\",\"member\":\"do\"}\n",
    ),
    (
        "the first number that isn't whole",
        "{\"do\":\"dispatch\",\"id\":1,\"query\":\"{\",\"variables\":{\"b\":[1,{\"c\":2.5}],\"a\":\"x\",\"x\":1e2}}\n",
        "{\"out\":\"refused\",\"line\":1,\"code\":\"E11\",\"path\":\"variables.b.1.c\"}\n",
    ),
    (
        "a number that isn't whole, before the text",
        "{\"do\":\"dispatch\",\"id\":1,\"query\":\"query Q($id:ID!){todo(id:$id){id}}\",\"variables\":{\"id\":1.5}}\n",
        "{\"out\":\"refused\",\"line\":1,\"code\":\"E11\",\"path\":\"variables.id\"}\n",
    ),
    (
        "brackets before the document",
        "{\"do\":\"dispatch\",\"id\":1,\"query\":\"{{{{{{{{{{{{{{{{{{{{{{{{{{{{{{{{{{{{{{{{{{{{{{{{{{{{{{{{{{{{{{{{{\",\"operationName\":\"A\"}\n",
        "{\"out\":\"refused\",\"line\":1,\"code\":\"E14\"}\n",
    ),
    (
        "the first brackets that are too many stand behind a fault",
        "{\"do\":\"dispatch\",\"id\":1,\"query\":\"{{{{{{{{{{{{{{{{{{{{{{{{{{{{{{{{{{{{{{{{{{{{{{{{{{{{{{{{{{{{{{{{\"}\n",
        "{\"out\":\"refused\",\"line\":1,\"code\":\"E6\",\"row\":1,\"column\":2}\n",
    ),
    (
        "a lone surrogate",
        "{\"do\":\"dispatch\",\"id\":1,\"query\":\"{me(a:\\\"\\\\ud800\\\"){id}}\"}\n",
        "{\"out\":\"refused\",\"line\":1,\"code\":\"E6\",\"row\":1,\"column\":7}\n",
    ),
    (
        "an open brace",
        "{\"do\":\"dispatch\",\"id\":1,\"query\":\"{me{id name}\"}\n",
        "{\"out\":\"refused\",\"line\":1,\"code\":\"E6\",\"row\":1,\"column\":13}\n",
    ),
    (
        "no operation of the name",
        "{\"do\":\"dispatch\",\"id\":1,\"query\":\"{me{id}}\",\"operationName\":\"A\"}\n",
        "{\"out\":\"refused\",\"line\":1,\"code\":\"E7\"}\n",
    ),
    (
        "the empty name",
        "{\"do\":\"dispatch\",\"id\":1,\"query\":\"{__schema{queryType{name}}}\",\"operationName\":\"\"}\n",
        "{\"out\":\"refused\",\"line\":1,\"code\":\"E7\"}\n",
    ),
    (
        "two operations and no name",
        "{\"do\":\"dispatch\",\"id\":1,\"query\":\"query A{me{id}} query B{me{id}}\"}\n",
        "{\"out\":\"refused\",\"line\":1,\"code\":\"E7\"}\n",
    ),
    (
        "a definition of a type",
        "{\"do\":\"dispatch\",\"id\":1,\"query\":\"type A\"}\n",
        "{\"out\":\"refused\",\"line\":1,\"code\":\"E7\"}\n",
    ),
    (
        "introspection",
        "{\"do\":\"dispatch\",\"id\":1,\"query\":\"{__schema{queryType{name}}}\"}\n",
        "{\"out\":\"refused\",\"line\":1,\"code\":\"E16\"}\n",
    ),
    (
        "introspection before the rules",
        "{\"do\":\"dispatch\",\"id\":1,\"query\":\"{__schema{queryType{name}}} type A\"}\n",
        "{\"out\":\"refused\",\"line\":1,\"code\":\"E16\"}\n",
    ),
    (
        "a definition of a type beside an operation",
        "{\"do\":\"dispatch\",\"id\":1,\"query\":\"{me{age}} type A\"}\n",
        "{\"out\":\"refused\",\"line\":1,\"code\":\"E8\",\"rule\":1}\n",
    ),
    (
        "a spread without its fragment",
        "{\"do\":\"dispatch\",\"id\":1,\"query\":\"{me{id} ...F}\"}\n",
        "{\"out\":\"refused\",\"line\":1,\"code\":\"E8\",\"rule\":5}\n",
    ),
    (
        "a fragment in itself",
        "{\"do\":\"dispatch\",\"id\":1,\"query\":\"{...A} fragment A on Query{...A}\"}\n",
        "{\"out\":\"refused\",\"line\":1,\"code\":\"E8\",\"rule\":6}\n",
    ),
    (
        "fragments that double forty times",
        "{\"do\":\"dispatch\",\"id\":1,\"query\":\"{...A0}fragment A0 on Query{...A1 ...A1}fragment A1 on Query{...A2 ...A2}fragment A2 on Query{...A3 ...A3}fragment A3 on Query{...A4 ...A4}fragment A4 on Query{...A5 ...A5}fragment A5 on Query{...A6 ...A6}fragment A6 on Query{...A7 ...A7}fragment A7 on Query{...A8 ...A8}fragment A8 on Query{...A9 ...A9}fragment A9 on Query{...A10 ...A10}fragment A10 on Query{...A11 ...A11}fragment A11 on Query{...A12 ...A12}fragment A12 on Query{...A13 ...A13}fragment A13 on Query{...A14 ...A14}fragment A14 on Query{...A15 ...A15}fragment A15 on Query{...A16 ...A16}fragment A16 on Query{...A17 ...A17}fragment A17 on Query{...A18 ...A18}fragment A18 on Query{...A19 ...A19}fragment A19 on Query{...A20 ...A20}fragment A20 on Query{...A21 ...A21}fragment A21 on Query{...A22 ...A22}fragment A22 on Query{...A23 ...A23}fragment A23 on Query{...A24 ...A24}fragment A24 on Query{...A25 ...A25}fragment A25 on Query{...A26 ...A26}fragment A26 on Query{...A27 ...A27}fragment A27 on Query{...A28 ...A28}fragment A28 on Query{...A29 ...A29}fragment A29 on Query{...A30 ...A30}fragment A30 on Query{...A31 ...A31}fragment A31 on Query{...A32 ...A32}fragment A32 on Query{...A33 ...A33}fragment A33 on Query{...A34 ...A34}fragment A34 on Query{...A35 ...A35}fragment A35 on Query{...A36 ...A36}fragment A36 on Query{...A37 ...A37}fragment A37 on Query{...A38 ...A38}fragment A38 on Query{...A39 ...A39}fragment A39 on Query{...A40 ...A40}fragment A40 on Query{me{id}}\"}\n",
        "{\"out\":\"refused\",\"line\":1,\"code\":\"E17\"}\n",
    ),
    (
        "a field that is unknown",
        "{\"do\":\"dispatch\",\"id\":1,\"query\":\"{me{age}}\"}\n",
        "{\"out\":\"refused\",\"line\":1,\"code\":\"E8\",\"rule\":10}\n",
    ),
    (
        "fields of a text",
        "{\"do\":\"dispatch\",\"id\":1,\"query\":\"{me{name{x}}}\"}\n",
        "{\"out\":\"refused\",\"line\":1,\"code\":\"E8\",\"rule\":11}\n",
    ),
    (
        "an argument left out",
        "{\"do\":\"dispatch\",\"id\":1,\"query\":\"{todo{id}}\"}\n",
        "{\"out\":\"refused\",\"line\":1,\"code\":\"E8\",\"rule\":18}\n",
    ),
    (
        "a value of another type",
        "{\"do\":\"dispatch\",\"id\":1,\"query\":\"{todo(id:true){id}}\"}\n",
        "{\"out\":\"refused\",\"line\":1,\"code\":\"E8\",\"rule\":23}\n",
    ),
    (
        "a nullable variable at a Non-Null place",
        "{\"do\":\"dispatch\",\"id\":1,\"query\":\"query($d:String){todo(id:$d){id}}\"}\n",
        "{\"out\":\"refused\",\"line\":1,\"code\":\"E8\",\"rule\":25}\n",
    ),
    (
        "two objects under one key",
        "{\"do\":\"dispatch\",\"id\":1,\"query\":\"{todo(id:\\\"1\\\"){id} todo(id:\\\"2\\\"){id}}\"}\n",
        "{\"out\":\"refused\",\"line\":1,\"code\":\"E8\",\"rule\":26}\n",
    ),
    (
        "a mutation",
        "{\"do\":\"dispatch\",\"id\":1,\"query\":\"mutation($id:ID!){setDone(id:$id done:true){id}}\"}\n",
        "{\"out\":\"refused\",\"line\":1,\"code\":\"E15\"}\n",
    ),
    (
        "a subscription",
        "{\"do\":\"dispatch\",\"id\":1,\"query\":\"subscription{count}\"}\n",
        "{\"out\":\"refused\",\"line\":1,\"code\":\"E15\"}\n",
    ),
    (
        "a mutation that breaks a rule",
        "{\"do\":\"dispatch\",\"id\":1,\"query\":\"mutation{setDone(id:1){id}}\"}\n",
        "{\"out\":\"refused\",\"line\":1,\"code\":\"E8\",\"rule\":18}\n",
    ),
    (
        "the first variable that is left out",
        "{\"do\":\"dispatch\",\"id\":1,\"query\":\"query Q($id:ID! $x:ID!){todo(id:$id){id} x:todo(id:$x){id}}\",\"variables\":{\"x\":true}}\n",
        "{\"out\":\"refused\",\"line\":1,\"code\":\"E9\",\"variable\":\"id\"}\n",
    ),
    (
        "a variable of another type",
        "{\"do\":\"dispatch\",\"id\":1,\"query\":\"query($p:Page){count(page:$p)}\",\"variables\":{\"p\":{\"size\":\"1\"}}}\n",
        "{\"out\":\"refused\",\"line\":1,\"code\":\"E9\",\"variable\":\"p\"}\n",
    ),
    (
        "values that are accepted, and a default that is filled in",
        "{\"do\":\"dispatch\",\"id\":1,\"query\":\"query Q($p:Page={next:{}}){count(page:$p)}\",\"operationName\":\"Q\",\"variables\":{\"q\":1}}\n",
        "{\"out\":\"refused\",\"line\":1,\"code\":\"E3\",\"member\":\"query\"}\n",
    ),
];

#[test]
fn the_first_ground_is_told(rt: HostRuntime) -> Result<(), Fail> {
    for (name, input, output) in REFUSED {
        let ran = run(rt.alloc(), &PLAIN, input, &ALL_WELL)?;
        assert_eq!(rt; ran.status, 0, "{name}");
        assert_eq!(rt; ran.text.as_str(), output, "{name}");
    }
    Ok(())
}

/// What is refused changes nothing: the operation behind it is sent as the first.
#[test]
fn a_dispatch_behind_refused_ones_is_the_first(rt: HostRuntime) -> Result<(), Fail> {
    let input =
        "{\"do\":\"dispatch\",\"id\":1,\"query\":\"{me{age}}\"}\n{\"do\":\"dispatch\",\"id\":1,\"query\":\"query($p:Page){count(page:$p)}\",\"variables\":{\"p\":1}}\n{\"do\":\"dispatch\",\"id\":1,\"query\":\"{me{id}}\",\"operationName\":null,\"variables\":{\"x\":1}}\n";
    let output =
        "{\"out\":\"refused\",\"line\":1,\"code\":\"E8\",\"rule\":10}\n{\"out\":\"refused\",\"line\":2,\"code\":\"E9\",\"variable\":\"p\"}\n{\"out\":\"fetch\",\"fetch\":1,\"query\":\"{me{__typename id}}\",\"operationName\":null,\"variables\":{}}\n";
    let ran = run(rt.alloc(), &PLAIN, input, &ALL_WELL)?;
    assert_eq!(rt; ran.text.as_str(), output);
    Ok(())
}
