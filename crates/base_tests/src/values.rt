use gql_value::{
    Fault, JsonError, Members, Outcome, Value, Values, from_json, outcome_of, push_sorted_members,
    sorted_text, write_quoted, write_text,
};
use std::alloc::Global;
use std::test::Fail;
use text_types::{Bytes, Text};

fn value_of(alloc: Global, text: &str) -> Result<Value, Fail> {
    let json = serde_json::Value::from_str(alloc, text)?;
    Ok(from_json(alloc, &json)?)
}

#[test]
fn json_comes_back_compact_and_sorted(rt: HostRuntime) -> Result<(), Fail> {
    for (text, compact) in [
        (" null ", "null"),
        ("[true, false, []]", "[true,false,[]]"),
        ("{}", "{}"),
        ("9223372036854775807", "9223372036854775807"),
        ("-9223372036854775808", "-9223372036854775808"),
        ("[0, -1]", "[0,-1]"),
        (
            "{\"b\": [1, {\"c\": null}], \"a\": 2}",
            "{\"a\":2,\"b\":[1,{\"c\":null}]}",
        ),
        ("{\"a\": 1, \"a\": 2}", "{\"a\":2}"),
        ("\"\\u0041\\/\\u00e9\\u001F\"", "\"A/é\\u001f\""),
    ] {
        let mut out = Bytes::new(rt.alloc());
        write_text(&value_of(rt.alloc(), text)?, &mut out)?;
        assert_eq!(rt; out.as_slice(), compact.as_bytes(), "at {text}");
    }
    Ok(())
}

#[test]
fn the_first_number_that_is_not_whole_is_told(rt: HostRuntime) -> Result<(), Fail> {
    for (text, first) in [
        ("1.0", ""),
        ("1e2", ""),
        ("-0", ""),
        ("9223372036854775808", ""),
        ("-9223372036854775809", ""),
        ("[0, 1, 2.5, 3.5]", "2"),
        ("{\"b\": 1.5, \"a\": [7, {\"x\": 0.5}]}", "a.1.x"),
        ("[[1], [2, [3.5]], 4.5]", "1.1.0"),
        ("{\"\": 1.5}", ""),
        ("{\"a.b\": [1.5]}", "a.b.0"),
    ] {
        let json = serde_json::Value::from_str(rt.alloc(), text)?;
        match from_json(rt.alloc(), &json) {
            Err(JsonError::NotWhole { path }) => assert_eq!(rt; path.as_str(), first, "at {text}"),
            other => assert!(rt; false, "{text} gave {other:?}"),
        }
    }
    Ok(())
}

#[test]
fn texts_are_escaped_where_they_must_be(rt: HostRuntime) -> Result<(), Fail> {
    for (text, quoted) in [
        ("", "\"\""),
        (
            "plain, with spaces / and é",
            "\"plain, with spaces / and é\"",
        ),
        ("\"\\", "\"\\\"\\\\\""),
        ("\u{8}\u{c}\n\r\t", "\"\\b\\f\\n\\r\\t\""),
        (
            "\u{0}\u{1}\u{b}\u{1f} ",
            "\"\\u0000\\u0001\\u000b\\u001f \"",
        ),
        ("\u{7f}\u{2028}\u{1f600}", "\"\u{7f}\u{2028}\u{1f600}\""),
        ("a\nb\"c", "\"a\\nb\\\"c\""),
    ] {
        let mut out = Bytes::new(rt.alloc());
        write_quoted(&Text::from_str(rt.alloc(), text)?, &mut out)?;
        assert_eq!(rt; out.as_slice(), quoted.as_bytes());
    }
    Ok(())
}

#[test]
fn a_copy_is_the_same(rt: HostRuntime) -> Result<(), Fail> {
    let texts = [
        "null",
        "false",
        "0",
        "\"0\"",
        "[]",
        "[0]",
        "[0, 0]",
        "{}",
        "{\"a\": 0}",
        "{\"b\": 0}",
        "{\"a\": 0, \"b\": [{}]}",
    ];
    for (at, text) in texts.iter().enumerate() {
        let value = value_of(rt.alloc(), text)?;
        assert!(rt; value.copy(rt.alloc())?.same(&value), "at {text}");
        for (other_at, other) in texts.iter().enumerate() {
            let same = value.same(&value_of(rt.alloc(), other)?);
            assert_eq!(rt; same, at == other_at, "at {text} beside {other}");
        }
    }
    Ok(())
}

#[test]
fn members_keep_their_order_or_are_sorted(rt: HostRuntime) -> Result<(), Fail> {
    let mut inner = Members::new(rt.alloc());
    inner.push(Text::from_str(rt.alloc(), "d")?, Value::Null)?;
    inner.push(
        Text::from_str(rt.alloc(), "c")?,
        Value::List(Values::new(rt.alloc())),
    )?;
    let mut members = Members::new(rt.alloc());
    members.push(Text::from_str(rt.alloc(), "b")?, Value::Obj(inner))?;
    members.push(Text::from_str(rt.alloc(), "a")?, Value::Int(1))?;
    let mut key = Text::from_str(rt.alloc(), "key")?;
    push_sorted_members(rt.alloc(), &members, &mut key)?;
    assert_eq!(rt; key.as_str(), "key{\"a\":1,\"b\":{\"c\":[],\"d\":null}}");
    let value = Value::Obj(members);
    let mut out = Bytes::new(rt.alloc());
    write_text(&value, &mut out)?;
    assert_eq!(rt;
        out.as_slice(),
        b"{\"b\":{\"d\":null,\"c\":[]},\"a\":1}".as_slice()
    );
    let sorted = sorted_text(rt.alloc(), &value)?;
    assert_eq!(rt; sorted.as_str(), "{\"a\":1,\"b\":{\"c\":[],\"d\":null}}");
    Ok(())
}

fn told(alloc: Global, outcome: Outcome) -> Result<Text, Fail> {
    let told = match outcome {
        Outcome::Body { answer, errors } => {
            let answer = sorted_text(alloc, &answer)?;
            let errors = sorted_text(alloc, &errors)?;
            format!(in alloc; "{} {}", answer.as_str(), errors.as_str())?
        }
        Outcome::Bad(Fault::F3 { path }) => format!(in alloc; "F3 {}", path.as_str())?,
        Outcome::Bad(Fault::F4 { path }) => format!(in alloc; "F4 {}", path.as_str())?,
        Outcome::Bad(fault) => format!(in alloc; "{fault:?}")?,
    };
    Ok(Text::from_string(told))
}

#[test]
fn a_response_comes_to_an_answer_or_a_fault(rt: HostRuntime) -> Result<(), Fail> {
    let rows = [
        (200, "{\"data\":{\"a\":1}}", "{\"a\":1} []"),
        (299, "{\"data\":null,\"errors\":null,\"x\":1.5}", "null []"),
        (
            200,
            "{\"errors\":[{\"message\":\"no\",\"path\":[\"a\",0]}]}",
            "null [{\"message\":\"no\",\"path\":[\"a\",0]}]",
        ),
        (503, "{\"data\":null}", "F6"),
        (404, "", "F5 { status: 404 }"),
        (200, "", "F1"),
        (200, "{\"errors\":[]}", "F2"),
        (200, "[]", "F2"),
        (
            200,
            "{\"data\":{\"a\":[1,1.5]},\"errors\":1.5}",
            "F3 data.a.1",
        ),
        (
            200,
            "{\"data\":null,\"errors\":[{\"extensions\":{\"x\":0.5}}]}",
            "F3 errors.0.extensions.x",
        ),
        (200, "{\"data\":null,\"errors\":{}}", "F4 errors"),
        (
            200,
            "{\"data\":null,\"errors\":[{\"message\":\"a\"},{\"message\":\"b\",\"path\":[null]}]}",
            "F4 errors.1",
        ),
    ];
    for (status, body, expected) in rows {
        let outcome = outcome_of(rt.alloc(), status, body.as_bytes())?;
        assert_eq!(rt; told(rt.alloc(), outcome)?.as_str(), expected, "at {body}");
    }
    Ok(())
}
