use gql_tokens::{
    Kind, Lexer, SyntaxError, Token, integer_value, lex, name_text, nesting, string_value,
};
use std::alloc::Global;
use std::test::Fail;

/// All tokens of a text with their places, as a text.
fn shown(alloc: Global, text: &[u8]) -> Result<String, Fail> {
    let mut out = String::new(alloc);
    let tokens = lex(alloc, text)?;
    for token in tokens.as_slice() {
        out.push_str(line(alloc, text, token)?.as_str())?;
    }
    Ok(out)
}

fn line(alloc: Global, text: &[u8], token: &Token) -> Result<String, Fail> {
    let bytes = text.get(token.start..token.end).ok_or("outside")?;
    let spelled = String::from_utf8_lossy(alloc, bytes)?;
    let kind = token.kind;
    let row = token.place.row;
    let column = token.place.column;
    Ok(format!(in alloc; "{kind:?} {row}:{column} {spelled};")?)
}

#[test]
fn each_kind_of_token(rt: HostRuntime) -> Result<(), Fail> {
    for (text, want) in [
        (b"".as_slice(), ""),
        (b"!$&", "Bang 1:1 !;Dollar 1:2 $;Ampersand 1:3 &;"),
        (b"()...", "ParenOpen 1:1 (;ParenClose 1:2 );Spread 1:3 ...;"),
        (b":=@", "Colon 1:1 :;Equals 1:2 =;At 1:3 @;"),
        (
            b"[]{|}",
            "BracketOpen 1:1 [;BracketClose 1:2 ];BraceOpen 1:3 {;Pipe 1:4 |;BraceClose 1:5 };",
        ),
        (b"_a9,B", "Name 1:1 _a9;Name 1:5 B;"),
        (b"0 -0 -12", "Integer 1:1 0;Integer 1:3 -0;Integer 1:6 -12;"),
        (
            b"9223372036854775807 -9223372036854775808",
            "Integer 1:1 9223372036854775807;Integer 1:21 -9223372036854775808;",
        ),
        (b"\"\"a", "String 1:1 \"\";Name 1:3 a;"),
        (b"\"a\\u00e9\\\"\"", "String 1:1 \"a\\u00e9\\\"\";"),
    ] {
        assert_eq!(rt; shown(rt.alloc(), text)?.as_str(), want, "at {text:?}");
    }
    Ok(())
}

#[test]
fn places_of_tokens(rt: HostRuntime) -> Result<(), Fail> {
    for (text, want) in [
        (b"a\nb".as_slice(), "Name 1:1 a;Name 2:1 b;"),
        (b"a\rb", "Name 1:1 a;Name 2:1 b;"),
        (b"a\r\nb", "Name 1:1 a;Name 2:1 b;"),
        (b"a\n\rb", "Name 1:1 a;Name 3:1 b;"),
        (b"\xEF\xBB\xBFa", "Name 1:2 a;"),
        (
            b"#\xC3\xA9\n\"\xF0\x9F\x98\x80\"a",
            "String 2:1 \"\u{1F600}\";Name 2:4 a;",
        ),
        (
            b"\"\"\"\r\n\r\"\"\" a",
            "String 1:1 \"\"\"\r\n\r\"\"\";Name 3:5 a;",
        ),
        (b"{ # }\r}", "BraceOpen 1:1 {;BraceClose 2:1 };"),
    ] {
        assert_eq!(rt; shown(rt.alloc(), text)?.as_str(), want, "at {text:?}");
    }
    Ok(())
}

#[test]
fn places_of_faults(rt: HostRuntime) {
    for (text, row, column) in [
        (b"01".as_slice(), 1, 1),
        (b"a 1a", 1, 3),
        (b"1.5", 1, 1),
        (b"1e3", 1, 1),
        (b"-", 1, 1),
        (b"9223372036854775808", 1, 1),
        (b"-9223372036854775809", 1, 1),
        (b"..", 1, 1),
        (b"a\n?", 2, 1),
        (b"# \x01", 1, 3),
        (b"#\xC3\xA9\xFF", 1, 3),
        (b"\xC3\xA9", 1, 1),
        (b"{me(a:\"\\ud800\"){id}}", 1, 7),
        (b"a \"b\n\"", 1, 3),
        (b"a \"\x01\"", 1, 3),
        (b"\"\xFF\"", 1, 1),
        (b"\"a", 1, 1),
        (b"\"\\x\"", 1, 1),
        (b"\"\\u00g0\"", 1, 1),
        (b"\r\n \"\"\"a\"\"", 2, 2),
    ] {
        let error = lex(rt.alloc(), text).err();
        let want = SyntaxError::Syntax { row, column };
        assert_eq!(rt; error, Some(want), "at {text:?}");
    }
}

#[test]
fn values_of_strings(rt: HostRuntime) -> Result<(), Fail> {
    for (text, want) in [
        (b"\"\"".as_slice(), ""),
        (b"\"a\\\"\\\\\\/\\b\\f\\n\\r\\t\"", "a\"\\/\u{8}\u{C}\n\r\t"),
        (b"\"\\u00e9\\u0041\"", "\u{E9}A"),
        (b"\"\\uD83D\\uDE00\"", "\u{1F600}"),
        (b"\"\"\"\"\"\"", ""),
        (b"\"\"\"a\"\"\"", "a"),
        (b"\"\"\"  a\n    b\n\n     c\r\n   \n\"\"\"", "  a\nb\n\n c"),
        (b"\"\"\"\n\n  a\\\"\"\"\\n\r  \"\"\"", "a\"\"\"\\n"),
        (b"\"\"\"\t\n \"\"\"", ""),
    ] {
        assert_eq!(rt;
            string_value(rt.alloc(), text)?.as_str(),
            want,
            "at {text:?}"
        );
    }
    Ok(())
}

#[test]
fn values_of_integers_and_names(rt: HostRuntime) -> Result<(), Fail> {
    assert_eq!(rt; integer_value(b"0"), 0);
    assert_eq!(rt; integer_value(b"-0"), 0);
    assert_eq!(rt; integer_value(b"-42"), -42);
    assert_eq!(rt; integer_value(b"-9223372036854775808"), i64::MIN);
    assert_eq!(rt; name_text(rt.alloc(), b"_a9")?.as_str(), "_a9");
    Ok(())
}

#[test]
fn nesting_of_texts(rt: HostRuntime) {
    for (text, want) in [
        (b"".as_slice(), 0),
        (b"{a(b:[1])}", 3),
        (b"{}{}", 1),
        (b")]}{(", 2),
        (b"{?{{", 1),
        (b"{#{\n\"{\"", 1),
    ] {
        assert_eq!(rt; nesting(text), want, "at {text:?}");
    }
}

#[test]
fn a_cursor_over_tokens(rt: HostRuntime) {
    let lexer = Lexer::new(b" a ?");
    assert_eq!(rt; lexer.kind(), Kind::Name);
    assert_eq!(rt; lexer.text(), b"a".as_slice());
    assert_eq!(rt; lexer.place().column, 2);
}
