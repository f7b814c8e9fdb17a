//! Words, files and faults: each status, and what is written with it.

use crate::outside::{ALL_WELL, Meets, PLAIN, run};
use std::test::Fail;

const DISPATCH: &str =
    "{\"do\":\"dispatch\",\"id\":1,\"query\":\"{me{id name}}\"}\n{\"do\":\"response\",\"fetch\":1,\"body\":{\"data\":{\"me\":{\"__typename\":\"User\",\"id\":\"7\",\"name\":\"Ann\"}}}}\n";

/// The words of a plain run with a limit.
fn limited(limit: &'static str) -> [&'static str; 9] {
    [
        "run",
        "--schema",
        "todo.graphql",
        "--rules",
        "none.toml",
        "--queue",
        "todo.queue",
        "--max-input",
        limit,
    ]
}

#[test]
fn other_words_are_refused(rt: HostRuntime) -> Result<(), Fail> {
    let rows: [&[&str]; 12] = [
        &[],
        &["run"],
        &["run", "--schema", "s", "--rules", "r", "--queue"],
        &["run", "--rules", "s", "--schema", "r", "--queue", "q"],
        &[
            "run", "--schema", "s", "--rules", "r", "--queue", "q", "more",
        ],
        &limited("0"),
        &limited(""),
        &limited("+1"),
        &limited("1099511627777"),
        &limited("18446744073709551617"),
        &limited("1x"),
        &[
            "run",
            "--schema",
            "s",
            "--rules",
            "r",
            "--queue",
            "q",
            "--max-inputs",
            "1",
        ],
    ];
    for words in rows {
        let ran = run(rt.alloc(), words, DISPATCH, &ALL_WELL)?;
        assert_eq!(rt; ran.status, 2);
        assert_eq!(rt; ran.text.as_str(), "");
        assert_eq!(rt; ran.taken, 0);
    }
    Ok(())
}

#[test]
fn a_missing_file_stops_the_run(rt: HostRuntime) -> Result<(), Fail> {
    let no_schema = [
        "run",
        "--schema",
        "x",
        "--rules",
        "none.toml",
        "--queue",
        "q",
    ];
    let ran = run(rt.alloc(), &no_schema, DISPATCH, &ALL_WELL)?;
    assert_eq!(rt; ran.status, 3);
    assert_eq!(rt;
        ran.text.as_str(),
        "{\"out\":\"stopped\",\"status\":3,\"file\":\"schema\",\"code\":\"missing\"}\n"
    );
    let without_rules = Meets {
        has_rules: false,
        ..ALL_WELL
    };
    let ran = run(rt.alloc(), &PLAIN, DISPATCH, &without_rules)?;
    assert_eq!(rt; ran.status, 3);
    assert_eq!(rt;
        ran.text.as_str(),
        "{\"out\":\"stopped\",\"status\":3,\"file\":\"rules\",\"code\":\"missing\"}\n"
    );
    assert_eq!(rt; ran.taken, 0);
    Ok(())
}

#[test]
fn a_failing_read_ends_the_run(rt: HostRuntime) -> Result<(), Fail> {
    let meets = Meets {
        failing_read: 2,
        ..ALL_WELL
    };
    let ran = run(rt.alloc(), &PLAIN, DISPATCH, &meets)?;
    assert_eq!(rt; ran.status, 4);
    Ok(())
}

#[test]
fn a_failing_write_ends_the_run(rt: HostRuntime) -> Result<(), Fail> {
    let meets = Meets {
        failing_write: 1,
        ..ALL_WELL
    };
    let ran = run(rt.alloc(), &PLAIN, DISPATCH, &meets)?;
    assert_eq!(rt; ran.status, 5);
    assert_eq!(rt; ran.text.as_str(), "");
    Ok(())
}

/// Each whole line is run, and its text written, before more input is read.
#[test]
fn a_line_is_written_before_the_next_is_read(rt: HostRuntime) -> Result<(), Fail> {
    let meets = Meets {
        piece: 1,
        failing_write: 1,
        ..ALL_WELL
    };
    let ran = run(rt.alloc(), &PLAIN, DISPATCH, &meets)?;
    assert_eq!(rt; ran.status, 5);
    assert_eq!(rt; ran.taken, 49);
    Ok(())
}

/// The limit is kept to the byte: the first line has 49.
#[test]
fn input_past_the_limit_stops_the_run(rt: HostRuntime) -> Result<(), Fail> {
    let line = DISPATCH.split_at(49).0;
    let fetch =
        "{\"out\":\"fetch\",\"fetch\":1,\"query\":\"{me{__typename id name}}\",\"operationName\":null,\"variables\":{}}\n";
    let stopped = "{\"out\":\"stopped\",\"status\":10}\n";
    let rows = [
        ("49", 0, fetch, 49),
        ("0000000000000000000000000000000000000049", 0, fetch, 49),
        ("1099511627776", 0, fetch, 49),
        ("48", 10, stopped, 49),
        ("1", 10, stopped, 2),
    ];
    for (limit, status, text, taken) in rows {
        let ran = run(rt.alloc(), &limited(limit), line, &ALL_WELL)?;
        assert_eq!(rt; ran.status, status, "{limit}");
        assert_eq!(rt; ran.text.as_str(), text, "{limit}");
        assert_eq!(rt; ran.taken, taken, "{limit}");
    }
    Ok(())
}
