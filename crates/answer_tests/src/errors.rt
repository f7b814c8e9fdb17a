use crate::values::answer_of;
use answer_model::Step;
use answer_parts::{error_paths, is_above_error, path_text};
use std::alloc::Global;
use std::test::Fail;
use text_types::Text;

/// The place that leads through these keys and indexes.
fn place(alloc: Global, dotted: &str) -> Result<Vec<Step>, Fail> {
    let mut place = Vec::new(alloc);
    for step in dotted.split('.') {
        if !step.is_empty() {
            place.push(step_of(alloc, step)?)?;
        }
    }
    Ok(place)
}

fn step_of(alloc: Global, text: &str) -> Result<Step, Fail> {
    match text.parse::<u64>() {
        Ok(index) => Ok(Step::Index(index)),
        Err(_) => Ok(Step::Key(Text::from_str(alloc, text)?)),
    }
}

#[test]
fn places_are_told_with_dots(rt: HostRuntime) -> Result<(), Fail> {
    let alloc = rt.alloc();
    let rows = [
        ("", "data"),
        ("me", "data.me"),
        ("todos.12.text", "data.todos.12.text"),
    ];
    for (dotted, expected) in rows {
        let told = path_text(alloc, &place(alloc, dotted)?)?;
        assert_eq!(rt; told.as_str(), expected);
    }
    Ok(())
}

/// Errors with paths, one whose path is null, and one without.
const ERRORS: &str =
    "{\"data\":{},\"errors\":[{\"message\":\"a\",\"path\":[\"me\",\"name\"]},{\"message\":\"b\",\"path\":[\"todos\",1,\"text\"]},{\"message\":\"c\",\"path\":[\"x\",\"0\"]},{\"message\":\"d\",\"path\":null},{\"message\":\"e\"}]}";

fn is_above(alloc: Global, body: &str, dotted: &str) -> Result<bool, Fail> {
    let (_, errors) = answer_of(alloc, body)?;
    let place = place(alloc, dotted)?;
    let paths = error_paths(alloc, &errors)?;
    Ok(is_above_error(paths.as_slice(), &place))
}

#[test]
fn places_lie_above_errors(rt: HostRuntime) -> Result<(), Fail> {
    let alloc = rt.alloc();
    let rows = [
        ("", true),
        ("me", true),
        ("me.name", true),
        ("me.name.x", false),
        ("you", false),
        ("todos.1", true),
        ("todos.0", false),
        ("x.0", false),
        ("y", false),
    ];
    for (dotted, expected) in rows {
        let found = is_above(alloc, ERRORS, dotted)?;
        assert!(rt; found == expected, "{dotted}");
    }
    Ok(())
}
