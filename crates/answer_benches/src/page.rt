//! The body of a response with many todos.

use crate::stop::Stop;
use std::alloc::Global;

/// The author of every todo.
const AUTHOR: &str = "\"author\":{\"__typename\":\"User\",\"id\":\"7\"";

/// How many letters the text of a todo has.
const LETTERS: u64 = 200;

/// The body of an answer to the query, with so many todos.
pub(crate) fn body(alloc: Global, todos: u64) -> Result<String, Stop> {
    let text = letters(alloc)?;
    let mut list = String::new(alloc);
    let mut comma = "";
    for number in 0..todos {
        let todo = todo(alloc, number, &text)?;
        list.push_str(comma)?;
        list.push_str(&todo)?;
        comma = ",";
    }
    Ok(format!(in alloc;
        "{{\"data\":{{\"todos\":[{list}],\"todo\":{{\"__typename\":\"Todo\",\"id\":\"1\",{AUTHOR},\"nick\":null}}}}}}}}"
    )?)
}

fn todo(alloc: Global, number: u64, text: &str) -> Result<String, Stop> {
    Ok(format!(in alloc;
        "{{\"__typename\":\"Todo\",\"id\":\"{number}\",\"text\":\"{text}\",\"done\":false,{AUTHOR},\"name\":\"Ann\"}}}}"
    )?)
}

/// A text of that many letters.
fn letters(alloc: Global) -> Result<String, Stop> {
    let mut text = String::new(alloc);
    for _ in 0..LETTERS {
        text.push_str("a")?;
    }
    Ok(text)
}
