use fetch_link::{Asked, Fetch, Progress, Request, reply_text, request_text};
use gql_value::{Fault, Outcome, sorted_text};
use std::alloc::Global;
use std::str;
use std::test::Fail;
use text_types::Text;

fn code_of(fault: &Fault) -> &'static str {
    match fault {
        Fault::F1 => "F1",
        Fault::F2 => "F2",
        Fault::F6 => "F6",
        Fault::F7 => "F7",
        Fault::F8 => "F8",
        _ => "another",
    }
}

/// An outcome as a line: the answer and its errors as JSON, with members by name, or the fault's code.
fn told(alloc: Global, outcome: &Outcome) -> Result<Text, Fail> {
    let mut line = Text::new(alloc);
    match outcome {
        Outcome::Body { answer, errors } => {
            line.push(&sorted_text(alloc, answer)?)?;
            line.push_str(" ")?;
            line.push(&sorted_text(alloc, errors)?)?;
        }
        Outcome::Bad(fault) => line.push_str(code_of(fault))?,
    }
    Ok(line)
}

/// What a response comes to that comes in pieces of this size, and then the close.
fn outcome_of_pieces(alloc: Global, message: &[u8], size: usize) -> Result<Outcome, Fail> {
    let mut fetch = Fetch::start(alloc);
    for piece in message.chunks(size.max(1)) {
        if let Progress::Done(outcome) = fetch.poll(piece)? {
            return Ok(outcome);
        }
    }
    Ok(fetch.ended()?)
}

#[test]
fn a_response_comes_to_the_same_in_all_pieces(rt: HostRuntime) -> Result<(), Fail> {
    let rows = [
        (
            "HTTP/1.1 200 OK\r\nContent-Length: 2\r\nContent-Length: 3\r\n\r\n",
            "F7",
        ),
        (
            "HTTP/1.1 200 OK\r\nContent-Length: 2\r\ncontent-length: 2\r\n\r\n{}",
            "F2",
        ),
        ("HTTP/1.1 200 OK\r\nContent-Length: 8388609\r\n\r\n", "F8"),
        (
            "HTTP/1.1 200 OK\r\nTransfer-Encoding: chunked\r\n\r\nzz\r\n",
            "F7",
        ),
        ("HTTP/1.1 200 OK\r\nTransfer-Encoding: gzip\r\n\r\n", "F7"),
        ("HTTP/2.0 200 OK\r\n\r\n", "F7"),
        ("HTTP/1.1 204 No Content\r\n\r\n", "F1"),
        (
            "HTTP/1.1 200 OK\r\nContent-Length: 46\r\n\r\n{\"data\":{\"me\":{\"__typename\":\"User\",\"id\":\"7\"}}}",
            "{\"me\":{\"__typename\":\"User\",\"id\":\"7\"}} []",
        ),
        (
            "HTTP/1.1 200 OK\r\nContent-Length: 46\r\n\r\n{\"data\":{\"me\":{\"__typename\":\"User\",\"id\":\"7\"}}",
            "F6",
        ),
        (
            "HTTP/1.1 100 Continue\r\n\r\nHTTP/1.1 503 Wait\r\nContent-Length: 0\r\n\r\n",
            "F6",
        ),
        (
            "HTTP/1.1 100 Continue\r\n\r\nHTTP/1.1 200 OK\r\n\r\n{\"data\":null}",
            "null []",
        ),
        ("HTTP/1.1 100 Continue\r\n\r\n", "F6"),
        (
            "HTTP/1.1 200 OK\nTransfer-Encoding: ChunKed\nContent-Length: 9\n\n5;x=y\r\n{\"dat\r\n0F\r\na\":{\"me\":null}}\r\n0\r\nA: b\r\n\r\n",
            "{\"me\":null} []",
        ),
        (
            "HTTP/1.0 200\r\n\r\n{\"errors\":[{\"message\":\"no\"}],\"data\":{\"b\":1,\"a\":[-2,\"\\u00e9\"]}}",
            "{\"a\":[-2,\"é\"],\"b\":1} [{\"message\":\"no\"}]",
        ),
    ];
    for (message, expected) in rows {
        for size in 1..=message.len() {
            let outcome = outcome_of_pieces(rt.alloc(), message.as_bytes(), size)?;
            let line = told(rt.alloc(), &outcome)?;
            assert_eq!(rt; line.as_str(), expected, "at {message} in pieces of {size}");
        }
    }
    Ok(())
}

/// A chunk with this data.
fn append_chunk(alloc: Global, data: &str, message: &mut Text) -> Result<(), Fail> {
    let size = data.len();
    let line = format!(in alloc; "{size:x}\r\n")?;
    message.push_str(&line)?;
    message.push_str(data)?;
    message.push_str("\r\n")?;
    Ok(())
}

/// An answer of 200 items with texts of 200 letters, a chunk for each.
fn page(alloc: Global) -> Result<Text, Fail> {
    let letters = "a".repeat(alloc, 200)?;
    let mut message = Text::from_str(
        alloc,
        "HTTP/1.1 200 OK\r\nTransfer-Encoding: chunked\r\n\r\n",
    )?;
    append_chunk(alloc, "{\"data\":{\"todos\":[null", &mut message)?;
    for id in 1..=200 {
        let todo = format!(in alloc; ",{{\"id\":\"{id}\",\"text\":\"{letters}\",\"done\":false}}")?;
        append_chunk(alloc, &todo, &mut message)?;
    }
    append_chunk(alloc, "]}}", &mut message)?;
    message.push_str("0\r\n\r\n")?;
    Ok(message)
}

/// The line of its outcome.
fn page_told(alloc: Global) -> Result<Text, Fail> {
    let letters = "a".repeat(alloc, 200)?;
    let mut line = Text::from_str(alloc, "{\"todos\":[null")?;
    for id in 1..=200 {
        let todo = format!(in alloc; ",{{\"done\":false,\"id\":\"{id}\",\"text\":\"{letters}\"}}")?;
        line.push_str(&todo)?;
    }
    line.push_str("]} []")?;
    Ok(line)
}

#[test]
fn a_page_comes_in_arrivals(rt: HostRuntime) -> Result<(), Fail> {
    let message = page(rt.alloc())?;
    let expected = page_told(rt.alloc())?;
    for size in [1, 7, 1000, 1_000_000] {
        let outcome = outcome_of_pieces(rt.alloc(), message.as_bytes(), size)?;
        let line = told(rt.alloc(), &outcome)?;
        assert_eq!(rt; line.as_str(), expected.as_str(), "in arrivals of {size}");
    }
    Ok(())
}

/// What a request comes to that comes in pieces of this size.
fn asked_in_pieces(alloc: Global, message: &[u8], size: usize) -> Result<Asked, Fail> {
    let mut request = Request::start(alloc);
    for piece in message.chunks(size.max(1)) {
        match request.poll(piece)? {
            Asked::Wants => {}
            asked => return Ok(asked),
        }
    }
    Ok(Asked::Wants)
}

/// A request as a line: its method, target and body, or its bad status.
fn line_of(alloc: Global, asked: &Asked) -> Result<Text, Fail> {
    let mut line = Text::new(alloc);
    match asked {
        Asked::Wants => line.push_str("wants")?,
        Asked::Bad { status: 400 } => line.push_str("400")?,
        Asked::Bad { status: 413 } => line.push_str("413")?,
        Asked::Bad { .. } => line.push_str("another")?,
        Asked::Whole { method, path, body } => {
            line.push(method)?;
            line.push_str(" ")?;
            line.push(path)?;
            line.push_str(" ")?;
            line.push_str(str::from_utf8(body.as_slice()).unwrap_or("no text"))?;
        }
    }
    Ok(line)
}

#[test]
fn a_request_comes_to_the_same_in_all_pieces(rt: HostRuntime) -> Result<(), Fail> {
    let rows = [
        (
            "POST /graphql HTTP/1.1\r\nHost: x\r\nContent-Length: 20\r\n\r\n{\"query\":\"{me{id}}\"}",
            "POST /graphql {\"query\":\"{me{id}}\"}",
        ),
        ("\r\n\nGET /layers HTTP/1.1\r\n\r\n", "GET /layers "),
        ("GET /flat?x=1 HTTP/1.0\n\n", "GET /flat?x=1 "),
        (
            "POST /graphql HTTP/1.1\r\nTransfer-Encoding: chunked\r\n\r\n2\r\n{}\r\n0\r\n\r\n",
            "POST /graphql {}",
        ),
        (
            "POST / HTTP/1.1\r\nContent-Length: 2\r\nContent-Length: 3\r\n\r\n",
            "400",
        ),
        ("POST / HTTP/1.1\r\nContent-Length: x\r\n\r\n", "400"),
        ("GET / HTTP/2.0\r\n\r\n", "400"),
        (
            "POST / HTTP/1.1\r\nTransfer-Encoding: chunked\r\n\r\nzz\r\n",
            "400",
        ),
        ("POST / HTTP/1.1\r\nContent-Length: 8388609\r\n\r\n", "413"),
        ("POST / HTTP/1.1\r\nContent-Length: 3\r\n\r\nab", "wants"),
    ];
    for (message, expected) in rows {
        for size in 1..=message.len() {
            let asked = asked_in_pieces(rt.alloc(), message.as_bytes(), size)?;
            let line = line_of(rt.alloc(), &asked)?;
            assert_eq!(rt; line.as_str(), expected, "at {message} in pieces of {size}");
        }
    }
    Ok(())
}

#[test]
fn messages_are_written_as_they_are_sent(rt: HostRuntime) -> Result<(), Fail> {
    let document = Text::from_str(rt.alloc(), "{me{__typename id}}")?;
    let variables = Text::from_str(rt.alloc(), "{}")?;
    let request = request_text(rt.alloc(), 4000, &document, None, &variables)?;
    let sent =
        "POST /graphql HTTP/1.1\r\nHost: 127.0.0.1:4000\r\nContent-Type: application/json\r\nAccept: application/json\r\nContent-Length: 67\r\nConnection: close\r\n\r\n{\"query\":\"{me{__typename id}}\",\"operationName\":null,\"variables\":{}}";
    assert_eq!(rt; request.as_slice(), sent.as_bytes());
    let reply = reply_text(rt.alloc(), 200, b"{\"data\":{\"me\":{\"id\":\"7\"}}}")?;
    let told =
        "HTTP/1.1 200 OK\r\nContent-Type: application/json\r\nContent-Length: 26\r\nConnection: close\r\n\r\n{\"data\":{\"me\":{\"id\":\"7\"}}}";
    assert_eq!(rt; reply.as_slice(), told.as_bytes());
    Ok(())
}
