use gate_frames::{Framed, commands_of_line};
use gql_value::{Members, Outcome, write_text};
use itoa::Buffer;
use machine_model::{Command, Commands, Dispatch};
use output_lines::line_of;
use send_rules::Policy;
use std::alloc::Global;
use std::test::Fail;
use text_types::{Bytes, Memory, Text};

/// Lines, and what each comes to as line 9 of peer 4: a command in a few words, or the line that refuses it.
const LINES: &[(&str, &str)] = &[
    (
        "{\"do\":",
        "{\"out\":\"refused\",\"line\":9,\"code\":\"E2\"}\n",
    ),
    (
        "[]",
        "{\"out\":\"refused\",\"line\":9,\"code\":\"E3\",\"member\":\"do\"}\n",
    ),
    (
        "{\"do\":1}",
        "{\"out\":\"refused\",\"line\":9,\"code\":\"E3\",\"member\":\"do\"}\n",
    ),
    (
        "{\"do\":\"Quit\"}",
        "{\"out\":\"refused\",\"line\":9,\"code\":\"E3\",\"member\":\"do\"}\n",
    ),
    ("{\"do\":\"quit\",\"id\":1.5}", "quit"),
    ("{\"do\":\"online\"}", "online"),
    ("{\"do\":\"layers\"}", "layers 4"),
    ("{\"do\":\"flat\"}", "flat 4"),
    ("{\"do\":\"teardown\",\"id\":7}", "teardown 4 7 9"),
    (
        "{\"do\":\"teardown\",\"id\":-1}",
        "{\"out\":\"refused\",\"line\":9,\"code\":\"E3\",\"member\":\"id\"}\n",
    ),
    (
        "{\"do\":\"teardown\",\"id\":1.0}",
        "{\"out\":\"refused\",\"line\":9,\"code\":\"E3\",\"member\":\"id\"}\n",
    ),
    ("{\"do\":\"failure\",\"fetch\":3}", "respond 4 3 9 fault"),
    (
        "{\"do\":\"failure\"}",
        "{\"out\":\"refused\",\"line\":9,\"code\":\"E3\",\"member\":\"fetch\"}\n",
    ),
    (
        "{\"do\":\"response\",\"fetch\":3,\"body\":{\"data\":{\"b\":1,\"a\":[true,null,\"x\"]}}}",
        "respond 4 3 9 {\"a\":[true,null,\"x\"],\"b\":1}[]",
    ),
    (
        "{\"do\":\"response\",\"fetch\":3,\"status\":299,\"text\":\"{\\\"data\\\":{}}\"}",
        "respond 4 3 9 {}[]",
    ),
    (
        "{\"do\":\"response\",\"fetch\":3,\"status\":502,\"body\":{\"data\":{}}}",
        "respond 4 3 9 fault",
    ),
    (
        "{\"do\":\"response\",\"fetch\":3,\"body\":null}",
        "respond 4 3 9 fault",
    ),
    (
        "{\"do\":\"response\",\"status\":1,\"body\":1,\"text\":\"\"}",
        "{\"out\":\"refused\",\"line\":9,\"code\":\"E3\",\"member\":\"fetch\"}\n",
    ),
    (
        "{\"do\":\"response\",\"fetch\":3,\"status\":99,\"body\":1,\"text\":\"\"}",
        "{\"out\":\"refused\",\"line\":9,\"code\":\"E3\",\"member\":\"status\"}\n",
    ),
    (
        "{\"do\":\"response\",\"fetch\":3,\"status\":1000,\"body\":1}",
        "{\"out\":\"refused\",\"line\":9,\"code\":\"E3\",\"member\":\"status\"}\n",
    ),
    (
        "{\"do\":\"response\",\"fetch\":3,\"status\":null,\"body\":1}",
        "{\"out\":\"refused\",\"line\":9,\"code\":\"E3\",\"member\":\"status\"}\n",
    ),
    (
        "{\"do\":\"response\",\"fetch\":3,\"body\":1,\"text\":\"\"}",
        "{\"out\":\"refused\",\"line\":9,\"code\":\"E3\",\"member\":\"body\"}\n",
    ),
    (
        "{\"do\":\"response\",\"fetch\":3}",
        "{\"out\":\"refused\",\"line\":9,\"code\":\"E3\",\"member\":\"body\"}\n",
    ),
    (
        "{\"do\":\"response\",\"fetch\":3,\"text\":1}",
        "{\"out\":\"refused\",\"line\":9,\"code\":\"E3\",\"member\":\"body\"}\n",
    ),
    (
        "{\"do\":\"dispatch\",\"id\":5,\"query\":\"{me}\"}",
        "dispatch 4 5 9 {me} - cache-first",
    ),
    (
        "{\"do\":\"dispatch\",\"id\":5,\"query\":\"{me}\",\"operationName\":\"A\",\"variables\":{\"n\":1,\"b\":null},\"policy\":\"network-only\",\"then\":[{\"do\":\"online\"},{\"do\":\"teardown\",\"id\":5},{\"do\":\"dispatch\",\"id\":6,\"query\":\"{you}\"}]}",
        "dispatch 4 5 9 {me} A b=null n=1 network-only then online then teardown then dispatch",
    ),
    (
        "{\"do\":\"dispatch\",\"id\":5,\"query\":\"{me}\",\"operationName\":null,\"variables\":null,\"policy\":\"cache-and-network\",\"then\":[]}",
        "dispatch 4 5 9 {me} - cache-and-network",
    ),
    (
        "{\"do\":\"dispatch\",\"query\":1,\"operationName\":1}",
        "{\"out\":\"refused\",\"line\":9,\"code\":\"E3\",\"member\":\"id\"}\n",
    ),
    (
        "{\"do\":\"dispatch\",\"id\":5,\"query\":1,\"operationName\":1}",
        "{\"out\":\"refused\",\"line\":9,\"code\":\"E3\",\"member\":\"query\"}\n",
    ),
    (
        "{\"do\":\"dispatch\",\"id\":5,\"query\":\"\",\"operationName\":1,\"variables\":[]}",
        "{\"out\":\"refused\",\"line\":9,\"code\":\"E3\",\"member\":\"operationName\"}\n",
    ),
    (
        "{\"do\":\"dispatch\",\"id\":5,\"query\":\"\",\"variables\":[],\"policy\":null}",
        "{\"out\":\"refused\",\"line\":9,\"code\":\"E3\",\"member\":\"variables\"}\n",
    ),
    (
        "{\"do\":\"dispatch\",\"id\":5,\"query\":\"\",\"policy\":null,\"then\":null}",
        "{\"out\":\"refused\",\"line\":9,\"code\":\"E3\",\"member\":\"policy\"}\n",
    ),
    (
        "{\"do\":\"dispatch\",\"id\":5,\"query\":\"\",\"policy\":\"cache-only\",\"then\":null}",
        "{\"out\":\"refused\",\"line\":9,\"code\":\"E3\",\"member\":\"then\"}\n",
    ),
    (
        "{\"do\":\"dispatch\",\"id\":5,\"query\":\"\",\"then\":[{\"do\":\"flat\"}]}",
        "{\"out\":\"refused\",\"line\":9,\"code\":\"E3\",\"member\":\"then\"}\n",
    ),
    (
        "{\"do\":\"dispatch\",\"id\":5,\"query\":\"\",\"variables\":{\"x\":1.5},\"then\":[{\"do\":\"dispatch\",\"id\":5,\"query\":\"\",\"then\":[{\"do\":\"teardown\"}]}]}",
        "{\"out\":\"refused\",\"line\":9,\"code\":\"E3\",\"member\":\"then\"}\n",
    ),
    (
        "{\"do\":\"dispatch\",\"id\":5,\"query\":\"\",\"variables\":{\"y\":[0,{\"z\":1e2}],\"x\":1.0}}",
        "{\"out\":\"refused\",\"line\":9,\"code\":\"E11\",\"path\":\"variables.x\"}\n",
    ),
    (
        "{\"do\":\"dispatch\",\"id\":5,\"query\":\"\",\"variables\":{\"y\":[0,{\"z\":1e2}]},\"then\":[{\"do\":\"dispatch\",\"id\":5,\"query\":\"\",\"variables\":{\"x\":0.5}}]}",
        "{\"out\":\"refused\",\"line\":9,\"code\":\"E11\",\"path\":\"variables.y.1.z\"}\n",
    ),
    (
        "{\"do\":\"dispatch\",\"id\":5,\"query\":\"\",\"then\":[{\"do\":\"online\",\"variables\":0.5},{\"do\":\"dispatch\",\"id\":5,\"query\":\"\",\"then\":[{\"do\":\"dispatch\",\"id\":5,\"query\":\"\",\"variables\":{\"x\":0.5}}]}]}",
        "{\"out\":\"refused\",\"line\":9,\"code\":\"E11\",\"path\":\"then.1.then.0.variables.x\"}\n",
    ),
];

#[test]
fn each_line_comes_to_its_frame(rt: HostRuntime) -> Result<(), Fail> {
    for (line, told) in LINES {
        let framed = commands_of_line(rt.alloc(), 4, 9, line.as_bytes())?;
        let text = text_of_framed(rt.alloc(), &framed)?;
        assert_eq!(rt; text.as_slice(), told.as_bytes(), "{line}");
    }
    Ok(())
}

const NO_JSON: &str = "{\"out\":\"refused\",\"line\":9,\"code\":\"E2\"}\n";

const TOO_LONG: &str = "{\"out\":\"refused\",\"line\":9,\"code\":\"E1\"}\n";

#[test]
fn a_line_of_8_388_609_bytes_is_too_long(rt: HostRuntime) -> Result<(), Fail> {
    for (len, told) in [(8_388_608, NO_JSON), (8_388_609, TOO_LONG)] {
        let line = spaces(rt.alloc(), len)?;
        let framed = commands_of_line(rt.alloc(), 4, 9, line.as_slice())?;
        let text = text_of_framed(rt.alloc(), &framed)?;
        assert_eq!(rt; text.as_slice(), told.as_bytes(), "{len}");
    }
    Ok(())
}

fn spaces(alloc: Global, len: usize) -> Result<Bytes, Fail> {
    let mut line = Vec::new(alloc);
    line.resize(len, b' ')?;
    Ok(Bytes::from_vec(line))
}

fn text_of_framed(alloc: Global, framed: &Framed) -> Result<Bytes, Fail> {
    let mut text = Bytes::new(alloc);
    match framed {
        Framed::Run(command) => write_command(command, &mut text)?,
        Framed::Quit => text.append(b"quit")?,
        Framed::Refused(out) => line_of(out, &mut text)?,
    }
    Ok(text)
}

fn write_command(command: &Command, text: &mut Bytes) -> Result<(), Memory> {
    text.append(word_of(command).as_bytes())?;
    match command {
        Command::Dispatch(dispatch) => write_dispatch(dispatch, text),
        Command::Teardown { peer, id, line } => write_numbers(&[*peer, *id, *line], text),
        Command::Respond {
            peer,
            fetch,
            line,
            outcome,
        } => {
            write_numbers(&[*peer, *fetch, *line], text)?;
            write_outcome(outcome, text)
        }
        Command::Layers { peer } => write_numbers(&[*peer], text),
        Command::Flat { peer } => write_numbers(&[*peer], text),
        _ => Ok(()),
    }
}

fn write_dispatch(dispatch: &Dispatch, text: &mut Bytes) -> Result<(), Memory> {
    write_numbers(&[dispatch.peer, dispatch.id, dispatch.line], text)?;
    text.append(b" ")?;
    text.append(dispatch.query.as_bytes())?;
    write_operation(&dispatch.operation, text)?;
    write_variables(&dispatch.variables, text)?;
    text.append(policy_word(dispatch.policy).as_bytes())?;
    write_follow_ups(&dispatch.then, text)
}

fn write_numbers(numbers: &[u64], text: &mut Bytes) -> Result<(), Memory> {
    for number in numbers {
        text.append(b" ")?;
        text.append(Buffer::new().format(*number).as_bytes())?;
    }
    Ok(())
}

fn write_operation(operation: &Option<Text>, text: &mut Bytes) -> Result<(), Memory> {
    text.append(b" ")?;
    match operation {
        None => text.append(b"-"),
        Some(name) => text.append(name.as_bytes()),
    }
}

fn write_variables(variables: &Members, text: &mut Bytes) -> Result<(), Memory> {
    for member in variables.as_slice() {
        let (name, value) = member;
        text.append(b" ")?;
        text.append(name.as_bytes())?;
        text.append(b"=")?;
        write_text(value, text)?;
    }
    Ok(())
}

fn policy_word(policy: Policy) -> &'static str {
    match policy {
        Policy::CacheFirst => " cache-first",
        Policy::CacheOnly => " cache-only",
        Policy::NetworkOnly => " network-only",
        Policy::CacheAndNetwork => " cache-and-network",
    }
}

fn write_follow_ups(commands: &Commands, text: &mut Bytes) -> Result<(), Memory> {
    for command in commands.as_slice() {
        text.append(b" then ")?;
        text.append(word_of(command).as_bytes())?;
    }
    Ok(())
}

fn word_of(command: &Command) -> &'static str {
    match command {
        Command::Dispatch(_) => "dispatch",
        Command::Teardown { .. } => "teardown",
        Command::Respond { .. } => "respond",
        Command::Online => "online",
        Command::Layers { .. } => "layers",
        Command::Flat { .. } => "flat",
        Command::Gone { .. } => "gone",
    }
}

fn write_outcome(outcome: &Outcome, text: &mut Bytes) -> Result<(), Memory> {
    text.append(b" ")?;
    match outcome {
        Outcome::Body { answer, errors } => {
            write_text(answer, text)?;
            write_text(errors, text)
        }
        Outcome::Bad(_) => text.append(b"fault"),
    }
}
