//! Lines in, lines out.

use crate::outside::{ALL_WELL, PLAIN, run};
use std::test::Fail;

/// A name, the input, and what is written for it.
type Row = (&'static str, &'static str, &'static str);

const ROWS: [Row; 10] = [
    (
        "plain path",
        "{\"do\":\"dispatch\",\"id\":1,\"query\":\"{me{id name}}\"}\n{\"do\":\"response\",\"fetch\":1,\"body\":{\"data\":{\"me\":{\"__typename\":\"User\",\"id\":\"7\",\"name\":\"Ann\"}}}}\n",
        "{\"out\":\"fetch\",\"fetch\":1,\"query\":\"{me{__typename id name}}\",\"operationName\":null,\"variables\":{}}\n{\"out\":\"reply\",\"id\":1,\"data\":{\"me\":{\"id\":\"7\",\"name\":\"Ann\"}},\"partial\":false,\"stale\":false}\n",
    ),
    ("empty input", "", ""),
    (
        "a hit is answered at once",
        "{\"do\":\"dispatch\",\"id\":1,\"query\":\"{me{id name}}\"}\n{\"do\":\"response\",\"fetch\":1,\"body\":{\"data\":{\"me\":{\"__typename\":\"User\",\"id\":\"7\",\"name\":\"Ann\"}}}}\n{\"do\":\"dispatch\",\"id\":2,\"query\":\"{me{id}}\"}\n",
        "{\"out\":\"fetch\",\"fetch\":1,\"query\":\"{me{__typename id name}}\",\"operationName\":null,\"variables\":{}}\n{\"out\":\"reply\",\"id\":1,\"data\":{\"me\":{\"id\":\"7\",\"name\":\"Ann\"}},\"partial\":false,\"stale\":false}\n{\"out\":\"reply\",\"id\":2,\"data\":{\"me\":{\"id\":\"7\"}},\"partial\":false,\"stale\":false}\n",
    ),
    (
        "two selections of one entity, answered out of order",
        "{\"do\":\"dispatch\",\"id\":1,\"query\":\"{me{id name}}\"}\n{\"do\":\"dispatch\",\"id\":2,\"query\":\"{me{name id}}\"}\n{\"do\":\"response\",\"fetch\":2,\"body\":{\"data\":{\"me\":{\"__typename\":\"User\",\"id\":\"7\",\"name\":\"Bob\"}}}}\n{\"do\":\"response\",\"fetch\":1,\"body\":{\"data\":{\"me\":{\"__typename\":\"User\",\"id\":\"7\",\"name\":\"Ann\"}}}}\n",
        "{\"out\":\"fetch\",\"fetch\":1,\"query\":\"{me{__typename id name}}\",\"operationName\":null,\"variables\":{}}\n{\"out\":\"fetch\",\"fetch\":2,\"query\":\"{me{__typename name id}}\",\"operationName\":null,\"variables\":{}}\n{\"out\":\"reply\",\"id\":2,\"data\":{\"me\":{\"name\":\"Bob\",\"id\":\"7\"}},\"partial\":false,\"stale\":false}\n{\"out\":\"reply\",\"id\":1,\"data\":{\"me\":{\"id\":\"7\",\"name\":\"Bob\"}},\"partial\":false,\"stale\":false}\n",
    ),
    (
        "refusals, with blank lines counted",
        "{\"do\":\n \t\r\n{\"do\":\"quit\"}\n{\"do\":\"dispatch\",\"id\":-1,\"query\":\"{me{id}}\"}\n{\"do\":\"dispatch\",\"id\":1,\"query\":\"{me{id name}\"}\n\n{\"do\":\"response\",\"fetch\":1,\"body\":{}}",
        "{\"out\":\"refused\",\"line\":1,\"code\":\"E2\"}\n{\"out\":\"refused\",\"line\":3,\"code\":\"E3\",\"member\":\"do\"}\n{\"out\":\"refused\",\"line\":4,\"code\":\"E3\",\"member\":\"id\"}\n{\"out\":\"refused\",\"line\":5,\"code\":\"E6\",\"row\":1,\"column\":13}\n{\"out\":\"refused\",\"line\":7,\"code\":\"E3\",\"member\":\"do\"}\n",
    ),
    (
        "documents that aren't plain queries",
        "{\"do\":\"dispatch\",\"id\":1,\"query\":\"query A{me{id}}\"}\n{\"do\":\"dispatch\",\"id\":1,\"query\":\"{todo(id:\\\"1\\\"){id}}\"}\n{\"do\":\"dispatch\",\"id\":1,\"query\":\"{me{id id}}\"}\n{\"do\":\"dispatch\",\"id\":1,\"query\":\"{__typename}\"}\n{\"do\":\"dispatch\",\"id\":1,\"query\":\"{x:me{id}}\"}\n{\"do\":\"dispatch\",\"id\":1,\"query\":\"{...F} fragment F on Query{me{id}}\"}\n{\"do\":\"dispatch\",\"id\":1,\"query\":\"{me\\n}}\"}\n{\"do\":\"dispatch\",\"id\":1,\"query\":\"{{{{{{{{{{{{{{{{{{{{{{{{{{{{{{{{{{{{{{{{{{{{{{{{{{{{{{{{{{{{{{{{\"}\n{\"do\":\"dispatch\",\"id\":1,\"query\":\"{{{{{{{{{{{{{{{{{{{{{{{{{{{{{{{{{{{{{{{{{{{{{{{{{{{{{{{{{{{{{{{{{\"}\n{\"do\":\"dispatch\",\"id\":1,\"query\":\"query{me{id}}\"}\n",
        "{\"out\":\"refused\",\"line\":1,\"code\":\"E3\",\"member\":\"query\"}\n{\"out\":\"refused\",\"line\":2,\"code\":\"E3\",\"member\":\"query\"}\n{\"out\":\"refused\",\"line\":3,\"code\":\"E3\",\"member\":\"query\"}\n{\"out\":\"refused\",\"line\":4,\"code\":\"E3\",\"member\":\"query\"}\n{\"out\":\"refused\",\"line\":5,\"code\":\"E3\",\"member\":\"query\"}\n{\"out\":\"refused\",\"line\":6,\"code\":\"E3\",\"member\":\"query\"}\n{\"out\":\"refused\",\"line\":7,\"code\":\"E6\",\"row\":2,\"column\":2}\n{\"out\":\"refused\",\"line\":8,\"code\":\"E6\",\"row\":1,\"column\":2}\n{\"out\":\"refused\",\"line\":9,\"code\":\"E14\"}\n{\"out\":\"fetch\",\"fetch\":1,\"query\":\"{me{__typename id}}\",\"operationName\":null,\"variables\":{}}\n",
    ),
    (
        "an id that still waits is refused before its query is looked at",
        "{\"do\":\"dispatch\",\"id\":1,\"query\":\"{me{id}}\"}\n{\"do\":\"dispatch\",\"id\":1,\"query\":\"{\"}\n{\"do\":\"dispatch\",\"id\":1,\"query\":\"{\",\"operationName\":1}\n",
        "{\"out\":\"fetch\",\"fetch\":1,\"query\":\"{me{__typename id}}\",\"operationName\":null,\"variables\":{}}\n{\"out\":\"refused\",\"line\":2,\"code\":\"E3\",\"member\":\"do\"}\n{\"out\":\"refused\",\"line\":3,\"code\":\"E3\",\"member\":\"operationName\"}\n",
    ),
    (
        "an answer that isn't of the form leaves its operation waiting",
        "{\"do\":\"dispatch\",\"id\":1,\"query\":\"{me{name}}\"}\n{\"do\":\"response\",\"fetch\":1,\"body\":{\"data\":{\"me\":{\"name\":\"Ann\"}}}}\n{\"do\":\"response\",\"fetch\":1,\"body\":{\"data\":{\"me\":{\"__typename\":\"User\",\"name\":1.0}}}}\n{\"do\":\"response\",\"fetch\":1,\"body\":{\"data\":{\"me\":null},\"errors\":[]}}\n{\"do\":\"response\",\"fetch\":1,\"body\":{\"data\":{\"me\":null}}}\n",
        "{\"out\":\"fetch\",\"fetch\":1,\"query\":\"{me{__typename name}}\",\"operationName\":null,\"variables\":{}}\n{\"out\":\"refused\",\"line\":2,\"code\":\"E3\",\"member\":\"do\"}\n{\"out\":\"refused\",\"line\":3,\"code\":\"E3\",\"member\":\"do\"}\n{\"out\":\"refused\",\"line\":4,\"code\":\"E3\",\"member\":\"do\"}\n{\"out\":\"reply\",\"id\":1,\"data\":{\"me\":null},\"partial\":false,\"stale\":false}\n",
    ),
    (
        "an answer that a later operation's answer covers is told as a miss",
        "{\"do\":\"dispatch\",\"id\":1,\"query\":\"{me{id name}}\"}\n{\"do\":\"dispatch\",\"id\":2,\"query\":\"{me{id}}\"}\n{\"do\":\"response\",\"fetch\":2,\"body\":{\"data\":{\"me\":{\"__typename\":\"User\",\"id\":\"8\"}}}}\n{\"do\":\"response\",\"fetch\":1,\"body\":{\"data\":{\"me\":{\"__typename\":\"User\",\"id\":\"7\",\"name\":\"Ann\"}}}}\n",
        "{\"out\":\"fetch\",\"fetch\":1,\"query\":\"{me{__typename id name}}\",\"operationName\":null,\"variables\":{}}\n{\"out\":\"fetch\",\"fetch\":2,\"query\":\"{me{__typename id}}\",\"operationName\":null,\"variables\":{}}\n{\"out\":\"reply\",\"id\":2,\"data\":{\"me\":{\"id\":\"8\"}},\"partial\":false,\"stale\":false}\n{\"out\":\"reply\",\"id\":1,\"data\":null,\"partial\":false,\"stale\":false}\n",
    ),
    (
        "an object without an id is embedded where it stands",
        "{\"do\":\"dispatch\",\"id\":1,\"query\":\"{me{first{text} last{text}}}\"}\n{\"do\":\"response\",\"fetch\":1,\"body\":{\"data\":{\"me\":{\"__typename\":\"User\",\"first\":{\"__typename\":\"Todo\",\"text\":\"a\"},\"last\":{\"__typename\":\"Todo\",\"text\":\"b\"}}}}}\n",
        "{\"out\":\"fetch\",\"fetch\":1,\"query\":\"{me{__typename first{__typename text}last{__typename text}}}\",\"operationName\":null,\"variables\":{}}\n{\"out\":\"reply\",\"id\":1,\"data\":{\"me\":{\"first\":{\"text\":\"a\"},\"last\":{\"text\":\"b\"}}},\"partial\":false,\"stale\":false}\n",
    ),
];

#[test]
fn rows_write_their_lines(rt: HostRuntime) -> Result<(), Fail> {
    for (name, input, output) in ROWS {
        let ran = run(rt.alloc(), &PLAIN, input, &ALL_WELL)?;
        assert_eq!(rt; ran.status, 0, "{name}");
        assert_eq!(rt; ran.text.as_str(), output, "{name}");
        assert_eq!(rt; ran.taken, input.len(), "{name}");
    }
    Ok(())
}
