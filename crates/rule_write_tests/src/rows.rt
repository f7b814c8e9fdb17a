use crate::cases::{Case, first_wrong};
use std::test::Fail;

const DONE: &str = "mutation{setDone(id:\"1\",done:true){id done}}";

const DONE_BODY: &str =
    "{\"data\":{\"setDone\":{\"__typename\":\"Todo\",\"id\":\"1\",\"done\":true}}}";

const DONE_AT_ONCE: &str = "
[[optimistic]]
on = \"Mutation.setDone\"
type = \"Todo\"
fields = { id = \"$id\", done = \"$done\" }
";

const RENAMED_USER: &str = "
[[updater]]
on = \"Mutation.rename\"
action = \"invalidate\"
type = \"User\"
id = \"$id\"
";

const DONE_AND_TODOS: &str = "
[[optimistic]]
on = \"Mutation.setDone\"
type = \"Todo\"
fields = { id = \"$id\", done = \"$done\" }
[[updater]]
on = \"Mutation.setDone\"
action = \"invalidate-field\"
type = \"Query\"
field = \"todos\"
";

const DONE_GUESS: &str = "Todo:1 __typename=\"Todo\";Todo:1 done=true;Todo:1 id=\"1\";";

const DONE_AND_TODOS_GUESS: &str =
    "Todo:1 __typename=\"Todo\";Todo:1 done=true;Todo:1 id=\"1\";Query no todos;";

const ROWS: &[Case] = &[
    ("", DONE, DONE_BODY, "", ""),
    (DONE_AT_ONCE, DONE, DONE_BODY, DONE_GUESS, ""),
    (
        RENAMED_USER,
        "mutation{rename(id:\"7\",name:\"Bob\"){id}}",
        "{\"data\":{\"rename\":{\"__typename\":\"User\",\"id\":\"7\"}}}",
        "",
        "User:7 nothing;",
    ),
    (
        DONE_AND_TODOS,
        DONE,
        DONE_BODY,
        DONE_AND_TODOS_GUESS,
        "Query no todos;",
    ),
    (
        RENAMED_USER,
        "mutation{rename(id:7){id}}",
        "{\"data\":null}",
        "",
        "User:7 nothing;",
    ),
    (RENAMED_USER, DONE, DONE_BODY, "", ""),
];

#[test]
fn worked_rows(rt: HostRuntime) -> Result<(), Fail> {
    let wrong = first_wrong(rt.alloc(), ROWS)?;
    assert_eq!(rt; wrong, ROWS.len());
    Ok(())
}
