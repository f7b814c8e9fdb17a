use crate::texts::{TYPES, is_refused, schema};
use std::test::Fail;

const UPDATER: &str = "[[updater]]\non='Mutation.rename'\naction='invalidate'\ntype='User'\nid=1\n";

const WRONG_UPDATER: &str = "[[updater]]\non='x'\naction='invalidate'\ntype='x'\nid='$x'\n";

const OPTIMISTIC: &str = "[[optimistic]]\non='Mutation.setDone'\ntype='Todo'\nfields={id=1}\n";

const WRONG_KEYS: &str = "[keys]\nUser='nope'\nTodo=1\n";

#[test]
fn the_first_table_is_told(rt: HostRuntime) -> Result<(), Fail> {
    let alloc = rt.alloc();
    let schema = schema(alloc, TYPES)?;
    let none = "";
    let rows = [
        (UPDATER, WRONG_UPDATER, none, 3, "updater 2"),
        (WRONG_UPDATER, WRONG_UPDATER, none, 3, "updater 1"),
        (OPTIMISTIC, UPDATER, OPTIMISTIC, 8, "optimistic 2"),
        (OPTIMISTIC, OPTIMISTIC, WRONG_UPDATER, 3, "updater 1"),
        (WRONG_UPDATER, OPTIMISTIC, WRONG_KEYS, 2, "keys.Todo"),
        ("[other]\n", WRONG_UPDATER, WRONG_KEYS, 2, ""),
        (WRONG_UPDATER, WRONG_KEYS, "x = ", 1, ""),
    ];
    for (first, second, third, code, name) in rows {
        let text = format!(in alloc; "{first}{second}{third}")?;
        assert!(rt;
            is_refused(alloc, &schema, text.as_bytes(), code, name),
            "{text}"
        );
    }
    Ok(())
}
