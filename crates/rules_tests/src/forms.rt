use crate::texts::{TYPES, is_accepted, is_refused, schema};
use std::test::Fail;

#[test]
fn what_is_no_toml(rt: HostRuntime) -> Result<(), Fail> {
    let alloc = rt.alloc();
    let schema = schema(alloc, TYPES)?;
    let rows = [
        "x = ",
        "[keys]\n[keys]",
        "[keys]\nUser = 9223372036854775808",
        "[[updater]]\non = 'a' on = 'b'",
    ];
    for text in rows {
        assert!(rt;
            is_refused(alloc, &schema, text.as_bytes(), 1, ""),
            "{text}"
        );
    }
    assert!(rt; is_refused(alloc, &schema, &[255], 1, ""));
    Ok(())
}

#[test]
fn unknown_tables(rt: HostRuntime) -> Result<(), Fail> {
    let alloc = rt.alloc();
    let schema = schema(alloc, TYPES)?;
    let rows = [
        "x = 1",
        "[other]",
        "keys = 1",
        "updater = 3",
        "[updater]",
        "[optimistic]",
        "[keys]\nUser = 1\n[other]",
    ];
    for text in rows {
        assert!(rt;
            is_refused(alloc, &schema, text.as_bytes(), 2, ""),
            "{text}"
        );
    }
    for text in ["", "# none", "[keys]", "updater = []"] {
        assert!(rt; is_accepted(alloc, &schema, text), "{text}");
    }
    Ok(())
}

const RENAME: &str = "[[updater]]\non='Mutation.rename'\n";

#[test]
fn updaters_of_another_form(rt: HostRuntime) -> Result<(), Fail> {
    let alloc = rt.alloc();
    let schema = schema(alloc, TYPES)?;
    let rows = [
        "type='User'\nid='1'",
        "action='drop'\ntype='User'\nid='1'",
        "action=1\ntype='User'\nid='1'",
        "action='invalidate'\nid='1'",
        "action='invalidate'\ntype=['User']\nid='1'",
        "action='invalidate'\ntype='User'",
        "action='invalidate'\ntype='Nope'",
        "action='invalidate'\ntype='Query'\nid='1'",
        "action='invalidate'\ntype='User'\nid=1.5",
        "action='invalidate'\ntype='User'\nid=2026-01-01",
        "action='invalidate'\ntype='User'\nid=['1']",
        "action='invalidate'\ntype='User'\nid='1'\nfield='name'",
        "action='invalidate-field'\ntype='User'\nid='1'",
        "action='invalidate-field'\ntype='User'\nid='1'\nfield='name'\nargs={}",
    ];
    for rest in rows {
        let text = format!(in alloc; "{RENAME}{rest}")?;
        assert!(rt;
            is_refused(alloc, &schema, text.as_bytes(), 2, "updater 1"),
            "{rest}"
        );
    }
    Ok(())
}

#[test]
fn actions_on_fields_of_another_form(rt: HostRuntime) -> Result<(), Fail> {
    let alloc = rt.alloc();
    let schema = schema(alloc, TYPES)?;
    let rows = [
        "action='write'\nvalue=1",
        "action='write'\nfield='nick'",
        "action='write'\nfield=1\nvalue=1",
        "action='write'\nfield='nick'\nvalue={}",
        "action='write'\nfield='nick'\nvalue=1\nto_id=1",
        "action='clear'",
        "action='clear'\nfield='nick'\nvalue=1",
        "action='clear'\nfield='friend'\nargs=1",
        "action='clear'\nfield='friend'\nargs={id=1.5}",
        "action='link'\nfield='friend'\nto_type='User'",
        "action='link'\nfield='friend'\nto_id='1'",
        "action='link'\nto_type='User'\nto_id='1'",
        "action='link'\nfield='friend'\nto_type='User'\nto_id='1'\nvalue=1",
    ];
    for rest in rows {
        let text = format!(in alloc; "{RENAME}type='User'\nid='1'\n{rest}")?;
        assert!(rt;
            is_refused(alloc, &schema, text.as_bytes(), 2, "updater 1"),
            "{rest}"
        );
    }
    Ok(())
}

#[test]
fn other_tables_of_another_form(rt: HostRuntime) -> Result<(), Fail> {
    let alloc = rt.alloc();
    let schema = schema(alloc, TYPES)?;
    let rows = [
        ("[keys]\nUser=1", "keys.User"),
        ("[keys]\nUser=['id']", "keys.User"),
        ("updater=[1]", "updater 1"),
        (
            "[[updater]]\naction='invalidate'\ntype='User'\nid=1",
            "updater 1",
        ),
        ("optimistic=['x']", "optimistic 1"),
        (
            "[[optimistic]]\non='Mutation.setDone'\ntype='Todo'",
            "optimistic 1",
        ),
        (
            "[[optimistic]]\non='Mutation.setDone'\nfields={id=1}",
            "optimistic 1",
        ),
        ("[[optimistic]]\ntype='Todo'\nfields={id=1}", "optimistic 1"),
        (
            "[[optimistic]]\non='Mutation.setDone'\ntype='Todo'\nfields='id'",
            "optimistic 1",
        ),
        (
            "[[optimistic]]\non='Mutation.setDone'\ntype='Todo'\nfields={id=[1]}",
            "optimistic 1",
        ),
        (
            "[[optimistic]]\non='Mutation.setDone'\ntype='Todo'\nfields={id=1}\nid=1",
            "optimistic 1",
        ),
    ];
    for (text, name) in rows {
        assert!(rt;
            is_refused(alloc, &schema, text.as_bytes(), 2, name),
            "{text}"
        );
    }
    Ok(())
}
