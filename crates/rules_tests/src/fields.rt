use crate::texts::{TYPES, is_accepted, is_refused, schema};
use std::test::Fail;

#[test]
fn key_fields(rt: HostRuntime) -> Result<(), Fail> {
    let alloc = rt.alloc();
    let schema = schema(alloc, TYPES)?;
    let rows = [
        ("Nope='id'", 4, "keys.Nope"),
        ("Node='id'", 4, "keys.Node"),
        ("Any='none'", 4, "keys.Any"),
        ("Color='none'", 4, "keys.Color"),
        ("User='nope'", 5, "keys.User"),
        ("User='__typename'", 5, "keys.User"),
        ("User='friend'", 5, "keys.User"),
        ("Tag='id'", 5, "keys.Tag"),
    ];
    for (rest, code, name) in rows {
        let text = format!(in alloc; "[keys]\n{rest}")?;
        assert!(rt;
            is_refused(alloc, &schema, text.as_bytes(), code, name),
            "{rest}"
        );
    }
    assert!(rt; is_accepted(alloc, &schema, "[keys]\nUser='name'\nTag='none'\nTodo='id'"));
    Ok(())
}

#[test]
fn updaters(rt: HostRuntime) -> Result<(), Fail> {
    let alloc = rt.alloc();
    let schema = schema(alloc, TYPES)?;
    let rows = [
        (
            "on='Mutation.nope'\naction='invalidate'\ntype='User'\nid=1",
            3,
        ),
        ("on='Query.me'\naction='invalidate'\ntype='User'\nid=1", 3),
        ("on='Mutation'\naction='invalidate'\ntype='User'\nid=1", 3),
        ("on=''\naction='invalidate'\ntype='User'\nid=1", 3),
        (
            "on='Mutation.__typename'\naction='invalidate'\ntype='User'\nid=1",
            3,
        ),
        (
            "on='Subscription.rename'\naction='invalidate'\ntype='User'\nid=1",
            3,
        ),
        (
            "on='Mutation.clear'\naction='invalidate'\ntype='Nope'\nid=1",
            4,
        ),
        (
            "on='Mutation.clear'\naction='invalidate'\ntype='Node'\nid=1",
            4,
        ),
        (
            "on='Mutation.clear'\naction='link'\ntype='User'\nid=1\nfield='nope'\nto_type='Any'\nto_id=1",
            4,
        ),
        (
            "on='Mutation.clear'\naction='clear'\ntype='User'\nid=1\nfield='nope'",
            5,
        ),
        (
            "on='Mutation.clear'\naction='clear'\ntype='User'\nid=1\nfield='__typename'",
            5,
        ),
        (
            "on='Mutation.clear'\naction='invalidate-field'\ntype='Query'\nfield='nope'",
            5,
        ),
        (
            "on='Mutation.clear'\naction='write'\ntype='User'\nid=1\nfield='nope'\nvalue='$x'",
            5,
        ),
    ];
    for (rest, code) in rows {
        let text = format!(in alloc; "[[updater]]\n{rest}")?;
        assert!(rt;
            is_refused(alloc, &schema, text.as_bytes(), code, "updater 1"),
            "{rest}"
        );
    }
    Ok(())
}

#[test]
fn terms_of_updaters(rt: HostRuntime) -> Result<(), Fail> {
    let alloc = rt.alloc();
    let schema = schema(alloc, TYPES)?;
    let rows = [
        ("rename", "action='invalidate'\nid='$x'", 6),
        (
            "rename",
            "action='write'\nid=1\nfield='nick'\nvalue='$x'",
            6,
        ),
        (
            "rename",
            "action='clear'\nid=1\nfield='friend'\nargs={x=1}",
            6,
        ),
        (
            "rename",
            "action='clear'\nid=1\nfield='friend'\nargs={id='$x'}",
            6,
        ),
        (
            "rename",
            "action='link'\nid=1\nfield='friend'\nto_type='User'\nto_id='$'",
            6,
        ),
        ("rename", "action='invalidate'\nid='@x'", 7),
        ("rename", "action='invalidate'\nid='@__typename'", 7),
        (
            "rename",
            "action='write'\nid='$id'\nfield='nick'\nvalue='@x'",
            7,
        ),
        (
            "rename",
            "action='clear'\nid=1\nfield='friend'\nargs={id='@x'}",
            7,
        ),
        (
            "rename",
            "action='link'\nid=1\nfield='friend'\nto_type='User'\nto_id='@x'",
            7,
        ),
        ("any", "action='invalidate'\nid='@id'", 7),
        ("clear", "action='invalidate'\nid='@id'", 7),
    ];
    for (on, rest, code) in rows {
        let text = format!(in alloc; "[[updater]]\non='Mutation.{on}'\ntype='User'\n{rest}")?;
        assert!(rt;
            is_refused(alloc, &schema, text.as_bytes(), code, "updater 1"),
            "{rest}"
        );
    }
    Ok(())
}

#[test]
fn sound_updaters(rt: HostRuntime) -> Result<(), Fail> {
    let alloc = rt.alloc();
    let schema = schema(alloc, TYPES)?;
    let rows = [
        "on='Mutation.node'\naction='invalidate'\ntype='Todo'\nid='@id'",
        "on='Mutation.addAll'\naction='invalidate'\ntype='Todo'\nid='@text'",
        "on='Subscription.renamed'\naction='invalidate-field'\ntype='Query'\nfield='todos'",
        "on='Mutation.clear'\naction='clear'\ntype='User'\nid='=$x'\nfield='friend'\nargs={id='=@x'}",
        "on='Mutation.clear'\naction='write'\ntype='User'\nid=true\nfield='nick'\nvalue=false",
        "on='Mutation.rename'\naction='link'\ntype='Query'\nfield='me'\nto_type='User'\nto_id='$id'",
    ];
    for rest in rows {
        let text = format!(in alloc; "[[updater]]\n{rest}")?;
        assert!(rt; is_accepted(alloc, &schema, text.as_str()), "{rest}");
    }
    Ok(())
}

#[test]
fn optimistic_rules(rt: HostRuntime) -> Result<(), Fail> {
    let alloc = rt.alloc();
    let schema = schema(alloc, TYPES)?;
    let rows = [
        ("Mutation.nope", "type='Todo'\nfields={id=1}", 3),
        ("Subscription.renamed", "type='User'\nfields={id=1}", 3),
        ("Mutation.setDone", "type='Nope'\nfields={id=1}", 4),
        ("Mutation.node", "type='Node'\nfields={id=1}", 4),
        ("Mutation.setDone", "type='User'\nfields={id=1}", 4),
        ("Mutation.clear", "type='User'\nfields={id=1}", 4),
        ("Mutation.setDone", "type='Todo'\nfields={id=1,x=1}", 5),
        (
            "Mutation.setDone",
            "type='Todo'\nfields={id=1,__typename='Todo'}",
            5,
        ),
        ("Mutation.tag", "type='Tag'\nfields={id=1}", 5),
        ("Mutation.setDone", "type='Todo'\nfields={id='$x'}", 6),
        (
            "Mutation.setDone",
            "type='Todo'\nfields={id='$id',text='@x'}",
            7,
        ),
        ("Mutation.any", "type='Todo'\nfields={id='@id'}", 7),
        ("Mutation.setDone", "type='Todo'\nfields={done='$done'}", 8),
        (
            "Mutation.setDone",
            "type='Todo'\nfields={id=1}\n[keys]\nTodo='none'",
            8,
        ),
        (
            "Mutation.setDone",
            "type='Todo'\nfields={id=1}\n[keys]\nTodo='text'",
            8,
        ),
    ];
    for (on, rest, code) in rows {
        let text = format!(in alloc; "[[optimistic]]\non='{on}'\n{rest}")?;
        assert!(rt;
            is_refused(alloc, &schema, text.as_bytes(), code, "optimistic 1"),
            "{on} {rest}"
        );
    }
    Ok(())
}

#[test]
fn sound_optimistic_rules(rt: HostRuntime) -> Result<(), Fail> {
    let alloc = rt.alloc();
    let schema = schema(alloc, TYPES)?;
    let rows = [
        ("setDone", "type='Todo'\nfields={id='$id',done='$done'}"),
        ("setDone", "type='Todo'\nfields={id='@text'}"),
        ("node", "type='User'\nfields={id='$id'}"),
        ("any", "type='User'\nfields={id=7,friend=1}"),
        ("addAll", "type='Todo'\nfields={id='$ids'}"),
        (
            "setDone",
            "type='Todo'\nfields={text='t'}\n[keys]\nTodo='text'",
        ),
        ("tag", "type='Tag'\nfields={name='t'}\n[keys]\nTag='name'"),
    ];
    for (on, rest) in rows {
        let text = format!(in alloc; "[[optimistic]]\non='Mutation.{on}'\n{rest}")?;
        assert!(rt; is_accepted(alloc, &schema, text.as_str()), "{on} {rest}");
    }
    Ok(())
}
