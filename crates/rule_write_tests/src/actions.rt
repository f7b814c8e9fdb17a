use crate::cases::{Case, first_wrong};
use std::test::Fail;

const RENAME: &str = "mutation{rename(id:\"7\",name:\"Ann\"){n:id}}";

const RENAMED: &str = "{\"data\":{\"rename\":{\"__typename\":\"User\",\"n\":8}}}";

const UPDATERS: &[Case] = &[
    (
        "[[updater]]\non='Mutation.rename'\naction='write'\ntype='User'\nid='$id'\nfield='nick'\nvalue='$name'",
        RENAME,
        RENAMED,
        "",
        "User:7 nick=\"Ann\";",
    ),
    (
        "[[updater]]\non='Mutation.rename'\naction='write'\ntype='User'\nid='=$id'\nfield='nick'\nvalue='@id'",
        RENAME,
        RENAMED,
        "",
        "User:$id nick=8;",
    ),
    (
        "[[updater]]\non='Mutation.rename'\naction='clear'\ntype='User'\nid='@id'\nfield='todo'\nargs={place=1,tags='RED'}",
        RENAME,
        RENAMED,
        "",
        "User:8 todo({\"place\":1,\"tags\":[[\"RED\"]]})=null;",
    ),
    (
        "[[updater]]\non='Mutation.rename'\naction='clear'\ntype='Query'\nfield='todos'",
        RENAME,
        RENAMED,
        "",
        "Query todos({\"done\":false})=null;",
    ),
    (
        "[[updater]]\non='Mutation.rename'\naction='link'\ntype='Query'\nfield='me'\nto_type='User'\nto_id='@id'",
        RENAME,
        RENAMED,
        "",
        "Query me->User:8;",
    ),
    (
        "[[updater]]\non='Mutation.rename'\naction='invalidate'\ntype='User'\nid=-3",
        RENAME,
        RENAMED,
        "",
        "User:-3 nothing;",
    ),
];

/// Actions that are passed over.
const PASSED: &[Case] = &[
    (
        "[[updater]]\non='Mutation.rename'\naction='link'\ntype='Query'\nfield='me'\nto_type='User'\nto_id='@id'",
        RENAME,
        "{\"data\":{\"rename\":null}}",
        "",
        "",
    ),
    (
        "[[updater]]\non='Mutation.rename'\naction='write'\ntype='User'\nid='$id'\nfield='nick'\nvalue='@nick'",
        RENAME,
        RENAMED,
        "",
        "",
    ),
    (
        "[[updater]]\non='Mutation.rename'\naction='write'\ntype='User'\nid='$id'\nfield='nick'\nvalue='$name'",
        "mutation{rename(id:\"7\"){id}}",
        "{\"data\":null}",
        "",
        "",
    ),
    (
        "[[updater]]\non='Mutation.rename'\naction='clear'\ntype='User'\nid='$id'\nfield='todo'\nargs={place='x'}",
        RENAME,
        RENAMED,
        "",
        "",
    ),
    (
        "[[updater]]\non='Mutation.rename'\naction='clear'\ntype='User'\nid='$id'\nfield='todo'",
        RENAME,
        RENAMED,
        "",
        "",
    ),
    (
        "[[updater]]\non='Mutation.rename'\naction='invalidate'\ntype='User'\nid=true",
        RENAME,
        RENAMED,
        "",
        "",
    ),
    (
        "[[updater]]\non='Mutation.renameAll'\naction='invalidate'\ntype='User'\nid='@id'",
        "mutation{renameAll{id}}",
        "{\"data\":{\"renameAll\":[{\"__typename\":\"User\",\"id\":\"1\"}]}}",
        "",
        "",
    ),
    (
        "[[updater]]\non='Mutation.rename'\naction='write'\ntype='User'\nid='$id'\nfield='age'\nvalue='@age'",
        "mutation{rename(id:\"7\"){age(in:2)}}",
        "{\"data\":{\"rename\":{\"__typename\":\"User\",\"age\":1}}}",
        "",
        "",
    ),
];

/// Root fields in the order of asking, and for each its updaters in the order of the file.
const IN_ORDER: &[Case] = &[
    (
        "[[updater]]\non='Mutation.setDone'\naction='invalidate-field'\ntype='Query'\nfield='todos'\n[[updater]]\non='Mutation.rename'\naction='invalidate'\ntype='User'\nid='$id'\n[[updater]]\non='Mutation.setDone'\naction='invalidate'\ntype='Todo'\nid='$id'",
        "mutation{b:rename(id:2){id} a:rename(id:1){id} c:setDone(id:3 done:true){id} b:rename(id:2){name}}",
        "{\"data\":null}",
        "",
        "User:2 nothing;User:1 nothing;Query no todos;Todo:3 nothing;",
    ),
    (
        "[[updater]]\non='Subscription.renamed'\naction='invalidate'\ntype='User'\nid='@id'",
        "subscription{renamed{id}}",
        "{\"data\":{\"renamed\":{\"__typename\":\"User\",\"id\":\"5\"}}}",
        "",
        "User:5 nothing;",
    ),
];

#[test]
fn updaters(rt: HostRuntime) -> Result<(), Fail> {
    let wrong = first_wrong(rt.alloc(), UPDATERS)?;
    assert_eq!(rt; wrong, UPDATERS.len());
    Ok(())
}

#[test]
fn actions_that_are_passed_over(rt: HostRuntime) -> Result<(), Fail> {
    let wrong = first_wrong(rt.alloc(), PASSED)?;
    assert_eq!(rt; wrong, PASSED.len());
    Ok(())
}

#[test]
fn updaters_in_order(rt: HostRuntime) -> Result<(), Fail> {
    let wrong = first_wrong(rt.alloc(), IN_ORDER)?;
    assert_eq!(rt; wrong, IN_ORDER.len());
    Ok(())
}
