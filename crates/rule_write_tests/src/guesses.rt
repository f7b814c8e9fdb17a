use crate::cases::{Case, first_wrong};
use std::test::Fail;

const RENAME: &str = "mutation{rename(id:\"7\",name:\"Ann\"){id}}";

const NO_DATA: &str = "{\"data\":null}";

const GUESSES: &[Case] = &[
    (
        "[[optimistic]]\non='Mutation.rename'\ntype='User'\nfields={id='$id',name='$name',nick='@name'}\n[[updater]]\non='Mutation.rename'\naction='link'\ntype='Query'\nfield='me'\nto_type='User'\nto_id='@id'\n[[updater]]\non='Mutation.rename'\naction='write'\ntype='User'\nid='$id'\nfield='nick'\nvalue='@nick'",
        RENAME,
        NO_DATA,
        "User:7 __typename=\"User\";User:7 id=\"7\";User:7 name=\"Ann\";Query me->User:7;",
        "",
    ),
    (
        "[keys]\nUser='name'\n[[optimistic]]\non='Mutation.rename'\ntype='User'\nfields={id='$id',name='$name'}",
        RENAME,
        NO_DATA,
        "User:Ann __typename=\"User\";User:Ann id=\"7\";User:Ann name=\"Ann\";",
        "",
    ),
    (
        "[[optimistic]]\non='Mutation.rename'\ntype='User'\nfields={id='@id',name='$name'}\n[[updater]]\non='Mutation.rename'\naction='write'\ntype='User'\nid='$id'\nfield='nick'\nvalue='@name'",
        RENAME,
        NO_DATA,
        "User:7 nick=\"Ann\";",
        "",
    ),
    (
        "[[optimistic]]\non='Mutation.rename'\ntype='User'\nfields={id=true,name='$name'}",
        RENAME,
        NO_DATA,
        "",
        "",
    ),
    (
        "[[optimistic]]\non='Mutation.first'\ntype='Todo'\nfields={id=5}\n[[optimistic]]\non='Mutation.rename'\ntype='User'\nfields={id='$id'}",
        "mutation{rename(id:1){id} first{id} b:rename(id:2)@skip(if:true){id}}",
        NO_DATA,
        "User:1 __typename=\"User\";User:1 id=\"1\";Todo:5 __typename=\"Todo\";Todo:5 id=5;",
        "",
    ),
];

#[test]
fn guesses(rt: HostRuntime) -> Result<(), Fail> {
    let wrong = first_wrong(rt.alloc(), GUESSES)?;
    assert_eq!(rt; wrong, GUESSES.len());
    Ok(())
}
