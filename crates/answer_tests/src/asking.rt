use crate::operations::{NODES, Types, operation};
use crate::sending::as_sent;
use answer_parts::with_name;
use field_asking::AskedField;
use gql_model::OperationKind;
use op_keys::fronts;
use schema_model::Table;
use std::alloc::Global;
use std::test::Fail;
use text_types::Text;

/// What an operation asks at its root: its kind, the type of the root, and the key of each field's cell
/// under the field's response key.
fn asked(alloc: Global, types: &Types, query: &str) -> Result<Text, Fail> {
    let operation = operation(alloc, types, query)?;
    let variables = Table::new(alloc);
    let fronts = fronts(alloc, &types.schema, &operation.document)?;
    let asking = as_sent(alloc, types, &operation, &variables, fronts.as_slice())?;
    let root = asking.root_type().ok_or("no root")?;
    let (id, name) = with_name(&types.schema, root).ok_or("no type")?;
    let mut text = Text::from_str(alloc, kind_name(asking.kind()))?;
    text.push(name)?;
    let fields = asking.fields(alloc, id, asking.root_sets())?;
    push_fields(&mut text, fields.as_slice())?;
    Ok(text)
}

fn kind_name(kind: OperationKind) -> &'static str {
    match kind {
        OperationKind::Query => "query ",
        OperationKind::Mutation => "mutation ",
        OperationKind::Subscription => "subscription ",
    }
}

fn push_fields(text: &mut Text, fields: &[AskedField<'_>]) -> Result<(), Fail> {
    for field in fields {
        text.push_str(" ")?;
        text.push(&field.key)?;
        text.push_str(":")?;
        text.push(field.cell_key()?.as_text())?;
    }
    Ok(())
}

#[test]
fn what_is_asked_at_the_root(rt: HostRuntime) -> Result<(), Fail> {
    let alloc = rt.alloc();
    let types = Types::of(alloc, NODES)?;
    let rows = [
        ("{me{id}}", "query Query me:me"),
        ("{todos{id}}", "query Query todos:todos({\"first\":10})"),
        (
            "{a:todo(id:3){id} b:todo(id:\"3\"){id} a:todo(id:3){text}}",
            "query Query a:todo({\"id\":\"3\"}) b:todo({\"id\":\"3\"})",
        ),
        (
            "{__typename ...F} fragment F on Query{t:__typename me{id}}",
            "query Query __typename:__typename t:__typename me:me",
        ),
        (
            "mutation{rename(id:1 name:\"x\"){id}}",
            "mutation Mutation rename:rename({\"id\":\"1\",\"name\":\"x\"})",
        ),
    ];
    for (query, expected) in rows {
        let told = asked(alloc, &types, query)?;
        assert_eq!(rt; told.as_str(), expected);
    }
    Ok(())
}
