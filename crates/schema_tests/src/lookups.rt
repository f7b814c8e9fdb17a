use gql_model::{OperationKind, TypeNode, TypeRef};
use gql_tokens::Place;
use schema_model::{
    Interfaced, RootName, RootNames, Schema, SchemaField, SchemaType, Table, TypeForm, TypeId,
};
use std::alloc::Global;
use std::test::Fail;
use text_types::{Memory, Text};

fn text(alloc: Global, of: &str) -> Result<Text, Memory> {
    Text::from_str(alloc, of)
}

/// A type Query with a field `me` of its own type.
fn schema(alloc: Global) -> Result<Schema, Memory> {
    let field = SchemaField {
        line: 1,
        arguments: Table::new(alloc),
        field_type: TypeNode {
            place: Place { row: 1, column: 18 },
            type_ref: TypeRef::Named {
                named: text(alloc, "Query")?,
                non_null: false,
            },
        },
    };
    let parts = Interfaced {
        interfaces: Table::new(alloc),
        fields: Table::new(alloc).put(text(alloc, "me")?, field)?,
    };
    let query = SchemaType {
        line: 1,
        form: TypeForm::Object(parts),
    };
    Ok(Schema {
        types: Table::new(alloc).put(text(alloc, "Query")?, query)?,
        directives: Table::new(alloc),
        roots: RootNames {
            query: Some(RootName {
                line: 1,
                text: text(alloc, "Query")?,
            }),
            mutation: None,
            subscription: None,
        },
    })
}

#[test]
fn what_is_there_is_found(rt: HostRuntime) -> Result<(), Fail> {
    let alloc = rt.alloc();
    let schema = schema(alloc)?;
    let root = schema.root(OperationKind::Query).ok_or("no root")?;
    assert!(rt; root == TypeId(0));
    assert!(rt; schema.field_type(root, &text(alloc, "me")?).is_some());
    assert!(rt; schema.field_type(root, &text(alloc, "you")?).is_none());
    assert!(rt; schema.is_possible(root, root));
    assert!(rt; schema.have_common_object(root, root));
    Ok(())
}
