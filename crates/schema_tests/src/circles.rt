use gql_model::{Literal, LiteralValue, TypeNode, TypeRef};
use gql_tokens::Place;
use schema_circles::{fills_itself_line, needs_itself_line};
use schema_model::{InputValue, RootNames, Schema, SchemaType, Table, TypeForm};
use std::alloc::Global;
use std::test::Fail;
use text_types::{Items, Memory, Text};

const PLACE: Place = Place { row: 1, column: 1 };

/// An input field of a type, at a line, with an empty object as its default where it has one.
fn field(
    alloc: Global,
    of: &str,
    non_null: bool,
    has_default: bool,
    line: u64,
) -> Result<InputValue, Memory> {
    let empty = Literal {
        place: PLACE,
        value: LiteralValue::Object(Items::new(alloc)),
    };
    Ok(InputValue {
        line,
        input_type: TypeNode {
            place: PLACE,
            type_ref: TypeRef::Named {
                named: Text::from_str(alloc, of)?,
                non_null,
            },
        },
        default: if has_default { Some(empty) } else { None },
    })
}

/// Two input object types, I on line 1 and J on line 2, each with one field of the other.
fn two_types(alloc: Global, non_null: bool, has_default: bool) -> Result<Schema, Memory> {
    let mut types = Table::new(alloc);
    for (name, other, line) in [("I", "J", 1), ("J", "I", 2)] {
        let only = field(alloc, other, non_null, has_default, line)?;
        let fields = Table::new(alloc).put(Text::from_str(alloc, "a")?, only)?;
        let input = SchemaType {
            line,
            form: TypeForm::Input(fields),
        };
        types = types.put(Text::from_str(alloc, name)?, input)?;
    }
    Ok(Schema {
        types,
        directives: Table::new(alloc),
        roots: RootNames {
            query: None,
            mutation: None,
            subscription: None,
        },
    })
}

#[test]
fn circles_of_two_types(rt: HostRuntime) -> Result<(), Fail> {
    let alloc = rt.alloc();
    let rows = [
        ("needed fields", true, false, Some(1), None),
        ("fields that may be left out", false, false, None, None),
        ("defaults", false, true, None, Some(1)),
    ];
    for (name, non_null, has_default, needs, fills) in rows {
        let schema = two_types(alloc, non_null, has_default)?;
        assert!(rt; needs_itself_line(alloc, &schema)? == needs, "{name}");
        assert!(rt; fills_itself_line(alloc, &schema)? == fills, "{name}");
    }
    Ok(())
}
