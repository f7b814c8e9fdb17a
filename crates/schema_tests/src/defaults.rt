use gql_model::{Literal, LiteralValue, Name, ObjectField, TypeRef};
use gql_tokens::Place;
use schema_defaults::{Seen, is_doubled, literal_fits};
use schema_model::{RootNames, Schema, SchemaType, Table, TypeForm};
use std::alloc::Global;
use std::test::Fail;
use text_types::{Items, Memory, Text};

fn literal(value: LiteralValue) -> Literal {
    Literal {
        place: Place { row: 1, column: 1 },
        value,
    }
}

/// `{a: null, a: null}`.
fn doubled(alloc: Global) -> Result<Literal, Memory> {
    let mut fields = Items::new(alloc);
    for row in 1..3 {
        let name = Name {
            place: Place { row, column: 1 },
            text: Text::from_str(alloc, "a")?,
        };
        let value = literal(LiteralValue::Null);
        fields.push(ObjectField { name, value })?;
    }
    Ok(literal(LiteralValue::Object(fields)))
}

/// A schema with one custom scalar, JSON.
fn schema(alloc: Global) -> Result<Schema, Memory> {
    let scalar = SchemaType {
        line: 1,
        form: TypeForm::Scalar,
    };
    Ok(Schema {
        types: Table::new(alloc).put(Text::from_str(alloc, "JSON")?, scalar)?,
        directives: Table::new(alloc),
        roots: RootNames {
            query: None,
            mutation: None,
            subscription: None,
        },
    })
}

#[test]
fn a_custom_scalar_takes_any_object(rt: HostRuntime) -> Result<(), Fail> {
    let alloc = rt.alloc();
    let wanted = TypeRef::Named {
        named: Text::from_str(alloc, "JSON")?,
        non_null: true,
    };
    let object = doubled(alloc)?;
    assert!(rt; literal_fits(alloc, &schema(alloc)?, &object, &wanted)?);
    assert!(rt; is_doubled(alloc, &object)?);
    assert!(rt; !is_doubled(alloc, &literal(LiteralValue::Null))?);
    Ok(())
}

#[test]
fn the_second_of_two_names_is_told(rt: HostRuntime) -> Result<(), Fail> {
    let alloc = rt.alloc();
    let a = Text::from_str(alloc, "a")?;
    let seen = Seen::new(alloc).note(&a, 1)?.note(&a, 2)?;
    assert_eq!(rt; seen.repeated_line(), Some(2));
    Ok(())
}
