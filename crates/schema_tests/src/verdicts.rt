use gql_model::{
    FieldDefinition, Name, ObjectDefinition, ScalarDefinition, TypeNode, TypeRef, TypeSystemForm,
};
use gql_schema::{SchemaError, judged};
use gql_tokens::Place;
use std::alloc::Global;
use std::test::Fail;
use text_types::{Items, Memory, Text};

fn name(alloc: Global, of: &str, row: u64) -> Result<Name, Memory> {
    Ok(Name {
        place: Place { row, column: 1 },
        text: Text::from_str(alloc, of)?,
    })
}

/// `type NAME { a: TYPE }` on a line of its own.
fn object(alloc: Global, of: &str, field: &str, row: u64) -> Result<TypeSystemForm, Memory> {
    let mut fields = Items::new(alloc);
    fields.push(FieldDefinition {
        description: None,
        name: name(alloc, "a", row)?,
        arguments: Items::new(alloc),
        field_type: TypeNode {
            place: Place { row, column: 1 },
            type_ref: TypeRef::Named {
                named: Text::from_str(alloc, field)?,
                non_null: false,
            },
        },
        directives: Items::new(alloc),
    })?;
    Ok(TypeSystemForm::Object(ObjectDefinition {
        name: name(alloc, of, row)?,
        interfaces: Items::new(alloc),
        directives: Items::new(alloc),
        fields,
    }))
}

fn scalar(alloc: Global, of: &str, row: u64) -> Result<TypeSystemForm, Memory> {
    Ok(TypeSystemForm::Scalar(ScalarDefinition {
        name: name(alloc, of, row)?,
        directives: Items::new(alloc),
    }))
}

/// The code and line of two definitions, on the lines 1 and 2.
fn verdict(
    alloc: Global,
    first: TypeSystemForm,
    second: TypeSystemForm,
) -> Result<(u8, u64), Fail> {
    let mut forms = Vec::new(alloc);
    forms.push(first).map_err(|_| "memory")?;
    forms.push(second).map_err(|_| "memory")?;
    match judged(alloc, forms) {
        Ok(_) => Ok((0, 0)),
        Err(SchemaError::Refused { code, line }) => Ok((code, line)),
        Err(SchemaError::Memory) => Ok((u8::MAX, 0)),
    }
}

#[test]
fn the_least_code_is_told(rt: HostRuntime) -> Result<(), Fail> {
    let alloc = rt.alloc();
    let rows = [
        ("Query", "Int", "A", "Int", (0, 0)),
        ("Query", "Int", "Query", "Int", (3, 2)),
        ("__Q", "Int", "A", "B", (4, 1)),
        ("Query", "B", "A", "Int", (5, 1)),
        ("B", "Int", "A", "Int", (8, 0)),
    ];
    for (first, one, second, other, expected) in rows {
        let told = verdict(
            alloc,
            object(alloc, first, one, 1)?,
            object(alloc, second, other, 2)?,
        )?;
        assert_eq!(rt; told, expected, "{first} and {second}");
    }
    Ok(())
}

#[test]
fn a_built_in_scalar_is_passed_over(rt: HostRuntime) -> Result<(), Fail> {
    let alloc = rt.alloc();
    let told = verdict(
        alloc,
        object(alloc, "Query", "Int", 1)?,
        scalar(alloc, "Int", 2)?,
    )?;
    assert_eq!(rt; told, (0, 0));
    Ok(())
}
