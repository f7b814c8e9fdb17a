ghost use Rattle.std.specs.Prelude.{◌≡◌, List, [], ◌∷◌, ◌++◌, IfOk, map};
ghost use Rattle.schema_model.specs.Tables.{put, tabled};
ghost use Rattle.gql_schema.specs.Marks.{mark_of};
ghost use Rattle.gql_schema.specs.Meaning.{input_entry, inputs_of, field_entry, fields_of, value_entry, names_of, parts_of};

use gql_model::{EnumValueDefinition, FieldDefinition, InputDefinition, Name};
use schema_model::{InputValue, Interfaced, SchemaField, Table};
use std::alloc::Global;
use text_types::{Items, Memory};

/// Arguments, or the fields of an input object type.
pub(crate) fn inputs(
    alloc: Global,
    definitions: Items<InputDefinition>,
) -> Result<Table<InputValue>, Memory>
    ensures { IfOk result (λ table. table ≡ inputs_of definitions) }
{
    let mut table = Table::new(alloc);
    'definitions: for definition in definitions.into_vec() {
        let InputDefinition {
            name,
            input_type,
            default,
            ..
        } = definition;
        let value = InputValue {
            line: name.place.row,
            input_type,
            default,
        };
        table = table.put(name.text, value)?;
    }
    Ok(table)
}

/// The fields of an object type or an interface.
pub(crate) fn fields(
    alloc: Global,
    definitions: Items<FieldDefinition>,
) -> Result<Table<SchemaField>, Memory>
    ensures { IfOk result (λ table. table ≡ fields_of definitions) }
{
    let mut table = Table::new(alloc);
    'definitions: for definition in definitions.into_vec() {
        let FieldDefinition {
            name,
            arguments,
            field_type,
            ..
        } = definition;
        let field = SchemaField {
            line: name.place.row,
            arguments: inputs(alloc, arguments)?,
            field_type,
        };
        table = table.put(name.text, field)?;
    }
    Ok(table)
}

/// The values of an enum, with their lines.
pub(crate) fn values(
    alloc: Global,
    definitions: Items<EnumValueDefinition>,
) -> Result<Table<u64>, Memory>
    ensures { IfOk result (λ table. table ≡ tabled (map value_entry definitions)) }
{
    let mut table = Table::new(alloc);
    'definitions: for definition in definitions.into_vec() {
        let name = definition.name;
        table = table.put(name.text, name.place.row)?;
    }
    Ok(table)
}

/// Interfaces, or the members of a union, with their lines.
pub(crate) fn names(alloc: Global, listed: Items<Name>) -> Result<Table<u64>, Memory>
    ensures { IfOk result (λ table. table ≡ names_of listed) }
{
    let mut table = Table::new(alloc);
    'listed: for name in listed.into_vec() {
        table = table.put(name.text, name.place.row)?;
    }
    Ok(table)
}

/// The parts of an object type or an interface.
pub(crate) fn parts(
    alloc: Global,
    interfaces: Items<Name>,
    definitions: Items<FieldDefinition>,
) -> Result<Interfaced, Memory>
    ensures { IfOk result (λ parts. parts ≡ parts_of interfaces definitions) }
{
    Ok(Interfaced {
        interfaces: names(alloc, interfaces)?,
        fields: fields(alloc, definitions)?,
    })
}
