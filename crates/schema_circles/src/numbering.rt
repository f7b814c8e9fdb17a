ghost use Rattle.std.specs.Prelude.{◌≡◌, ◌++◌, IfOk, map};
ghost use Rattle.schema_circles.specs.Fillings.{input_fields, lines_in, field_lines, first_numbers};

use schema_model::{InputValue, SchemaType, TypeForm};
use std::alloc::Global;
use text_types::{Items, Memory, Text};

/// The input fields of all types, numbered in order: the number of the first of each type, and the line
/// of each.
#[derive(Drop)]
pub(crate) struct Numbering {
    pub(crate) firsts: Items<usize>,
    pub(crate) lines: Items<u64>,
}

pub(crate) fn numbered(alloc: Global, types: &[(Text, SchemaType)]) -> Result<Numbering, Memory>
    ensures firsts { IfOk result (λ numbering. numbering.firsts ≡ first_numbers types.now) }
    ensures lines { IfOk result (λ numbering. numbering.lines ≡ field_lines types.now) }
{
    let mut firsts = Items::new(alloc);
    let mut lines = Items::new(alloc);
    'types: for named in types {
        firsts.push(lines.len())?;
        lines = with_lines(lines, input_fields(&named.1.form))?;
    }
    Ok(Numbering { firsts, lines })
}

fn with_lines(lines: Items<u64>, fields: &[(Text, InputValue)]) -> Result<Items<u64>, Memory>
    ensures { IfOk result (λ all. all ≡ lines ++ map (λ f. f.1.line) fields.now) }
{
    let mut all = lines;
    'fields: for field in fields {
        all.push(field.1.line)?;
    }
    Ok(all)
}

/// The fields of an input object type; other types have none.
pub(crate) fn input_fields(form: &TypeForm) -> &[(Text, InputValue)]
    ensures { result.now ≡ input_fields form.now }
{
    match form {
        TypeForm::Input(fields) => fields.as_slice(),
        _ => &[],
    }
}
