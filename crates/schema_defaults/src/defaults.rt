ghost use Rattle.std.specs.Prelude.{◌≡◌, IfOk, cond, None, Some};
ghost use Rattle.schema_defaults.specs.Defaults.{is_valid, unfit_input, unfit_inputs, unfit_fields, unfit_form, unfit_types, unfit_directives, unfit_line};

use crate::doubled::is_doubled;
use crate::fits::literal_fits;
use gql_model::Literal;
use schema_model::{InputValue, Schema, SchemaDirective, SchemaField, SchemaType, TypeForm};
use schema_rules::earlier;
use std::alloc::Global;
use text_types::{Memory, Text};

/// The least line of a default that doesn't fit, or in which a field stands twice.
pub fn unfit_line(alloc: Global, schema: &Schema) -> Result<Option<u64>, Memory>
    ensures { IfOk result (λ line. line ≡ unfit_line schema.now) }
{
    let types = unfit_types(alloc, schema, schema.types.as_slice())?;
    let directives = unfit_directives(alloc, schema, schema.directives.as_slice())?;
    Ok(earlier(types, directives))
}

fn unfit_types(
    alloc: Global,
    schema: &Schema,
    types: &[(Text, SchemaType)],
) -> Result<Option<u64>, Memory>
    ensures { IfOk result (λ line. line ≡ unfit_types schema.now types.now) }
{
    let mut least = None;
    'types: for named in types {
        least = earlier(least, unfit_form(alloc, schema, &named.1.form)?);
    }
    Ok(least)
}

fn unfit_directives(
    alloc: Global,
    schema: &Schema,
    directives: &[(Text, SchemaDirective)],
) -> Result<Option<u64>, Memory>
    ensures { IfOk result (λ line. line ≡ unfit_directives schema.now directives.now) }
{
    let mut least = None;
    'directives: for directive in directives {
        let inputs = directive.1.arguments.as_slice();
        least = earlier(least, unfit_inputs(alloc, schema, inputs)?);
    }
    Ok(least)
}

fn unfit_form(alloc: Global, schema: &Schema, form: &TypeForm) -> Result<Option<u64>, Memory>
    ensures { IfOk result (λ line. line ≡ unfit_form schema.now form.now) }
{
    match form {
        TypeForm::Object(parts) => unfit_fields(alloc, schema, parts.fields.as_slice()),
        TypeForm::Interface(parts) => unfit_fields(alloc, schema, parts.fields.as_slice()),
        TypeForm::Input(fields) => unfit_inputs(alloc, schema, fields.as_slice()),
        _ => Ok(None),
    }
}

fn unfit_fields(
    alloc: Global,
    schema: &Schema,
    fields: &[(Text, SchemaField)],
) -> Result<Option<u64>, Memory>
    ensures { IfOk result (λ line. line ≡ unfit_fields schema.now fields.now) }
{
    let mut least = None;
    'fields: for field in fields {
        let inputs = field.1.arguments.as_slice();
        least = earlier(least, unfit_inputs(alloc, schema, inputs)?);
    }
    Ok(least)
}

fn unfit_inputs(
    alloc: Global,
    schema: &Schema,
    inputs: &[(Text, InputValue)],
) -> Result<Option<u64>, Memory>
    ensures { IfOk result (λ line. line ≡ unfit_inputs schema.now inputs.now) }
{
    let mut least = None;
    'inputs: for input in inputs {
        least = earlier(least, unfit_input(alloc, schema, &input.1)?);
    }
    Ok(least)
}

fn unfit_input(alloc: Global, schema: &Schema, input: &InputValue) -> Result<Option<u64>, Memory>
    ensures { IfOk result (λ line. line ≡ unfit_input schema.now input.now) }
{
    match &input.default {
        Some(literal) => unfit_literal(alloc, schema, input, literal),
        None => Ok(None),
    }
}

fn unfit_literal(
    alloc: Global,
    schema: &Schema,
    input: &InputValue,
    literal: &Literal,
) -> Result<Option<u64>, Memory>
    ensures { IfOk result (λ line. line ≡ cond (is_valid schema.now input.now literal.now) None (Some input.now.line)) }
{
    let fits = literal_fits(alloc, schema, literal, &input.input_type.type_ref)?;
    let doubled = is_doubled(alloc, literal)?;
    Ok(if fits && !doubled {
        None
    } else {
        Some(input.line)
    })
}
