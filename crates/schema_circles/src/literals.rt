ghost use Rattle.std.specs.Prelude.{◌≡◌, ◌++◌, ◌∷◌, [], List, IfOk, map, get_or, cond};
ghost use Rattle.std.specs.List.{flat_map};
ghost use Rattle.gql_model.specs.declared.type_ref.TypeRef.{out-TypeRef};
ghost use Rattle.schema_rules.specs.Lines.{Mark};
ghost use Rattle.schema_defaults.specs.Repetitions.{meets};
ghost use Rattle.schema_defaults.specs.Seen.{Saw, was_met};
ghost use Rattle.schema_circles.specs.Fillings.{given_names, takes_default, left_out, field_fills, form_fills, place_fills, object_fills, list_fills, literal_fills, value_fills, object_field_fills};

use gql_model::{Literal, LiteralValue, ObjectField, TypeRef};
use schema_defaults::Seen;
use schema_model::{InputValue, Schema, Table, TypeForm};
use schema_rules::named_type;
use std::alloc::Global;
use text_types::{Items, Memory, Text};

/// The numbers of the input fields whose defaults a literal has filled in where it stands for a value of
/// a type. `firsts` has the number of the first field of each type.
#[cycle(fills)]
pub(crate) fn literal_fills(
    alloc: Global,
    schema: &Schema,
    firsts: &[usize],
    literal: &Literal,
    wanted: &TypeRef,
) -> Result<Items<usize>, Memory>
    ensures { IfOk result (λ nodes. nodes ≡ literal_fills schema.now firsts.now literal.now wanted.now) }
{
    value_fills(alloc, schema, firsts, &literal.value, wanted)
}

#[cycle(fills)]
fn value_fills(
    alloc: Global,
    schema: &Schema,
    firsts: &[usize],
    value: &LiteralValue,
    wanted: &TypeRef,
) -> Result<Items<usize>, Memory>
    ensures { IfOk result (λ nodes. nodes ≡ value_fills schema.now firsts.now value.now wanted.now) }
{
    match value {
        LiteralValue::List(items) => list_fills(alloc, schema, firsts, items.as_slice(), wanted),
        LiteralValue::Object(fields) => {
            object_fills(alloc, schema, firsts, fields.as_slice(), named_type(wanted))
        }
        _ => Ok(Items::new(alloc)),
    }
}

#[cycle(fills)]
fn list_fills(
    alloc: Global,
    schema: &Schema,
    firsts: &[usize],
    items: &[Literal],
    wanted: &TypeRef,
) -> Result<Items<usize>, Memory>
    ensures { IfOk result (λ nodes. nodes ≡ list_fills (map (literal_fills schema.now firsts.now) items.now) (out-TypeRef wanted.now)) }
{
    match wanted {
        TypeRef::Named { .. } => Ok(Items::new(alloc)),
        TypeRef::List { of, .. } => items_fill(alloc, schema, firsts, items, of.get()),
    }
}

#[cycle(fills)]
fn items_fill(
    alloc: Global,
    schema: &Schema,
    firsts: &[usize],
    items: &[Literal],
    wanted: &TypeRef,
) -> Result<Items<usize>, Memory>
    ensures { IfOk result (λ nodes. nodes ≡ flat_map (λ fills. fills wanted.now) (map (literal_fills schema.now firsts.now) items.now)) }
{
    let mut nodes = Items::new(alloc);
    'items: for item in items {
        nodes = joined(nodes, literal_fills(alloc, schema, firsts, item, wanted)?)?;
    }
    Ok(nodes)
}

#[cycle(fills)]
fn object_fills(
    alloc: Global,
    schema: &Schema,
    firsts: &[usize],
    fields: &[ObjectField],
    name: &Text,
) -> Result<Items<usize>, Memory>
    ensures { IfOk result (λ nodes. nodes ≡ object_fills schema.now firsts.now (map (object_field_fills schema.now firsts.now) fields.now) name.now) }
{
    match schema.types.place_of(name) {
        Some(place) => place_fills(alloc, schema, firsts, fields, place),
        None => Ok(Items::new(alloc)),
    }
}

#[cycle(fills)]
fn place_fills(
    alloc: Global,
    schema: &Schema,
    firsts: &[usize],
    fields: &[ObjectField],
    place: usize,
) -> Result<Items<usize>, Memory>
    ensures { IfOk result (λ nodes. nodes ≡ place_fills schema.now firsts.now (map (object_field_fills schema.now firsts.now) fields.now) place) }
{
    let first = first_number(firsts, place);
    match schema.types.at(place) {
        Some((_, found)) => form_fills(alloc, schema, firsts, fields, &found.form, first),
        None => Ok(Items::new(alloc)),
    }
}

#[cycle(fills)]
fn form_fills(
    alloc: Global,
    schema: &Schema,
    firsts: &[usize],
    fields: &[ObjectField],
    form: &TypeForm,
    first: usize,
) -> Result<Items<usize>, Memory>
    ensures { IfOk result (λ nodes. nodes ≡ form_fills first (map (object_field_fills schema.now firsts.now) fields.now) form.now) }
{
    match form {
        TypeForm::Input(declared) => input_fills(alloc, schema, firsts, fields, declared, first),
        _ => Ok(Items::new(alloc)),
    }
}

#[cycle(fills)]
fn input_fills(
    alloc: Global,
    schema: &Schema,
    firsts: &[usize],
    fields: &[ObjectField],
    declared: &Table<InputValue>,
    first: usize,
) -> Result<Items<usize>, Memory>
    ensures { IfOk result (λ nodes. nodes ≡ flat_map (field_fills declared.now) (map (object_field_fills schema.now firsts.now) fields.now) ++ left_out (λ name. meets name (given_names (map (object_field_fills schema.now firsts.now) fields.now))) first declared.now) }
{
    let given = fields_fill(alloc, schema, firsts, fields, declared)?;
    let names = field_names(alloc, schema, firsts, fields)?;
    let absent = left_out_of(alloc, &names, declared.as_slice(), first)?;
    joined(given, absent)
}

#[cycle(fills)]
fn fields_fill(
    alloc: Global,
    schema: &Schema,
    firsts: &[usize],
    fields: &[ObjectField],
    declared: &Table<InputValue>,
) -> Result<Items<usize>, Memory>
    ensures { IfOk result (λ nodes. nodes ≡ flat_map (field_fills declared.now) (map (object_field_fills schema.now firsts.now) fields.now)) }
{
    let mut nodes = Items::new(alloc);
    'fields: for field in fields {
        nodes = joined(nodes, field_fills(alloc, schema, firsts, field, declared)?)?;
    }
    Ok(nodes)
}

#[cycle(fills)]
fn field_fills(
    alloc: Global,
    schema: &Schema,
    firsts: &[usize],
    field: &ObjectField,
    declared: &Table<InputValue>,
) -> Result<Items<usize>, Memory>
    ensures { IfOk result (λ nodes. nodes ≡ field_fills declared.now (object_field_fills schema.now firsts.now field.now)) }
{
    match declared.get(&field.name.text) {
        Some(input) => literal_fills(
            alloc,
            schema,
            firsts,
            &field.value,
            &input.input_type.type_ref,
        ),
        None => Ok(Items::new(alloc)),
    }
}

fn first_number(firsts: &[usize], place: usize) -> usize
    ensures { result ≡ get_or firsts.now place 0 }
{
    match firsts.get(place) {
        Some(first) => *first,
        None => 0,
    }
}

/// The names of the fields of an object literal.
fn field_names(
    alloc: Global,
    schema: &Schema,
    firsts: &[usize],
    fields: &[ObjectField],
) -> Result<Seen, Memory>
    ensures { IfOk result (λ seen. Saw seen (given_names (map (object_field_fills schema.now firsts.now) fields.now))) }
{
    let mut seen = Seen::new(alloc);
    'fields: for field in fields {
        seen = seen.note(&field.name.text, 0)?;
    }
    Ok(seen)
}

fn left_out_of(
    alloc: Global,
    names: &Seen,
    declared: &[(Text, InputValue)],
    first: usize,
) -> Result<Items<usize>, Memory>
    ensures { (marks : List Mark) → Saw names.now marks → IfOk result (λ nodes. nodes ≡ left_out (λ name. meets name marks) first declared.now) }
{
    left_out(alloc, names, declared, first)
}

/// The numbers of the fields that are left out and have a default, from a first number on.
fn left_out(
    alloc: Global,
    names: &Seen,
    declared: &[(Text, InputValue)],
    first: usize,
) -> Result<Items<usize>, Memory>
    ensures { IfOk result (λ nodes. nodes ≡ left_out (was_met names.now) first declared.now) }
{
    let mut nodes = Items::new(alloc);
    let mut number = first;
    'declared: for field in declared {
        nodes = with_left_out(nodes, names, field, number)?;
        number = number.checked_add(1).ok_or(Memory)?;
    }
    Ok(nodes)
}

fn with_left_out(
    nodes: Items<usize>,
    names: &Seen,
    field: &(Text, InputValue),
    number: usize,
) -> Result<Items<usize>, Memory>
    ensures { IfOk result (λ all. all ≡ nodes ++ cond (takes_default (was_met names.now) field.now) (number ∷ []) []) }
{
    let mut all = nodes;
    if !names.has(&field.0) && field.1.default.is_some() {
        all.push(number)?;
    }
    Ok(all)
}

/// Nodes, and more behind them.
fn joined(nodes: Items<usize>, more: Items<usize>) -> Result<Items<usize>, Memory>
    ensures { IfOk result (λ all. all ≡ nodes ++ more) }
{
    let mut all = nodes.into_vec();
    all.extend_from_slice(more.as_slice())?;
    Ok(Items::from_vec(all))
}
