ghost use Rattle.std.specs.Prelude.{◌≡◌, IfOk, None, cond, map};
ghost use Rattle.std.specs.Option.{option_to_list};
ghost use Rattle.schema_model.specs.Tables.{place_of};
ghost use Rattle.schema_circles.specs.Needs.{needed, needed_by, needs, needs_graph, type_lines, needs_itself_line};

use crate::marked::{least_marked, with_node};
use digraph::Digraph;
use gql_model::TypeRef;
use schema_model::{InputValue, Schema, SchemaType, TypeForm};
use std::alloc::Global;
use text_types::{Items, Memory, Text};

/// The least line of an input object type that needs itself through Non-Null fields that aren't lists.
pub fn needs_itself_line(alloc: Global, schema: &Schema) -> Result<Option<u64>, Memory>
    ensures { IfOk result (λ line. line ≡ needs_itself_line schema.now) }
{
    let graph = needs_graph(alloc, schema, schema.types.as_slice())?;
    let marks = graph.circled(alloc)?;
    let lines = type_lines(alloc, schema.types.as_slice())?;
    Ok(least_marked(marks.as_slice(), lines.as_slice()))
}

fn type_lines(alloc: Global, types: &[(Text, SchemaType)]) -> Result<Items<u64>, Memory>
    ensures { IfOk result (λ lines. lines ≡ type_lines types.now) }
{
    let mut lines = Items::new(alloc);
    'types: for named in types {
        lines.push(named.1.line)?;
    }
    Ok(lines)
}

fn needs_graph(
    alloc: Global,
    schema: &Schema,
    types: &[(Text, SchemaType)],
) -> Result<Digraph, Memory>
    ensures { IfOk result (λ graph. graph ≡ needs_graph schema.now types.now) }
{
    let mut graph = Digraph::new(alloc);
    'types: for named in types {
        graph.push(needs(alloc, schema, &named.1.form)?)?;
    }
    Ok(graph)
}

fn needs(alloc: Global, schema: &Schema, form: &TypeForm) -> Result<Items<usize>, Memory>
    ensures { IfOk result (λ nodes. nodes ≡ needs schema.now form.now) }
{
    match form {
        TypeForm::Input(fields) => needed_by(alloc, schema, fields.as_slice()),
        _ => Ok(Items::new(alloc)),
    }
}

fn needed_by(
    alloc: Global,
    schema: &Schema,
    fields: &[(Text, InputValue)],
) -> Result<Items<usize>, Memory>
    ensures { IfOk result (λ nodes. nodes ≡ needed_by schema.now fields.now) }
{
    let mut nodes = Items::new(alloc);
    'fields: for field in fields {
        nodes = with_node(nodes, needed(schema, &field.1))?;
    }
    Ok(nodes)
}

fn needed(schema: &Schema, input: &InputValue) -> Option<usize>
    ensures { result ≡ needed schema.now input.now }
{
    match &input.input_type.type_ref {
        TypeRef::Named { named, non_null } => needed_named(schema, named, *non_null),
        TypeRef::List { .. } => None,
    }
}

fn needed_named(schema: &Schema, name: &Text, required: bool) -> Option<usize>
    ensures { result ≡ cond required (place_of schema.now.types name.now) None }
{
    if required {
        schema.types.place_of(name)
    } else {
        None
    }
}
