ghost use Rattle.std.specs.Prelude.{◌≡◌, ◌++◌, IfOk};
ghost use Rattle.schema_circles.specs.Fillings.{default_fills, fields_fill, filling_graph, fills_itself_line};

use crate::literals::literal_fills;
use crate::marked::least_marked;
use crate::numbering::{input_fields, numbered};
use digraph::Digraph;
use schema_model::{InputValue, Schema, SchemaType};
use std::alloc::Global;
use text_types::{Items, Memory, Text};

/// The least line of an input field whose default needs that same default again to be filled in.
pub fn fills_itself_line(alloc: Global, schema: &Schema) -> Result<Option<u64>, Memory>
    ensures { IfOk result (λ line. line ≡ fills_itself_line schema.now) }
{
    let types = schema.types.as_slice();
    let numbering = numbered(alloc, types)?;
    let graph = filling_graph(alloc, schema, numbering.firsts.as_slice(), types)?;
    let marks = graph.circled(alloc)?;
    Ok(least_marked(marks.as_slice(), numbering.lines.as_slice()))
}

fn filling_graph(
    alloc: Global,
    schema: &Schema,
    firsts: &[usize],
    types: &[(Text, SchemaType)],
) -> Result<Digraph, Memory>
    ensures { IfOk result (λ graph. graph ≡ filling_graph schema.now firsts.now types.now) }
{
    let mut graph = Digraph::new(alloc);
    'types: for named in types {
        graph = with_fields(alloc, graph, schema, firsts, input_fields(&named.1.form))?;
    }
    Ok(graph)
}

fn with_fields(
    alloc: Global,
    graph: Digraph,
    schema: &Schema,
    firsts: &[usize],
    fields: &[(Text, InputValue)],
) -> Result<Digraph, Memory>
    ensures { IfOk result (λ all. all ≡ graph ++ fields_fill schema.now firsts.now fields.now) }
{
    let mut all = graph;
    'fields: for field in fields {
        all.push(default_fills(alloc, schema, firsts, &field.1)?)?;
    }
    Ok(all)
}

fn default_fills(
    alloc: Global,
    schema: &Schema,
    firsts: &[usize],
    input: &InputValue,
) -> Result<Items<usize>, Memory>
    ensures { IfOk result (λ nodes. nodes ≡ default_fills schema.now firsts.now input.now) }
{
    match &input.default {
        Some(literal) => literal_fills(alloc, schema, firsts, literal, &input.input_type.type_ref),
        None => Ok(Items::new(alloc)),
    }
}
