ghost use Rattle.std.specs.Prelude.{◌≡◌, ◌<◌};

use crate::cell_map::map_of;
use crate::operations::{TODOS, Types, operation};
use crate::values::push_value;
use cache_model::Visited;
use entity_keys::{Lookup, Steps};
use gql_value::Value;
use partial_reader::{Reading, read, readings_are_local};
use schema_model::Table;
use std::alloc::Global;
use std::marker::Brand;
use std::process::Abort;
use std::sync::ledger::{Blank, Ledger};
use std::test::Fail;
use text_types::Text;

/// What a query reads in a map, and behind `<-` the places of the cells that it looks at, in order.
pub(crate) fn told_reading<C: Lookup, L: Ledger>(
    alloc: Global,
    types: &Types,
    query: &str,
    cells: &C,
    steps: &mut Steps<L>,
) -> Result<Text, Fail> {
    let operation = operation(alloc, types, query)?;
    let variables = Table::new(alloc);
    let (reading, visited) = read(alloc, types.inputs(), &operation, &variables, cells, steps)?;
    let mut text = told(alloc, &reading)?;
    push_places(&mut text, &visited)?;
    Ok(text)
}

/// A reading as it is told: H, P or M, and the value.
fn told(alloc: Global, reading: &Reading) -> Result<Text, Fail> {
    match reading {
        Reading::Hit(value) => value_told(alloc, "H ", value),
        Reading::Partial(value) => value_told(alloc, "P ", value),
        Reading::Miss => Ok(Text::from_str(alloc, "M")?),
    }
}

fn value_told(alloc: Global, before: &str, value: &Value) -> Result<Text, Fail> {
    let mut text = Text::from_str(alloc, before)?;
    push_value(alloc, &mut text, value)?;
    Ok(text)
}

fn push_places(text: &mut Text, visited: &Visited) -> Result<(), Fail> {
    text.push_str(" <-")?;
    for (entity, field) in visited.as_slice() {
        text.push_str(" ")?;
        text.push(entity.as_text())?;
        text.push_str(".")?;
        text.push(field.as_text())?;
    }
    Ok(())
}

/// Cells that answers left: one user without a nickname, a todo with its author, and a list of which the
/// second todo was never told.
const CELLS: &[(&str, &str, &str)] = &[
    ("Query", "me", "@User:7"),
    ("Query", "todo({\"id\":\"1\"})", "@Todo:1"),
    ("Query", "todo({\"id\":\"2\"})", "@Ghost:1"),
    ("Query", "todo({\"id\":\"3\"})", "Todo:1"),
    ("Query", "todos", "@*Todo:1 Todo:2"),
    ("User:7", "__typename", "User"),
    ("User:7", "id", "7"),
    ("User:7", "name", "null"),
    ("Todo:1", "__typename", "Todo"),
    ("Todo:1", "id", "1"),
    ("Todo:1", "author", "@User:7"),
    ("Ghost:1", "__typename", "Mutation"),
];

/// A query, and what it reads.
const READINGS: &[(&str, &str)] = &[
    (
        "{me{id}}",
        "H {\"me\":{\"id\":\"7\"}} <- Query.me User:7.__typename User:7.id",
    ),
    (
        "{me{id nick}}",
        "P {\"me\":{\"id\":\"7\",\"nick\":null}} <- Query.me User:7.__typename User:7.id User:7.nick",
    ),
    (
        "{todo(id:\"1\"){id author{name}}}",
        "P {\"todo\":{\"id\":\"1\",\"author\":null}} <- Query.todo({\"id\":\"1\"}) Todo:1.__typename Todo:1.id Todo:1.author User:7.__typename User:7.name",
    ),
    (
        "{todos{id}}",
        "M <- Query.todos Todo:1.__typename Todo:1.id Todo:2.__typename",
    ),
    (
        "{__typename todo(id:2){id}}",
        "M <- Query.todo({\"id\":\"2\"}) Ghost:1.__typename",
    ),
    ("{todo(id:3){id}}", "M <- Query.todo({\"id\":\"3\"})"),
    (
        "{me{id} todo(id:4){id}}",
        "P {\"me\":{\"id\":\"7\"},\"todo\":null} <- Query.me User:7.__typename User:7.id Query.todo({\"id\":\"4\"})",
    ),
    (
        "{__typename t:me{i:id t:__typename}}",
        "H {\"__typename\":\"Query\",\"t\":{\"i\":\"7\",\"t\":\"User\"}} <- Query.me User:7.__typename User:7.id",
    ),
    ("{__typename}", "H {\"__typename\":\"Query\"} <-"),
];

fn readings<L: Ledger>(rt: &(impl Abort + AllocGlobal), blank: Blank) -> Result<(), Fail>
    requires name { blank.name ≡ L.name }
    requires parts { blank.parts ≡ L.parts }
    requires some { 0 < blank.parts }
{
    let alloc = rt.alloc();
    let mut steps = Steps::<L>::new(blank);
    let types = Types::of(alloc, TODOS)?;
    let cells = map_of(alloc, CELLS)?;
    for (query, expected) in READINGS {
        let told = told_reading(alloc, &types, query, &cells, &mut steps)?;
        assert_eq!(rt; told.as_str(), *expected);
    }
    Ok(())
}

#[test]
fn what_a_query_reads(rt: HostRuntime) -> Result<(), Fail> {
    readings_are_local();
    readings::<Brand>(&rt, Blank::new(1))
}
