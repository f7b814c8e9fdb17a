ghost use Rattle.std.specs.Prelude.{◌≡◌, ◌<◌, bytes_eq, ◌&&◌, find};
ghost use Rattle.std.specs.Option.{option_copied, option_map};

use entity_keys::{
    Cell, EntityKey, FieldKey, KeyRules, Lookup, Steps, Write, covers, embedded, field_key,
    key_of_object, keyed, plain_field_key, root_key,
};
use gql_value::{Members, Value};
use std::alloc::Global;
use std::marker::Brand;
use std::process::Abort;
use std::sync::ledger::{Blank, Ledger};
use std::test::Fail;
use text_types::Text;

fn text(alloc: Global, text: &str) -> Result<Text, Fail> {
    Ok(Text::from_str(alloc, text)?)
}

fn field(alloc: Global, key: &str) -> Result<FieldKey, Fail> {
    Ok(FieldKey::from_text(text(alloc, key)?))
}

#[test]
fn ids_stand_escaped(rt: HostRuntime) -> Result<(), Fail> {
    for (id, wanted) in [
        ("", "Todo:"),
        ("1", "Todo:1"),
        ("a.b", "Todo:a%2Eb"),
        ("%2E", "Todo:%252E"),
        (".é%", "Todo:%2Eé%25"),
        ("a:b@c", "Todo:a:b@c"),
    ] {
        let key = keyed(&text(rt.alloc(), "Todo")?, &text(rt.alloc(), id)?)?;
        assert_eq!(rt; key.as_text().as_str(), wanted);
    }
    Ok(())
}

#[test]
fn embedded_keys_have_their_path(rt: HostRuntime) -> Result<(), Fail> {
    let parent = root_key(&text(rt.alloc(), "Query")?)?;
    let name = text(rt.alloc(), "Todo")?;
    let todos = plain_field_key(&text(rt.alloc(), "todos")?)?;
    let key = embedded(&parent, &todos, &[0], &name)?;
    assert_eq!(rt; key.as_text().as_str(), "Query.todos.0@Todo");
    let mut arguments = Members::new(rt.alloc());
    arguments.push(
        text(rt.alloc(), "above")?,
        Value::Text(text(rt.alloc(), "1.5")?),
    )?;
    let rated = field_key(&text(rt.alloc(), "todos")?, &arguments)?;
    let key = embedded(&parent, &rated, &[10, 0], &name)?;
    assert_eq!(rt;
        key.as_text().as_str(),
        "Query.todos({\"above\":\"1%2E5\"}).10.0@Todo"
    );
    Ok(())
}

#[test]
fn a_name_is_covered_with_any_arguments(rt: HostRuntime) -> Result<(), Fail> {
    let entity = root_key(&text(rt.alloc(), "Query")?)?;
    for (name, key, wanted) in [
        ("todos", "todos", true),
        ("todos", "todos({\"first\":1})", true),
        ("todo", "todos", false),
        ("todos", "todo", false),
    ] {
        let write = Write::DropName(entity.copy()?, text(rt.alloc(), name)?);
        let found = covers(&write, &entity, &field(rt.alloc(), key)?);
        assert_eq!(rt; found, wanted, "at {name} and {key}");
    }
    Ok(())
}

/// Cells in a list.
#[derive(Drop)]
struct Listed {
    cells: Vec<(EntityKey, FieldKey, Cell)>,
}

impl Listed {
    fn entry(&self, entity: &EntityKey, field: &FieldKey) -> Option<&(EntityKey, FieldKey, Cell)>
        ensures { option_copied result ≡ find (λ c. bytes_eq c.0 entity.now && bytes_eq c.1 field.now) self.now.cells.items }
    {
        self.cells.iter().find(|c| c.0.as_text() == entity.as_text()
            && c.1.as_text() == field.as_text())
    }
}

impl Lookup for Listed {
    ghost cells = { λ listed entity field. option_map (λ c. c.2) (find (λ c. bytes_eq c.0 entity && bytes_eq c.1 field) listed.cells.items) };

    fn lookup<L: Ledger>(
        &self,
        entity: &EntityKey,
        field: &FieldKey,
        steps: &mut Steps<L>,
    ) -> Option<&Cell> {
        steps.add(1);
        match self.entry(entity, field) {
            Some((_, _, cell)) => Some(cell),
            None => None,
        }
    }
}

/// Whether the cell at a field of `Todo:1` is a null leaf.
fn is_null<C: Lookup, L: Ledger>(
    alloc: Global,
    cells: &C,
    name: &str,
    steps: &mut Steps<L>,
) -> Result<bool, Fail> {
    let todo = keyed(&text(alloc, "Todo")?, &text(alloc, "1")?)?;
    let cell = cells.lookup(&todo, &field(alloc, name)?, steps);
    Ok(matches!(cell, Some(Cell::Leaf(Value::Null))))
}

fn looks<L: Ledger>(rt: &(impl Abort + AllocGlobal), blank: Blank) -> Result<(), Fail>
    requires name { blank.name ≡ L.name }
    requires parts { blank.parts ≡ L.parts }
    requires some { 0 < blank.parts }
{
    let mut steps = Steps::<L>::new(blank);
    let mut cells = Vec::new(rt.alloc());
    let todo = keyed(&text(rt.alloc(), "Todo")?, &text(rt.alloc(), "1")?)?;
    cells.push((todo, field(rt.alloc(), "text")?, Cell::Leaf(Value::Null)))?;
    let listed = Listed { cells };
    assert!(rt; is_null(rt.alloc(), &listed, "text", &mut steps)?);
    assert!(rt; !is_null(rt.alloc(), &listed, "done", &mut steps)?);
    Ok(())
}

#[test]
fn a_list_of_cells_is_looked_up(rt: HostRuntime) -> Result<(), Fail> {
    looks::<Brand>(&rt, Blank::new(1))
}

#[test]
fn objects_have_the_key_of_their_id(rt: HostRuntime) -> Result<(), Fail> {
    let user = text(rt.alloc(), "User")?;
    let rules = KeyRules::new(rt.alloc());
    for (name, id, wanted) in [
        ("id", 7, Some("User:7")),
        ("_id", -7, Some("User:-7")),
        ("email", 7, None),
    ] {
        let mut fields = Members::new(rt.alloc());
        fields.push(text(rt.alloc(), name)?, Value::Int(id))?;
        match (key_of_object(&rules, &user, &fields)?, wanted) {
            (Some(key), Some(wanted)) => assert_eq!(rt; key.as_text().as_str(), wanted),
            (found, wanted) => assert!(rt; found.is_none() && wanted.is_none(), "at {name}"),
        }
    }
    Ok(())
}
