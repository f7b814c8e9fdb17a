ghost use Rattle.std.specs.Prelude.{◌≡◌, ◌++◌, IfOk, OnOk, map, codes};
ghost use Rattle.std.specs.List.{filter_map, list_any};
ghost use Rattle.std.specs.Option.{option_copied, option_to_list, option_and_then};
ghost use Rattle.gql_value.specs.declared.value.Value.{out-Value};
ghost use Rattle.schema_model.specs.Tables.{entry};
ghost use Rattle.answer_model.specs.Paths as spec;

use crate::members::first_named;
use crate::paths::begins;
use answer_model::Step;
use gql_value::{Members, Value};
use std::alloc::Global;
use text_types::{Items, Memory};

/// The paths of the errors in a list: of each that is an object whose `path` is a list (GraphQL October
/// 2021, 7.1.2).
pub fn error_paths(alloc: Global, errors: &Value) -> Result<Items<&[Value]>, Memory>
    ensures { IfOk result (λ paths. map (λ p. p.now) paths ≡ spec.error_paths (out-Value errors.now)) }
{
    match errors {
        Value::List(errors) => paths_of(alloc, errors.as_slice()),
        _ => Ok(Items::new(alloc)),
    }
}

fn paths_of(alloc: Global, errors: &[Value]) -> Result<Items<&[Value]>, Memory>
    ensures { IfOk result (λ paths. map (λ p. p.now) paths ≡ filter_map spec.error_path errors.now) }
{
    let mut paths = Items::new(alloc);
    'errors: for error in errors {
        push_if(&mut paths, error_path(error))?;
    }
    Ok(paths)
}

fn push_if<'a>(paths: &mut Items<&'a [Value]>, path: Option<&'a [Value]>) -> Result<(), Memory>
    ensures { OnOk result (map (λ p. p.now) paths.new ≡ map (λ p. p.now) paths.old ++ option_to_list (option_copied path.entry)) }
{
    match path {
        Some(path) => paths.push(path),
        None => Ok(()),
    }
}

fn error_path(error: &Value) -> Option<&[Value]>
    ensures { option_copied result ≡ spec.error_path error.now }
{
    match error {
        Value::Obj(members) => path_in(members),
        _ => None,
    }
}

fn path_in(members: &Members) -> Option<&[Value]>
    ensures { option_copied result ≡ option_and_then (λ path. spec.items_in (out-Value path)) (entry members.now (codes "path")) }
{
    match first_named(members.as_slice(), "path") {
        Some(path) => items_in(path),
        None => None,
    }
}

fn items_in(value: &Value) -> Option<&[Value]>
    ensures { option_copied result ≡ spec.items_in (out-Value value.now) }
{
    match value {
        Value::List(items) => Some(items.as_slice()),
        _ => None,
    }
}

/// Whether some error has its path through a place, or to it. Takes no memory.
pub fn is_above_error(errors: &[&[Value]], path: &[Step]) -> bool
    ensures { result ≡ spec.is_above_error (map (λ e. e.now) errors.now) path.now }
{
    any_begins(errors, path)
}

fn any_begins(errors: &[&[Value]], path: &[Step]) -> bool
    ensures { result ≡ list_any (λ e. spec.begins path.now e.now) errors.now }
{
    errors.iter().any(|error| begins(path, error))
}
