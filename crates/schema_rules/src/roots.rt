ghost use Rattle.std.specs.Prelude.{◌≡◌, false};
ghost use Rattle.std.specs.Option.{option_map_or};
ghost use Rattle.schema_model.specs.Tables.{entry};
ghost use Rattle.schema_model.specs.Possible.{is_object};
ghost use Rattle.schema_rules.specs.Roots.{no_query, not_object, root_fault, one_type, two_roots, roots_not_objects, doubled_roots, root_line};

use crate::lines::earlier;
use schema_model::{RootName, RootNames, Schema};
use text_types::Text;

/// The least line of a fault of the roots, which is 0 where there is no query root.
pub fn root_line(schema: &Schema) -> Option<u64>
    ensures { result ≡ root_line schema.now }
{
    let roots = &schema.roots;
    earlier(
        no_query(roots),
        earlier(roots_not_objects(schema, roots), doubled_roots(roots)),
    )
}

fn no_query(roots: &RootNames) -> Option<u64>
    ensures { result ≡ no_query roots.now }
{
    if roots.query.is_some() { None } else { Some(0) }
}

fn roots_not_objects(schema: &Schema, roots: &RootNames) -> Option<u64>
    ensures { result ≡ roots_not_objects schema.now roots.now }
{
    let query = root_fault(schema, &roots.query);
    let mutation = root_fault(schema, &roots.mutation);
    let subscription = root_fault(schema, &roots.subscription);
    earlier(query, earlier(mutation, subscription))
}

fn root_fault(schema: &Schema, root: &Option<RootName>) -> Option<u64>
    ensures { result ≡ root_fault schema.now root.now }
{
    match root {
        Some(root) => not_object(schema, root),
        None => None,
    }
}

fn not_object(schema: &Schema, root: &RootName) -> Option<u64>
    ensures { result ≡ not_object schema.now root.now }
{
    if is_object_type(schema, &root.text) {
        None
    } else {
        Some(root.line)
    }
}

fn is_object_type(schema: &Schema, name: &Text) -> bool
    ensures { result ≡ option_map_or (λ t. is_object t.form) (entry schema.now.types name.now) false }
{
    match schema.types.get(name) {
        Some(found) => found.form.is_object(),
        None => false,
    }
}

fn doubled_roots(roots: &RootNames) -> Option<u64>
    ensures { result ≡ doubled_roots roots.now }
{
    let first = two_roots(&roots.query, &roots.mutation);
    let second = two_roots(&roots.query, &roots.subscription);
    let third = two_roots(&roots.mutation, &roots.subscription);
    earlier(first, earlier(second, third))
}

fn two_roots(a: &Option<RootName>, b: &Option<RootName>) -> Option<u64>
    ensures { result ≡ two_roots a.now b.now }
{
    match (a, b) {
        (Some(a), Some(b)) => one_type(a, b),
        _ => None,
    }
}

fn one_type(a: &RootName, b: &RootName) -> Option<u64>
    ensures { result ≡ one_type a.now b.now }
{
    if a.text == b.text {
        Some(a.line.max(b.line))
    } else {
        None
    }
}
