ghost use Rattle.std.specs.Prelude.{◌≡◌};
ghost use Rattle.schema_rules.specs.Lines.{least_by};
ghost use Rattle.schema_rules.specs.Unknown.{is_executable_location, is_type_system_location, is_location, unknown_location, unknown_locations, unknown_root, unknown_roots, unknown_line};

use crate::lines::earlier;
use crate::uses::{Ground, least_use, unknown};
use gql_model::Name;
use schema_model::{RootName, Schema, SchemaDirective};
use text_types::Text;

/// The least line of a name of no type, or of an unknown location.
pub fn unknown_line(schema: &Schema) -> Option<u64>
    ensures { result ≡ unknown_line schema.now }
{
    let uses = least_use(schema, Ground::Unknown);
    let locations = unknown_in_directives(schema.directives.as_slice());
    earlier(uses, earlier(locations, unknown_roots(schema)))
}

fn unknown_in_directives(directives: &[(Text, SchemaDirective)]) -> Option<u64>
    ensures { result ≡ least_by unknown_locations directives.now }
{
    directives.iter().fold(None, |least, directive| {
        earlier(least, unknown_in(directive.1.locations.as_slice()))
    })
}

fn unknown_in(locations: &[Name]) -> Option<u64>
    ensures { result ≡ least_by unknown_location locations.now }
{
    locations
        .iter()
        .fold(None, |least, name| earlier(least, unknown_location(name)))
}

fn unknown_location(name: &Name) -> Option<u64>
    ensures { result ≡ unknown_location name.now }
{
    if is_location(name.text.as_str()) {
        None
    } else {
        Some(name.place.row)
    }
}

fn is_location(name: &str) -> bool
    ensures { result ≡ is_location name.now }
{
    is_executable_location(name) || is_type_system_location(name)
}

fn is_executable_location(name: &str) -> bool
    ensures { result ≡ is_executable_location name.now }
{
    name == "QUERY"
        || name == "MUTATION"
        || name == "SUBSCRIPTION"
        || name == "FIELD"
        || name == "FRAGMENT_DEFINITION"
        || name == "FRAGMENT_SPREAD"
        || name == "INLINE_FRAGMENT"
        || name == "VARIABLE_DEFINITION"
}

fn is_type_system_location(name: &str) -> bool
    ensures { result ≡ is_type_system_location name.now }
{
    name == "SCHEMA"
        || name == "SCALAR"
        || name == "OBJECT"
        || name == "FIELD_DEFINITION"
        || name == "ARGUMENT_DEFINITION"
        || name == "INTERFACE"
        || name == "UNION"
        || name == "ENUM"
        || name == "ENUM_VALUE"
        || name == "INPUT_OBJECT"
        || name == "INPUT_FIELD_DEFINITION"
}

fn unknown_roots(schema: &Schema) -> Option<u64>
    ensures { result ≡ unknown_roots schema.now }
{
    let query = unknown_root(schema, &schema.roots.query);
    let mutation = unknown_root(schema, &schema.roots.mutation);
    let subscription = unknown_root(schema, &schema.roots.subscription);
    earlier(query, earlier(mutation, subscription))
}

fn unknown_root(schema: &Schema, root: &Option<RootName>) -> Option<u64>
    ensures { result ≡ unknown_root schema.now root.now }
{
    match root {
        Some(root) => unknown(schema, &root.text, root.line),
        None => None,
    }
}
