ghost use Rattle.std.specs.Prelude.{◌≡◌};
ghost use Rattle.std.specs.Option.{option_copied};
ghost use Rattle.check_model.specs.Usages.{wanted_by, wanted_at, at_item, input_fields_at};
ghost use Rattle.variable_rules.specs.Places.{place_of, at_of, fields_of, named_fields};

use gql_model::TypeRef;
use schema_model::{InputValue, Schema, Table};
use schema_rules::named_type;
use text_types::Text;

/// The type that a value stands at, and whether there is a default in its place.
#[derive(Clone, Copy)]
pub(crate) struct Wanted<'a> {
    pub wanted: &'a TypeRef,
    pub has_default: bool,
}

fn wanted_by(input: &InputValue) -> Wanted<'_>
    ensures { place_of result ≡ wanted_by input.now }
{
    Wanted {
        wanted: &input.input_type.type_ref,
        has_default: input.default.is_some(),
    }
}

/// What the argument or input field of a name wants.
pub(crate) fn wanted_at<'a>(defined: &'a Table<InputValue>, name: &Text) -> Option<Wanted<'a>>
    ensures { at_of result ≡ wanted_at defined.now name.now }
{
    match defined.get(name) {
        Some(input) => Some(wanted_by(input)),
        None => None,
    }
}

/// What each item of a list literal is wanted to be.
pub(crate) fn at_item(at: Option<Wanted<'_>>) -> Option<Wanted<'_>>
    ensures { at_of result ≡ at_item (at_of at.entry) }
{
    match at?.wanted {
        TypeRef::List { of, .. } => Some(Wanted {
            wanted: of.get(),
            has_default: false,
        }),
        TypeRef::Named { .. } => None,
    }
}

/// The fields of the input object type that is wanted, itself or in a list of one.
pub(crate) fn input_fields_at<'a>(
    schema: &'a Schema,
    at: Option<Wanted<'_>>,
) -> Option<&'a Table<InputValue>>
    ensures { fields_of (option_copied result) ≡ input_fields_at schema.now (at_of at.entry) }
{
    match at {
        Some(wanted) => input_fields(schema, wanted.wanted),
        None => None,
    }
}

fn input_fields<'a>(schema: &'a Schema, wanted: &TypeRef) -> Option<&'a Table<InputValue>>
    ensures { fields_of (option_copied result) ≡ named_fields schema.now wanted.now }
{
    match schema.types.get(named_type(wanted)) {
        Some(found) => found.form.input_fields(),
        None => None,
    }
}

/// What a field of an object literal is wanted to be.
pub(crate) fn wanted_in<'a>(
    defined: Option<&'a Table<InputValue>>,
    name: &Text,
) -> Option<Wanted<'a>>
    ensures { at_of result ≡ wanted_at (fields_of (option_copied defined.entry)) name.now }
{
    match defined {
        Some(defined) => wanted_at(defined, name),
        None => None,
    }
}
