ghost use Rattle.std.specs.Prelude.{◌≡◌, false};
ghost use Rattle.std.specs.Option.{option_map_or};
ghost use Rattle.schema_model.specs.Schemas.{has_value};
ghost use Rattle.schema_model.specs.Tables.{entry};
ghost use Rattle.schema_defaults.specs.Fits.{is_custom, fits_32_bits, scalar_takes_integer, scalar_takes_string, scalar_takes_boolean, is_scalar, names_scalar, takes_integer, takes_string, takes_boolean, takes_any, takes_name};

use schema_model::{Schema, TypeForm};
use text_types::Text;

fn is_custom(name: &str) -> bool
    ensures { result ≡ is_custom name.now }
{
    !(name == "Int" || name == "Float" || name == "String" || name == "Boolean" || name == "ID")
}

fn fits_32_bits(number: i64) -> bool
    ensures { result ≡ fits_32_bits number }
{
    -2147483648 <= number && number <= 2147483647
}

fn scalar_takes_integer(name: &str, number: i64) -> bool
    ensures { result ≡ scalar_takes_integer name.now number }
{
    (name == "Int" && fits_32_bits(number)) || name == "Float" || name == "ID" || is_custom(name)
}

fn scalar_takes_string(name: &str) -> bool
    ensures { result ≡ scalar_takes_string name.now }
{
    name == "String" || name == "ID" || is_custom(name)
}

fn scalar_takes_boolean(name: &str) -> bool
    ensures { result ≡ scalar_takes_boolean name.now }
{
    name == "Boolean" || is_custom(name)
}

fn names_scalar(schema: &Schema, name: &Text) -> bool
    ensures { result ≡ names_scalar schema.now name.now }
{
    match schema.types.get(name) {
        Some(found) => is_scalar(&found.form),
        None => false,
    }
}

fn is_scalar(form: &TypeForm) -> bool
    ensures { result ≡ is_scalar form.now }
{
    matches!(form, TypeForm::Scalar)
}

/// Whether a whole number may stand where a type of this name is wanted: an Int of 32 bits, a Float, an ID or a
/// custom scalar.
pub fn takes_integer(schema: &Schema, number: i64, name: &Text) -> bool
    ensures { result ≡ takes_integer schema.now number name.now }
{
    names_scalar(schema, name) && scalar_takes_integer(name.as_str(), number)
}

/// Whether a string may: for a String, an ID or a custom scalar.
pub fn takes_string(schema: &Schema, name: &Text) -> bool
    ensures { result ≡ takes_string schema.now name.now }
{
    names_scalar(schema, name) && scalar_takes_string(name.as_str())
}

/// Whether a truth value may: for a Boolean or a custom scalar.
pub fn takes_boolean(schema: &Schema, name: &Text) -> bool
    ensures { result ≡ takes_boolean schema.now name.now }
{
    names_scalar(schema, name) && scalar_takes_boolean(name.as_str())
}

/// Whether the name is that of a scalar that isn't built in, which takes any literal.
pub fn takes_any(schema: &Schema, name: &Text) -> bool
    ensures { result ≡ takes_any schema.now name.now }
{
    names_scalar(schema, name) && is_custom(name.as_str())
}

pub(crate) fn takes_name(schema: &Schema, word: &Text, name: &Text) -> bool
    ensures { result ≡ takes_name schema.now word.now name.now }
{
    enum_takes(schema, word, name) || takes_any(schema, name)
}

/// Whether the name is that of an enum that has this value.
pub fn enum_takes(schema: &Schema, word: &Text, name: &Text) -> bool
    ensures { result ≡ option_map_or (λ t. has_value t.form word.now) (entry schema.now.types name.now) false }
{
    match schema.types.get(name) {
        Some(found) => found.form.has_value(word),
        None => false,
    }
}
