ghost use Rattle.std.specs.Prelude.{◌≡◌, IsTrue, ◌↔◌};

use gql_value::Value;
use schema_model::Table;

/// Whether two tables of defaults are equal.
pub(crate) fn same_defaults(a: &Table<Table<Value>>, b: &Table<Table<Value>>) -> bool
    ensures { IsTrue result ↔ (a.now ≡ b.now) }
{
    let (a, b) = (a.as_slice(), b.as_slice());
    if a.len() != b.len() {
        return false;
    }
    'types: for i in 0..a.len() {
        let (name, values) = &a[i];
        let (other_name, other_values) = &b[i];
        if !name.same(other_name) || !same_values(values, other_values) {
            return false;
        }
    }
    true
}

fn same_values(a: &Table<Value>, b: &Table<Value>) -> bool
    ensures { IsTrue result ↔ (a.now ≡ b.now) }
{
    let (a, b) = (a.as_slice(), b.as_slice());
    if a.len() != b.len() {
        return false;
    }
    'fields: for i in 0..a.len() {
        let (name, value) = &a[i];
        let (other_name, other_value) = &b[i];
        if !name.same(other_name) || !value.same(other_value) {
            return false;
        }
    }
    true
}
