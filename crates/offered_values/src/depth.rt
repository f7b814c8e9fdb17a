ghost use Rattle.std.specs.Prelude.{◌≡◌, ◌+◌, map, max, nat_lt};
ghost use Rattle.std.specs.List.{fold, list_any};
ghost use Rattle.execution_model.specs.Values.{depth};

use gql_value::{Members, Value};

/// Whether lists and objects nest deeper than this in a value, `[]` and `{}` as one level each.
#[cycle(depth)]
pub fn is_deeper(value: &Value, limit: u64) -> bool
    ensures { result ≡ nat_lt limit (depth value.now) }
{
    match value {
        Value::List(items) => is_list_deeper(items.as_slice(), limit),
        Value::Obj(members) => is_object_deeper(members, limit),
        _ => false,
    }
}

#[cycle(depth)]
fn is_list_deeper(items: &[Value], limit: u64) -> bool
    ensures { result ≡ nat_lt limit (fold max 0 (map depth items.now) + 1) }
{
    if limit == 0 {
        return true;
    }
    is_item_deeper(items, limit - 1)
}

#[cycle(depth)]
fn is_item_deeper(items: &[Value], limit: u64) -> bool
    ensures { result ≡ list_any (nat_lt limit) (map depth items.now) }
{
    'items: for item in items {
        if is_deeper(item, limit) {
            return true;
        }
    }
    false
}

#[cycle(depth)]
fn is_object_deeper(members: &Members, limit: u64) -> bool
    ensures { result ≡ nat_lt limit (fold max 0 (map (λ m. depth m.1) members.now) + 1) }
{
    if limit == 0 {
        return true;
    }
    is_member_deeper(members, limit - 1)
}

#[cycle(depth)]
fn is_member_deeper(members: &Members, limit: u64) -> bool
    ensures { result ≡ list_any (nat_lt limit) (map (λ m. depth m.1) members.now) }
{
    'members: for member in members.as_slice() {
        if is_deeper(&member.1, limit) {
            return true;
        }
    }
    false
}
