//! When two keys are the same.

ghost use Rattle.std.specs.Prelude.{◌≡◌, ◌↔◌, IsTrue};
ghost use Rattle.gate_machine.specs.Keys as spec;

use crate::key::{EntityKey, Owner, Place};

fn same_owner(a: &Owner, b: &Owner) -> bool
    ensures { result ≡ spec.same_owner a.now b.now }
{
    match (a, b) {
        (Owner::Root, Owner::Root) => true,
        (
            Owner::Entity { type_name, id },
            Owner::Entity {
                type_name: other_type,
                id: other_id,
            },
        ) => *type_name == *other_type && *id == *other_id,
        _ => false,
    }
}

fn same_place(a: &Place, b: &Place) -> bool
    ensures { result ≡ spec.same_place a.now b.now }
{
    a.field == b.field && a.type_name == b.type_name
}

fn same_places(a: &[Place], b: &[Place]) -> bool
    ensures { result ≡ spec.same_places a.now b.now }
{
    let mut left = a;
    let mut right = b;
    'steps: while let Some((place, left_after)) = left.split_first() {
        let Some((other, right_after)) = right.split_first() else {
            return false;
        };
        if !same_place(place, other) {
            return false;
        }
        left = left_after;
        right = right_after;
    }
    right.is_empty()
}

fn same_key(a: &EntityKey, b: &EntityKey) -> bool
    ensures { result ≡ spec.same_key a.now b.now }
{
    same_owner(&a.owner, &b.owner) && same_places(a.places.as_slice(), b.places.as_slice())
}

impl EntityKey {
    /// Whether the two are the same. Takes no memory.
    pub fn same(&self, other: &EntityKey) -> bool
        ensures value { result ≡ spec.same_key self.now other.now }
        ensures exact { IsTrue result ↔ (self.now ≡ other.now) }
    {
        same_key(self, other)
    }
}
