ghost use Rattle.std.specs.Prelude.{◌≡◌, IfOk};
ghost use Rattle.gate_machine.specs.Keys.{same_owner, same_place, same_places, same_key};

use std::alloc::Global;
use text_types::{Items, Memory, Text};

/// The object that a key begins at: the query root, or an object by its type and its id.
#[derive(Debug, Drop)]
pub enum Owner {
    Root,
    Entity { type_name: Text, id: Text },
}

impl Owner {
    fn copy(&self) -> Result<Owner, Memory>
        ensures { IfOk result (λ owner. owner ≡ self.now) }
    {
        match self {
            Owner::Root => Ok(Owner::Root),
            Owner::Entity { type_name, id } => Ok(Owner::Entity {
                type_name: type_name.copy()?,
                id: id.copy()?,
            }),
        }
    }
}

/// A step from an object to the one at a field of it.
#[derive(Debug, Drop)]
pub struct Place {
    pub field: Text,
    pub type_name: Text,
}

impl Place {
    fn copy(&self) -> Result<Place, Memory>
        ensures { IfOk result (λ place. place ≡ self.now) }
    {
        Ok(Place {
            field: self.field.copy()?,
            type_name: self.type_name.copy()?,
        })
    }
}

/// The key of an object. One without an id of its own is embedded in the object before it, at a
/// field, so equal keys have equal parts.
#[derive(Debug, Drop)]
pub struct EntityKey {
    pub owner: Owner,
    pub places: Items<Place>,
}

impl EntityKey {
    /// An equal key.
    pub fn copy(&self, alloc: Global) -> Result<EntityKey, Memory>
        ensures { IfOk result (λ key. key ≡ self.now) }
    {
        Ok(EntityKey {
            owner: self.owner.copy()?,
            places: copy_places(alloc, self.places.as_slice())?,
        })
    }
}

fn copy_places(alloc: Global, places: &[Place]) -> Result<Items<Place>, Memory>
    ensures { IfOk result (λ copies. copies ≡ places.now) }
{
    let mut copies = Items::new(alloc);
    for place in places {
        copies.push(place.copy()?)?;
    }
    Ok(copies)
}
