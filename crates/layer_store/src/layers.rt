//! The layers of the tickets that aren't squashed, lowest first.

ghost use Rattle.std.specs.Prelude.{◌≡◌, ◌&&◌, ℕ, List, ◌≤◌, take, drop, length, IfOk, is_some};
ghost use Rattle.std.specs.List.{list_any};
ghost use Rattle.cache_model.specs.History.{is_optimistic};
ghost use Rattle.layer_store.specs.Layers.{found_by, found_through, finished_count, IsFound};

use crate::changes::Changes;
use crate::fields::Found;
use crate::layer::Layer;
use cache_model::{EntityKey, FieldKey};
use std::alloc::Global;
use std::collections::VecDeque;
use text_types::Memory;

/// What the newest layer says that says something.
pub fn find_through<'a>(
    layers: &'a VecDeque<Layer>,
    entity: &EntityKey,
    field: &FieldKey,
) -> Found<'a>
    ensures { IsFound result (found_through layers.now.items entity.now field.now) }
{
    let mut at = layers.len();
    'turn: while at > 0 {
        at -= 1;
        match layers[at].find(entity, field) {
            Found::Nothing => {}
            found => return found,
        }
    }
    Found::Nothing
}

/// Whether a layer from this place on says something of the cell.
pub fn says_from(layers: &VecDeque<Layer>, at: usize, entity: &EntityKey, field: &FieldKey) -> bool
    ensures { result ≡ list_any (λ layer. is_some (found_by layer.changes entity.now field.now)) (drop at layers.now.items) }
{
    layers
        .iter()
        .skip(at)
        .any(|layer| layer.says(entity, field))
}

/// Whether an Optimistic layer says something of the cell.
pub fn any_guesses(layers: &VecDeque<Layer>, entity: &EntityKey, field: &FieldKey) -> bool
    ensures { result ≡ list_any (λ layer. is_optimistic layer.kind && is_some (found_by layer.changes entity.now field.now)) layers.now.items }
{
    layers.iter().any(|layer| layer.guesses(entity, field))
}

/// How many layers stand before the first that isn't finished.
pub fn finished_front(layers: &VecDeque<Layer>) -> usize
    ensures { result ≡ finished_count layers.now.items }
{
    let mut count = 0;
    'turn: while count < layers.len() && layers[count].finished {
        count += 1;
    }
    count
}

/// What the first layers say together, as copies.
pub fn merged(alloc: Global, layers: &VecDeque<Layer>, count: usize) -> Result<Changes, Memory>
    requires { count ≤ length layers.now.items }
    ensures { IfOk result (λ changes. (e f : List ℕ) → found_by changes e f ≡ found_through (take count layers.now.items) e f) }
{
    let mut changes = Changes::new(alloc);
    let mut at = count;
    'turn: while at > 0 {
        at -= 1;
        changes.put_changes(alloc, &layers[at].changes)?;
    }
    Ok(changes)
}

/// Takes the first layers away.
pub fn drop_front(layers: &mut VecDeque<Layer>, count: usize)
    requires { count ≤ length layers.old.items }
    ensures { layers.new.items ≡ drop count layers.old.items }
{
    'turn: for _ in 0..count {
        layers.pop_front();
    }
}
