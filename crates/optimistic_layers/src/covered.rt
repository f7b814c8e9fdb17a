ghost use Rattle.std.specs.Prelude.{◌≡◌};
ghost use Rattle.cache_model.specs.History.{History, is_blocked, is_shadowed};
ghost use Rattle.layer_store.specs.Stores.{Stands, IsKept};

use cache_model::Visited;
use layer_store::{Store, Ticket};

/// Whether some visited cell is covered by the content of a later ticket. Takes no memory.
pub fn masked(visited: &Visited, store: &Store, ticket: Ticket) -> bool
    requires { IsKept store.now ticket }
    ensures { (h : History) → Stands store.now h → result ≡ is_shadowed visited.now h ticket }
{
    for (entity, field) in visited.as_slice() {
        if store.lookup_above(ticket, entity, field) {
            return true;
        }
    }
    false
}

/// Whether some visited cell is covered by an Optimistic content. Takes no memory.
pub fn blocked(visited: &Visited, store: &Store) -> bool
    ensures { (h : History) → Stands store.now h → result ≡ is_blocked visited.now h }
{
    for (entity, field) in visited.as_slice() {
        if store.touched(entity, field) {
            return true;
        }
    }
    false
}
