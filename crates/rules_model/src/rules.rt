use crate::optimistic::Optimistic;
use crate::updater::Updater;
use entity_keys::KeyRules;
use text_types::Items;

/// The rules of a file: the key fields that are set for types, and updaters and optimistic rules in the
/// order of the file.
#[derive(Drop)]
pub struct Rules {
    pub keys: KeyRules,
    pub updaters: Items<Updater>,
    pub optimistic: Items<Optimistic>,
}
