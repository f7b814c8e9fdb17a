//! Which keys the tables of a rules file may have.

ghost use Rattle.std.specs.Prelude.{◌≡◌};
ghost use Rattle.toml.specs.View.{table_view};
ghost use Rattle.rules_model.specs.Toml as tables;
ghost use Rattle.rules_model.specs.Forms as forms;
ghost use Rattle.rules_model.specs.Judgement as judgement;
ghost use Rattle.updater_rules.specs.Keys as spec;

use rules_model::ActionKind;
use toml::Table;

/// The sorts of tables, by the keys that they may have.
#[derive(Clone, Copy)]
pub(crate) enum TableSort {
    /// The file as a whole.
    File,
    /// An updater with an action of this kind.
    Updater(ActionKind),
    Optimistic,
}

impl TableSort {
    fn knows(self, key: &str) -> bool
        ensures { result ≡ spec.knows self key.now }
    {
        match self {
            TableSort::File => is_table_key(key),
            TableSort::Updater(kind) => is_action_key(kind, key),
            TableSort::Optimistic => is_optimistic_key(key),
        }
    }
}

fn is_table_key(key: &str) -> bool
    ensures { result ≡ judgement.is_table_key key.now }
{
    key == "keys" || key == "updater" || key == "optimistic"
}

fn is_updater_key(key: &str) -> bool
    ensures { result ≡ forms.is_updater_key key.now }
{
    key == "on" || key == "action" || key == "type" || key == "id"
}

fn is_target_key(key: &str) -> bool
    ensures { result ≡ forms.is_target_key key.now }
{
    is_updater_key(key) || key == "field" || key == "args"
}

fn is_action_key(kind: ActionKind, key: &str) -> bool
    ensures { result ≡ forms.is_action_key kind key.now }
{
    match kind {
        ActionKind::Write => is_target_key(key) || key == "value",
        ActionKind::Clear => is_target_key(key),
        ActionKind::Link => is_target_key(key) || key == "to_type" || key == "to_id",
        ActionKind::Invalidate => is_updater_key(key),
        ActionKind::InvalidateField => is_updater_key(key) || key == "field",
    }
}

fn is_optimistic_key(key: &str) -> bool
    ensures { result ≡ forms.is_optimistic_key key.now }
{
    key == "on" || key == "type" || key == "fields"
}

/// Whether a table has no other keys than those of its sort.
pub(crate) fn has_only(sort: TableSort, table: &Table) -> bool
    ensures { result ≡ tables.has_only (spec.knows sort) (table_view table.now) }
{
    for (key, _) in table.iter() {
        if !sort.knows(key.as_str()) {
            return false;
        }
    }
    true
}
