//! What stands under a key of a table.

ghost use Rattle.std.specs.Prelude.{◌≡◌, IfOk};
ghost use Rattle.std.specs.Option.{option_copied, option_map, option_and_then};
ghost use Rattle.toml.specs.Data.{get_member, as_table, as_array};
ghost use Rattle.toml.specs.View.{view, table_view, array_view};
ghost use Rattle.rules_model.specs.Toml as spec;
ghost use Rattle.rules_model.specs.Terms as terms;
ghost use Rattle.rules_model.specs.Judgement as judgement;

use crate::terms::term_of;
use rules_model::Term;
use std::alloc::Global;
use text_types::{Memory, Text};
use toml::Table;
use toml::value::Array;

/// What stands under a key.
pub(crate) fn data_under<'a>(key: &str, table: &'a Table) -> Option<&'a toml::Value>
    ensures { option_map (λ found. view found.now) result ≡ get_member key.now (table_view table.now) }
{
    table.get(key)
}

/// The table under a key.
pub(crate) fn table_under<'a>(key: &str, table: &'a Table) -> Option<&'a Table>
    ensures { option_map (λ found. table_view found.now) result ≡ option_and_then as_table (get_member key.now (table_view table.now)) }
{
    match data_under(key, table) {
        Some(found) => found.as_table(),
        None => None,
    }
}

/// The array under a key.
pub(crate) fn array_under<'a>(key: &str, table: &'a Table) -> Option<&'a Array>
    ensures { option_map (λ found. array_view found.now) result ≡ option_and_then as_array (get_member key.now (table_view table.now)) }
{
    match data_under(key, table) {
        Some(found) => found.as_array(),
        None => None,
    }
}

/// Whether nothing else than a table stands under a key.
pub(crate) fn may_be_table(key: &str, table: &Table) -> bool
    ensures { result ≡ judgement.may_be_table key.now (table_view table.now) }
{
    match data_under(key, table) {
        Some(found) => found.is_table(),
        None => true,
    }
}

/// Whether nothing else than an array stands under a key.
pub(crate) fn may_be_list(key: &str, table: &Table) -> bool
    ensures { result ≡ judgement.may_be_list key.now (table_view table.now) }
{
    match data_under(key, table) {
        Some(found) => found.is_array(),
        None => true,
    }
}

fn str_under<'a>(key: &str, table: &'a Table) -> Option<&'a str>
    ensures { option_copied result ≡ spec.text_under key.now (table_view table.now) }
{
    match data_under(key, table) {
        Some(found) => found.as_str(),
        None => None,
    }
}

/// The text under a key.
pub(crate) fn text_under(alloc: Global, key: &str, table: &Table) -> Result<Option<Text>, Memory>
    ensures { IfOk result (λ text. text ≡ spec.text_under key.now (table_view table.now)) }
{
    match str_under(key, table) {
        Some(text) => Ok(Some(Text::from_str(alloc, text)?)),
        None => Ok(None),
    }
}

/// The term under a key.
pub(crate) fn term_under(alloc: Global, key: &str, table: &Table) -> Result<Option<Term>, Memory>
    ensures { IfOk result (λ term. term ≡ terms.term_under key.now (table_view table.now)) }
{
    match data_under(key, table) {
        Some(found) => term_of(alloc, found),
        None => Ok(None),
    }
}
