//! Laws of the texts of values and of fields' keys, which the layers above may cite. It stands on
//! `gql_value`, which says what the text and the sorted text of a value are, on `entity_keys`, which says
//! what a field's key is, and on `cache_model` for names. The functions do nothing.
//!
//! The one contract: equal texts come from equal values ([`equal_texts`]), and two fields have one key
//! exactly where their names are equal and their arguments too, but for the order of members
//! ([`equal_field_keys`]).
#![tactic(auto)]

ghost use Rattle.field_key_laws.specs.Laws.{FieldKeysByParts, FieldKeysByValues, FieldKeysOfValues};
ghost use Rattle.field_key_laws.specs.Values.{TextsByValues, SortedTextsByValues, SortedTextsOfValues};

/// Equal keys of fields whose names are names of the language come from one name, and from arguments with
/// one sorted text, or from none. So two fields of one name have one key exactly where their arguments are
/// equal, but for the order of arguments and of members inside.
pub fn equal_field_keys()
    ensures parts { FieldKeysByParts }
    ensures values { FieldKeysByValues }
    ensures back { FieldKeysOfValues }
{}

/// Equal texts come from equal values, and equal sorted texts exactly from values that are equal but for
/// the order of members, where of two members with one name the last alone counts.
pub fn equal_texts()
    ensures plain { TextsByValues }
    ensures sorted { SortedTextsByValues }
    ensures back { SortedTextsOfValues }
{}
