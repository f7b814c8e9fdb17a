ghost use Rattle.std.specs.Prelude.{◌≡◌, ◌<◌, ◌≤◌, ◌==◌, IfOk, IfSome, Some, IsTrue, ◌↔◌, position, unwrap_or, length, bytes_eq, refl};
ghost use Rattle.std.specs.Cmp.{partial_equiv_from_equiv};
ghost use Rattle.std.specs.Cmp.Lexicographic.{nat_list_cmp_total, nat_list_eq_equiv, texts_ties, texts_po};
ghost use Rattle.text_types.specs.Texts.{text_cmp};
ghost use Rattle.cache_model.specs.Keys.{field_name_of};

use std::cmp::Ordering;
use std::marker::Model;
use text_types::{Memory, Text};

/// The key of an object, which contracts see as the bytes of its text. Any text may stand in it:
/// which texts are keys of what is for the layer above to say.
#[derive(Debug, Drop)]
pub struct EntityKey {
    text: Text,
}

impl Model for EntityKey {
    ghost use Rattle.std.specs.Prelude.{List, ℕ};

    ghost Value = { List ℕ };

    ghost view = { λ key. key.text };
}

impl EntityKey {
    /// The key with this text.
    pub fn from_text(text: Text) -> EntityKey
        ensures { result ≡ text }
    {
        EntityKey { text }
    }

    /// The key's text.
    pub fn as_text(&self) -> &Text
        ensures { result.now ≡ self.now }
    {
        &self.text
    }

    /// An equal key.
    pub fn copy(&self) -> Result<EntityKey, Memory>
        ensures { IfOk result (λ key. key ≡ self.now) }
    {
        Ok(EntityKey {
            text: self.text.copy()?,
        })
    }

    /// Whether the two are equal. Takes no memory.
    pub fn same(&self, other: &EntityKey) -> bool
        ensures { IsTrue result ↔ self.now ≡ other.now }
    {
        self.text.same(&other.text)
    }
}

impl PartialEq for EntityKey {
    ghost eq = { bytes_eq };

    ghost laws = { partial_equiv_from_equiv nat_list_eq_equiv };

    fn eq(&self, other: &EntityKey) -> bool {
        self.text == other.text
    }
}

impl Eq for EntityKey {
    ghost laws = { nat_list_eq_equiv };
}

impl PartialOrd for EntityKey {
    ghost partial_cmp = { λ a b. Some (text_cmp a b) };

    ghost laws = { texts_po };

    fn partial_cmp(&self, other: &EntityKey) -> Option<Ordering> {
        Some(self.cmp(other))
    }
}

impl Ord for EntityKey {
    ghost cmp = { text_cmp };

    ghost total = { nat_list_cmp_total };

    ghost matches_partial_cmp = { λ a b. refl };

    ghost matches_eq = { texts_ties };

    fn cmp(&self, other: &EntityKey) -> Ordering {
        self.text.cmp(&other.text)
    }
}

/// The key of a field of an object: its name, with its arguments where it has some. Contracts see
/// it as the bytes of its text.
#[derive(Debug, Drop)]
pub struct FieldKey {
    text: Text,
}

impl Model for FieldKey {
    ghost use Rattle.std.specs.Prelude.{List, ℕ};

    ghost Value = { List ℕ };

    ghost view = { λ key. key.text };
}

impl FieldKey {
    /// The key with this text.
    pub fn from_text(text: Text) -> FieldKey
        ensures { result ≡ text }
    {
        FieldKey { text }
    }

    /// The key's text.
    pub fn as_text(&self) -> &Text
        ensures { result.now ≡ self.now }
    {
        &self.text
    }

    /// An equal key.
    pub fn copy(&self) -> Result<FieldKey, Memory>
        ensures { IfOk result (λ key. key ≡ self.now) }
    {
        Ok(FieldKey {
            text: self.text.copy()?,
        })
    }

    /// Whether the two are equal. Takes no memory.
    pub fn same(&self, other: &FieldKey) -> bool
        ensures { IsTrue result ↔ self.now ≡ other.now }
    {
        self.text.same(&other.text)
    }

    /// Whether this is the name of the field, whatever its arguments. Takes no memory.
    pub fn has_name(&self, name: &Text) -> bool
        ensures { result ≡ bytes_eq name.now (field_name_of self.now) }
    {
        text_has_name(&self.text, name)
    }
}

impl PartialEq for FieldKey {
    ghost eq = { bytes_eq };

    ghost laws = { partial_equiv_from_equiv nat_list_eq_equiv };

    fn eq(&self, other: &FieldKey) -> bool {
        self.text == other.text
    }
}

impl Eq for FieldKey {
    ghost laws = { nat_list_eq_equiv };
}

impl PartialOrd for FieldKey {
    ghost partial_cmp = { λ a b. Some (text_cmp a b) };

    ghost laws = { texts_po };

    fn partial_cmp(&self, other: &FieldKey) -> Option<Ordering> {
        Some(self.cmp(other))
    }
}

impl Ord for FieldKey {
    ghost cmp = { text_cmp };

    ghost total = { nat_list_cmp_total };

    ghost matches_partial_cmp = { λ a b. refl };

    ghost matches_eq = { texts_ties };

    fn cmp(&self, other: &FieldKey) -> Ordering {
        self.text.cmp(&other.text)
    }
}

/// Whether the text of a field's key has this name. Takes no memory.
pub fn text_has_name(field: &Text, name: &Text) -> bool
    ensures { result ≡ bytes_eq name.now (field_name_of field.now) }
{
    let field = field.as_bytes();
    name.as_bytes() == &field[..name_len(field)]
}

/// How many bytes stand before the first `(`.
fn name_len(field: &[u8]) -> usize
    ensures value { result ≡ unwrap_or (position (λ b. b == 40) field.now) (length field.now) }
    ensures within { result ≤ length field.now }
{
    parenthesis(field).unwrap_or(field.len())
}

fn parenthesis(field: &[u8]) -> Option<usize>
    ensures value { result ≡ position (λ b. b == 40) field.now }
    ensures within { IfSome result (λ at. at < length field.now) }
{
    field.iter().position(|byte| *byte == b'(')
}
