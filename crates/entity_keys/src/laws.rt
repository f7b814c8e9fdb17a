//! Laws of the keys' texts, which the layers above cite. The functions do nothing.

ghost use Rattle.entity_keys.specs.Laws.{KeyedByParts, EmbeddedByParts, KeyedIsNoRoot, KeyedIsNotEmbedded, EmbeddedIsNoRoot};

/// Equal keys of objects with ids come from one type and one id.
pub fn equal_keyed_keys()
    ensures { KeyedByParts }
{}

/// Equal keys of embedded objects come from equal parts.
pub fn equal_embedded_keys()
    ensures { EmbeddedByParts }
{}

/// An object with an id, an embedded one and a root object never have one key.
pub fn different_keys()
    ensures keyed_or_root { KeyedIsNoRoot }
    ensures keyed_or_embedded { KeyedIsNotEmbedded }
    ensures embedded_or_root { EmbeddedIsNoRoot }
{}
