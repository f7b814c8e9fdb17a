//! The small types that every crate above speaks in: texts, bytes, lists, and pairs with distinct
//! names. It stands on nothing but the standard library.
//!
//! Contracts see a [`Text`] and [`Bytes`] as the list of their bytes, an [`Items`] as the list of
//! its items, and a [`Named`] as the list of its pairs, no two of which have one name. What can run
//! out of memory answers [`Memory`], and then nothing changed.
#![tactic(auto)]

mod bytes;
mod items;
mod memory;
mod named;
mod text;

pub use bytes::Bytes;
pub use items::Items;
pub use memory::Memory;
pub use named::Named;
pub use text::Text;
