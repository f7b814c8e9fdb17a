//! Each call of the base types that takes memory, once where there is memory.

use std::test::Fail;
use text_types::{Bytes, Items, Named, Text};

#[test]
fn texts_grow(rt: HostRuntime) -> Result<(), Fail> {
    let mut text = Text::from_str(rt.alloc(), "one")?;
    text.push_str(" two")?;
    let copy = text.copy()?;
    text.push(&copy)?;
    assert_eq!(rt; copy.as_str(), "one two");
    assert_eq!(rt; text.as_str(), "one twoone two");
    Ok(())
}

#[test]
fn bytes_grow(rt: HostRuntime) -> Result<(), Fail> {
    let mut bytes = Bytes::new(rt.alloc());
    bytes.push(b'a')?;
    bytes.append(b"bc")?;
    assert_eq!(rt; bytes.copy()?.as_slice(), b"abc".as_slice());
    Ok(())
}

#[test]
fn lists_and_named_pairs_grow(rt: HostRuntime) -> Result<(), Fail> {
    let mut items = Items::new(rt.alloc());
    items.push(7u64)?;
    assert_eq!(rt; items.as_slice(), [7].as_slice());
    let mut pairs = Named::new(rt.alloc());
    pairs.push(Text::from_str(rt.alloc(), "seven")?, 7u64)?;
    assert_eq!(rt; pairs.len(), 1);
    Ok(())
}
