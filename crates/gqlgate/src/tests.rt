//! Each adapter once, over something real.

use crate::input::Input;
use crate::named_files::NamedFiles;
use crate::output::Output;
use gate_outside::{Failed, Shelf, ShelfError, Sink, Source, write_all};
use std::alloc::Global;
use std::fs;
use std::io::{Read, Write};
use std::test::Fail;
use text_types::Text;

fn first_piece<I: Source>(source: &mut I, buf: &mut [u8]) -> Result<usize, Failed> {
    source.read(buf)
}

fn written<O: Sink>(sink: &mut O, bytes: &[u8]) -> Result<(), Failed> {
    write_all(sink, bytes)
}

fn file<F: Shelf>(alloc: Global, files: &mut F, name: &str) -> Result<usize, ShelfError> {
    let name = Text::from_str(alloc, name)?;
    Ok(files.get(alloc, &name)?.len())
}

#[test]
fn a_reader_gives_its_bytes_and_then_its_end(rt: HostRuntime) -> Result<(), Fail> {
    let mut input = Input::new(b"abc".as_slice());
    let mut buf = [0u8; 2];
    assert_eq!(rt; first_piece(&mut input, &mut buf), Ok(2));
    assert_eq!(rt; buf, *b"ab");
    assert_eq!(rt; first_piece(&mut input, &mut buf), Ok(1));
    assert_eq!(rt; first_piece(&mut input, &mut buf), Ok(0));
    Ok(())
}

#[test]
fn a_writer_takes_all_bytes(rt: HostRuntime) -> Result<(), Fail> {
    let mut held = Vec::new(rt.alloc());
    let mut output = Output::new(&mut held);
    assert_eq!(rt; written(&mut output, b"abc"), Ok(()));
    drop(output);
    assert_eq!(rt; held.as_slice(), b"abc".as_slice());
    Ok(())
}

#[test]
fn a_full_writer_fails(rt: HostRuntime) -> Result<(), Fail> {
    let mut room = [0u8; 2];
    let mut output = Output::new(room.as_mut_slice());
    assert_eq!(rt; written(&mut output, b"abc"), Err(Failed));
    Ok(())
}

#[test]
fn a_named_file_is_read_and_a_missing_one_is_told(rt: HostRuntime) -> Result<(), Fail> {
    fs::write(&rt, "schema", b"type Query { a: Int }")?;
    let mut files = NamedFiles::new(&rt);
    assert_eq!(rt; file(rt.alloc(), &mut files, "schema"), Ok(21));
    assert_eq!(rt;
        file(rt.alloc(), &mut files, "none"),
        Err(ShelfError::Missing)
    );
    Ok(())
}
