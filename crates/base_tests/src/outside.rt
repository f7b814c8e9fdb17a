//! The forms in memory, each called through its trait.
use gate_outside::{
    Failed, FailingShelf, FailingSink, FailingSource, MemoryShelf, MemorySink, MemorySource, Shelf,
    ShelfError, Sink, Source, write_all,
};
use std::alloc::Global;
use std::process::Abort;
use std::test::Fail;
use text_types::{Bytes, Memory, Named, Text};

fn bytes_of(alloc: Global, text: &str) -> Result<Bytes, Memory> {
    let mut bytes = Bytes::new(alloc);
    bytes.append(text.as_bytes())?;
    Ok(bytes)
}

/// Reads with room for four bytes give these pieces in order, where `!` stands for a failure.
fn assert_reads<S: Source>(rt: &impl Abort, source: &mut S, pieces: &[&str]) {
    for piece in pieces {
        let mut buf = [0; 4];
        let given = match source.read(&mut buf) {
            Ok(count) => &buf[..count],
            Err(Failed) => b"!".as_slice(),
        };
        assert_eq!(rt; given, piece.as_bytes(), "{piece}");
    }
}

#[test]
fn a_source_gives_its_bytes_in_pieces(rt: HostRuntime) -> Result<(), Fail> {
    let alloc = rt.alloc();
    let mut by_one = MemorySource::new(bytes_of(alloc, "abc")?, 1);
    assert_reads(&rt, &mut by_one, &["a", "b", "c", "", ""]);
    assert_eq!(rt; by_one.given(), 3);
    let mut at_once = MemorySource::new(bytes_of(alloc, "abcdef")?, 9);
    assert_reads(&rt, &mut at_once, &["abcd", "ef", ""]);
    let mut failing = FailingSource::new(bytes_of(alloc, "abc")?, 2, [2, 4].to_vec(alloc)?);
    assert_reads(&rt, &mut failing, &["ab", "!", "c", "!", ""]);
    assert_eq!(rt; failing.given(), 3);
    Ok(())
}

/// Writes of these texts take so many bytes, where `None` stands for a failure.
fn assert_writes<K: Sink>(rt: &impl Abort, sink: &mut K, writes: &[(&str, Option<usize>)]) {
    for (text, taken) in writes {
        assert_eq!(rt; sink.write(text.as_bytes()).ok(), *taken, "{text}");
    }
}

#[test]
fn a_sink_takes_pieces_up_to_its_room(rt: HostRuntime) -> Result<(), Fail> {
    let alloc = rt.alloc();
    let mut by_one = MemorySink::new(alloc, 3, 1)?;
    let rows = [
        ("ab", Some(1)),
        ("", Some(0)),
        ("bc", Some(1)),
        ("c", Some(1)),
        ("d", None),
    ];
    assert_writes(&rt, &mut by_one, &rows);
    assert_eq!(rt; by_one.bytes(), b"abc".as_slice());
    let mut by_three = MemorySink::new(alloc, 5, 3)?;
    let rows = [
        ("abcdef", Some(3)),
        ("def", None),
        ("de", Some(2)),
        ("f", None),
        ("", Some(0)),
    ];
    assert_writes(&rt, &mut by_three, &rows);
    assert_eq!(rt; by_three.bytes(), b"abcde".as_slice());
    let mut failing = FailingSink::new(alloc, 5, 9, [2].to_vec(alloc)?)?;
    let rows = [("abc", Some(3)), ("d", None), ("de", Some(2)), ("f", None)];
    assert_writes(&rt, &mut failing, &rows);
    assert_eq!(rt; failing.bytes(), b"abcde".as_slice());
    Ok(())
}

#[test]
fn all_is_written_or_a_front(rt: HostRuntime) -> Result<(), Fail> {
    let alloc = rt.alloc();
    let mut sink = MemorySink::new(alloc, 5, 2)?;
    assert_eq!(rt; write_all(&mut sink, b"abcde"), Ok(()));
    assert_eq!(rt; sink.bytes(), b"abcde".as_slice());
    let mut failing = FailingSink::new(alloc, 5, 2, [2].to_vec(alloc)?)?;
    assert_eq!(rt; write_all(&mut failing, b"abcde"), Err(Failed));
    assert_eq!(rt; failing.bytes(), b"ab".as_slice());
    assert_eq!(rt; write_all(&mut failing, b"cdef"), Err(Failed));
    assert_eq!(rt; failing.bytes(), b"abcd".as_slice());
    Ok(())
}

/// Asks for these names give these answers.
fn assert_answers<F: Shelf>(
    alloc: Global,
    rt: &impl Abort,
    shelf: &mut F,
    rows: &[(&str, Result<&str, ShelfError>)],
) -> Result<(), Memory> {
    for (name, wanted) in rows {
        let name = Text::from_str(alloc, name)?;
        match shelf.get(alloc, &name) {
            Ok(bytes) => assert_eq!(rt; Ok(bytes.as_slice()), wanted.map(|text| text.as_bytes())),
            Err(error) => assert_eq!(rt; Some(error), wanted.err()),
        }
    }
    Ok(())
}

/// The one file `schema`.
fn schema_alone(alloc: Global) -> Result<Named<Bytes>, Memory> {
    let mut files = Named::new(alloc);
    files.push(
        Text::from_str(alloc, "schema")?,
        bytes_of(alloc, "type Query")?,
    )?;
    Ok(files)
}

#[test]
fn a_shelf_gives_the_named_file(rt: HostRuntime) -> Result<(), Fail> {
    let alloc = rt.alloc();
    let mut shelf = MemoryShelf::new(schema_alone(alloc)?);
    let rows = [
        ("schema", Ok("type Query")),
        ("rules", Err(ShelfError::Missing)),
        ("", Err(ShelfError::Missing)),
        ("schema", Ok("type Query")),
    ];
    assert_answers(alloc, &rt, &mut shelf, &rows)?;
    let mut failing = FailingShelf::new(schema_alone(alloc)?, [2].to_vec(alloc)?);
    let rows = [
        ("rules", Err(ShelfError::Missing)),
        ("schema", Err(ShelfError::Failed)),
        ("schema", Ok("type Query")),
    ];
    assert_answers(alloc, &rt, &mut failing, &rows)?;
    Ok(())
}
