//! The disk in memory: what it reads, the files that a crash leaves, its room and its listed failures.
use gate_outside::{Disk, Failed, FailingDisk, MemoryDisk, Tear};
use std::alloc::Global;
use std::process::Abort;
use std::test::Fail;
use text_types::{Bytes, Memory, Text};

fn disk_with(alloc: Global, file: &str, room: usize) -> Result<MemoryDisk, Memory> {
    let mut bytes = Bytes::new(alloc);
    bytes.append(file.as_bytes())?;
    MemoryDisk::new(alloc, bytes, room)
}

/// A call of a disk that changes it.
#[derive(Drop)]
enum Step<'a> {
    Write(u64, &'a str),
    Cut(u64),
    Sync,
}

/// Makes the call, where the file reaches its offset.
fn make_step<D: Disk>(rt: &impl Abort, disk: &mut D, step: &Step<'_>) -> Result<(), Failed> {
    let length = disk.len()?;
    match step {
        Step::Write(at, text) => {
            assert!(rt; *at <= length);
            assert!(rt; *at < 4096 && text.len() < 4096);
            disk.write_at(*at, text.as_bytes())
        }
        Step::Cut(len) => {
            assert!(rt; *len <= length);
            disk.cut(*len)
        }
        Step::Sync => disk.sync(),
    }
}

/// What a crash is told to do, beside the files that it leaves.
const TEARS: [Tear; 4] = [
    Tear::Nothing,
    Tear::Whole,
    Tear::Filled(b'.'),
    Tear::FilledWithin(b'.'),
];

#[test]
fn a_crash_leaves_parts_of_what_is_not_synced(rt: HostRuntime) -> Result<(), Fail> {
    let alloc = rt.alloc();
    let mut disk = disk_with(alloc, "abcdef", 64)?;
    let rows = [
        (
            Step::Write(4, "WXYZ"),
            ["abcdef", "abcdWXYZ", "abcd....", "abcd.."],
        ),
        (Step::Sync, ["abcdWXYZ", "abcdWXYZ", "abcdWXYZ", "abcdWXYZ"]),
        (Step::Cut(3), ["abcdWXYZ", "abc", "abc", "abcdWXYZ"]),
        (Step::Sync, ["abc", "abc", "abc", "abc"]),
        (Step::Write(3, "12"), ["abc", "abc12", "abc..", "abc"]),
        (Step::Write(5, "3"), ["abc", "abc123", "abc...", "abc"]),
        (Step::Write(0, "A"), ["abc", "Abc123", ".bc...", ".bc"]),
    ];
    for (step, _) in &rows {
        make_step(&rt, &mut disk, step)?;
    }
    assert_eq!(rt; disk.changes(), rows.len());
    assert_eq!(rt; disk.bytes(), b"Abc123".as_slice());
    for (row, (_, files)) in rows.iter().enumerate() {
        for (tear, file) in TEARS.iter().zip(files) {
            assert!(rt; row < disk.changes());
            let image = disk.image(alloc, row + 1, *tear)?;
            assert_eq!(rt; image.as_slice(), file.as_bytes(), "{row} {tear:?}");
        }
    }
    assert_eq!(rt;
        disk.image(alloc, 0, Tear::Whole)?.as_slice(),
        b"abcdef".as_slice()
    );
    Ok(())
}

#[test]
fn a_disk_gives_what_is_there(rt: HostRuntime) -> Result<(), Fail> {
    let alloc = rt.alloc();
    let mut disk = disk_with(alloc, "abcdef", 64)?;
    disk.attach(&Text::from_str(alloc, "queue")?)?;
    assert_eq!(rt; disk.len(), Ok(6));
    for (at, given) in [(0, "abcd"), (3, "def"), (6, ""), (9, "")] {
        let mut piece = [0; 4];
        assert_eq!(rt; disk.read_at(at, &mut piece), Ok(given.len()));
        assert_eq!(rt; &piece[..given.len().min(4)], given.as_bytes());
    }
    Ok(())
}

#[test]
fn a_disk_fails_past_its_room(rt: HostRuntime) -> Result<(), Fail> {
    let alloc = rt.alloc();
    let mut disk = disk_with(alloc, "abcd", 8)?;
    let rows = [
        (Step::Write(4, "efgh"), Ok(())),
        (Step::Write(8, "i"), Err(Failed)),
        (Step::Write(0, "ABCD"), Ok(())),
        (Step::Write(0, "a"), Err(Failed)),
        (Step::Write(0, ""), Ok(())),
        (Step::Cut(6), Ok(())),
        (Step::Sync, Ok(())),
        (Step::Sync, Ok(())),
        (Step::Cut(6), Ok(())),
        (Step::Sync, Ok(())),
        (Step::Sync, Err(Failed)),
        (Step::Cut(5), Err(Failed)),
    ];
    for (row, (step, answer)) in rows.iter().enumerate() {
        assert_eq!(rt; make_step(&rt, &mut disk, step), *answer, "{row}");
    }
    assert_eq!(rt; disk.bytes(), b"ABCDef".as_slice());
    Ok(())
}

#[test]
fn listed_calls_of_a_disk_fail(rt: HostRuntime) -> Result<(), Fail> {
    let alloc = rt.alloc();
    let mut bytes = Bytes::new(alloc);
    bytes.append(b"abc")?;
    let mut disk = FailingDisk::new(alloc, bytes, 64, [1, 4, 5, 9].to_vec(alloc)?)?;
    assert_eq!(rt; disk.attach(&Text::new(alloc)), Err(Failed));
    let rows = [
        (Step::Write(3, "d"), Ok(())),
        (Step::Sync, Err(Failed)),
        (Step::Sync, Err(Failed)),
        (Step::Write(4, "e"), Ok(())),
        (Step::Sync, Err(Failed)),
        (Step::Cut(1), Ok(())),
    ];
    for (row, (step, answer)) in rows.iter().enumerate() {
        assert_eq!(rt; make_step(&rt, &mut disk, step), *answer, "{row}");
    }
    let mut piece = [0; 4];
    assert_eq!(rt; disk.read_at(0, &mut piece), Ok(1));
    let disk = disk.into_disk();
    assert_eq!(rt; disk.changes(), 3);
    assert_eq!(rt; disk.bytes(), b"a".as_slice());
    Ok(())
}
