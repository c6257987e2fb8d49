use crate::files::{cut, put, write};
use disk_memory::{Call, FailAt, MemoryDisk};
use disk_trait::{Disk, Failed, PathText};
use std::alloc::Global;
use std::test::Fail;

/// What a disk reads under a path, as text; `-` where no file is there.
fn text_of<D: Disk>(alloc: Global, disk: &mut D, path: &str) -> Result<String, Fail> {
    let Some(size) = disk.size(path)? else {
        return Ok("-".to_string(alloc)?);
    };
    let mut bytes = [0u8; 16];
    let count = disk.read_at(path, 0, &mut bytes)?;
    if count as u64 != size {
        return Err(Fail::new("not all was read"));
    }
    match str::from_utf8(&bytes[..count]) {
        Ok(text) => Ok(text.to_string(alloc)?),
        Err(_) => Err(Fail::new("no text")),
    }
}

/// The disk as a crash leaves it.
fn left_of(disk: &MemoryDisk, moment: u64, choice: u64) -> Result<MemoryDisk, Fail> {
    if !disk.keeps_record() || moment > disk.moment() {
        return Err(Fail::new("no such moment"));
    }
    Ok(disk.stop(moment, choice)?)
}

#[test]
fn files_are_written_cut_and_moved(rt: HostRuntime) -> Result<(), Fail> {
    let alloc = rt.alloc();
    let mut disk = MemoryDisk::new(alloc, Vec::new(alloc), true);
    put(&mut disk, "b", b"one two")?;
    write(&mut disk, "b", 7, b" three")?;
    write(&mut disk, "b", 0, b"ONE")?;
    cut(&mut disk, "b", 9)?;
    cut(&mut disk, "b", 90)?;
    put(&mut disk, "a/c", b"x")?;
    let text = text_of(alloc, &mut disk, "b")?;
    assert_eq!(rt; text.as_str(), "ONE two t");
    for (from, to, want) in [("b", "b", true), ("b", "a/c", true), ("b", "d", false)] {
        assert_eq!(rt; disk.rename(from, to), Ok(want));
    }
    let text = text_of(alloc, &mut disk, "a/c")?;
    assert_eq!(rt; text.as_str(), "ONE two t");
    assert_eq!(rt; (disk.faults(), disk.lacked()), (0, 0));
    Ok(())
}

#[test]
fn paths_are_listed_in_order(rt: HostRuntime) -> Result<(), Fail> {
    let alloc = rt.alloc();
    let mut disk = MemoryDisk::new(alloc, Vec::new(alloc), false);
    for (path, want) in [("b", true), ("a/c", true), ("b", false), ("a", true)] {
        assert_eq!(rt; disk.create(path), Ok(want));
    }
    for (path, want) in [("b", true), ("b", false)] {
        assert_eq!(rt; disk.remove(path), Ok(want));
    }
    let paths = disk.list()?;
    let mut all = String::new(alloc);
    for path in &paths {
        all.push_str(path.as_str())?;
        all.push(' ')?;
    }
    assert_eq!(rt; all.as_str(), "a a/c ");
    Ok(())
}

#[test]
fn listed_calls_fail_once_and_change_nothing(rt: HostRuntime) -> Result<(), Fail> {
    let alloc = rt.alloc();
    let fail = vec![in alloc;
        FailAt::Call(3),
        FailAt::On {
            call: Call::Rename,
            path: PathText::of(alloc, "b")?,
            nth: 2,
        },
    ]?;
    let mut disk = MemoryDisk::new(alloc, fail, true);
    assert_eq!(rt; put(&mut disk, "a", b"x"), Err(Failed));
    put(&mut disk, "a", b"y")?;
    for (from, to, want) in [
        ("a", "b", Ok(true)),
        ("c", "d", Ok(false)),
        ("b", "c", Err(Failed)),
        ("b", "c", Ok(true)),
    ] {
        assert_eq!(rt; disk.rename(from, to), want);
    }
    let text = text_of(alloc, &mut disk, "c")?;
    assert_eq!(rt; text.as_str(), "y");
    assert_eq!(rt; (disk.faults(), disk.lacked()), (2, 0));
    Ok(())
}

#[test]
fn a_stop_leaves_what_was_synced_or_all_that_was_done(rt: HostRuntime) -> Result<(), Fail> {
    let alloc = rt.alloc();
    let mut disk = MemoryDisk::new(alloc, Vec::new(alloc), true);
    put(&mut disk, "a", b"old")?;
    write(&mut disk, "a", 1, b"EW!")?;
    assert_eq!(rt; disk.rename("a", "b"), Ok(true));
    for (moment, choice, a, b) in [
        (0, 0, "-", "-"),
        (0, 1, "", "-"),
        (2, 1, "old", "-"),
        (3, 0, "", "-"),
        (5, 0, "old", "-"),
        (6, 1, "oEW!", "-"),
        (7, 0, "old", "-"),
        (7, 1, "-", "oEW!"),
        (8, 0, "-", "old"),
        (8, 1, "-", "oEW!"),
    ] {
        let mut left = left_of(&disk, moment, choice)?;
        let text = text_of(alloc, &mut left, "a")?;
        assert_eq!(rt; text.as_str(), a, "a at {moment}, {choice}");
        let text = text_of(alloc, &mut left, "b")?;
        assert_eq!(rt; text.as_str(), b, "b at {moment}, {choice}");
    }
    Ok(())
}

/// The bytes that a crash leaves of a file whose last three of four bytes were written since its sync.
fn torn(alloc: Global, choice: u64) -> Result<[u8; 9], Fail> {
    let mut disk = MemoryDisk::new(alloc, Vec::new(alloc), true);
    put(&mut disk, "a", b"old")?;
    write(&mut disk, "a", 1, b"EW!")?;
    let mut left = left_of(&disk, 7, choice)?;
    let mut bytes = [0u8; 9];
    let mut again = [0u8; 9];
    let count = left.read_at("a", 0, &mut bytes)?;
    let mut later = left_of(&left, 1, 0)?;
    if count != 4 || later.read_at("a", 0, &mut again)? != 4 || bytes != again {
        return Err(Fail::new("not four bytes that stay"));
    }
    Ok(bytes)
}

#[test]
fn each_other_choice_leaves_bytes_of_its_own_in_what_was_written(
    rt: HostRuntime,
) -> Result<(), Fail> {
    let two = torn(rt.alloc(), 2)?;
    let seven = torn(rt.alloc(), 7)?;
    for bytes in [two, seven] {
        assert_eq!(rt; bytes[0], b'o');
        assert!(rt; &bytes[1..4] != b"EW!".as_slice());
    }
    assert!(rt; two != seven);
    Ok(())
}
