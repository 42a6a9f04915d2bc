//! Reads and writes, in memory and at the edge, with calls that fail.

use crate::{
    FILE_LIMIT, Failed, FileFault, FileShelf, Found, KeepFault, Keeper, MemKeeper, MemShelf,
    MemSink, Shelf, Sink, StdSink, read_whole, write_all,
};
use std::io::{ErrorKind, Write};
use std::os::unix::fs::{PermissionsExt, symlink};
use std::test::Fail;
use std::time::{SystemTime, UNIX_EPOCH};
use std::{env, fs, io};

#[test]
fn reads_files_in_memory(rt: HostRuntime) -> Result<(), Fail> {
    let mut shelf = MemShelf::new(rt.alloc());
    shelf.add(rt.alloc(), "plan", b"MODEL PUMPS".as_slice())?;
    shelf.add(rt.alloc(), "empty", &[])?;
    let plan = read_whole(rt.alloc(), &mut shelf, "plan");
    assert!(rt; plan.is_ok_and(|text| text.as_slice() == b"MODEL PUMPS".as_slice()));
    let empty = read_whole(rt.alloc(), &mut shelf, "empty");
    assert!(rt; empty.is_ok_and(|text| text.is_empty()));
    assert_eq!(rt; shelf.begin("plans"), Ok(Found::Missing));
    Ok(())
}

#[test]
fn fails_at_the_calls_named(rt: HostRuntime) -> Result<(), Fail> {
    let mut shelf = MemShelf::new(rt.alloc());
    shelf.add(rt.alloc(), "plan", b"MODEL PUMPS".as_slice())?;
    shelf.fail_at(1)?;
    shelf.fail_at(3)?;
    for _ in 0..2 {
        let plan = read_whole(rt.alloc(), &mut shelf, "plan");
        assert!(rt; plan.is_err_and(|fault| fault == FileFault::Failed));
    }
    let plan = read_whole(rt.alloc(), &mut shelf, "plan");
    assert!(rt; plan.is_ok_and(|text| text.len() == 11));
    Ok(())
}

#[test]
fn reads_up_to_the_limit(rt: HostRuntime) -> Result<(), Fail> {
    for (length, fits) in [(FILE_LIMIT, true), (FILE_LIMIT + 1, false)] {
        let mut shelf = MemShelf::new(rt.alloc());
        let bytes = vec![in rt.alloc(); 7u8; length]?;
        shelf.add(rt.alloc(), "table", bytes.as_slice())?;
        let table = read_whole(rt.alloc(), &mut shelf, "table");
        assert_eq!(rt; table.is_ok_and(|text| text.len() == length), fits);
    }
    Ok(())
}

#[test]
fn writes_to_memory(rt: HostRuntime) -> Result<(), Fail> {
    let mut sink = MemSink::with_room(rt.alloc(), 5)?;
    sink.fail_at(2)?;
    assert_eq!(rt; write_all(&mut sink, b"abc".as_slice()), Ok(()));
    assert_eq!(rt; write_all(&mut sink, b"x".as_slice()), Err(Failed));
    assert_eq!(rt; write_all(&mut sink, b"defg".as_slice()), Err(Failed));
    assert!(rt; sink.written() == b"abcde".as_slice());
    Ok(())
}

#[test]
fn reads_a_real_file(rt: HostRuntime) -> Result<(), Fail> {
    let since_epoch = SystemTime::now(&rt)?.duration_since(UNIX_EPOCH)?;
    let folder = env::temp_dir(&rt)?;
    let path = format!(in rt.alloc(); "{}/plan-{}", folder.as_str(), since_epoch.as_nanos())?;
    fs::write(&rt, path.as_str(), "MODEL PUMPS")?;
    let mut shelf = FileShelf::new(&rt);
    let text = read_whole(rt.alloc(), &mut shelf, path.as_str());
    fs::remove_file(&rt, path.as_str())?;
    assert!(rt; text.is_ok_and(|text| text.as_slice() == b"MODEL PUMPS".as_slice()));
    let missing = read_whole(rt.alloc(), &mut shelf, path.as_str());
    assert!(rt; missing.is_err_and(|fault| fault == FileFault::Missing));
    let folder = read_whole(rt.alloc(), &mut shelf, "/");
    assert!(rt; folder.is_err_and(|fault| fault == FileFault::Failed));
    Ok(())
}

// A link to itself names no file, but the system doesn't say that there is none.
#[test]
fn tells_a_link_to_itself_as_a_fault(rt: HostRuntime) -> Result<(), Fail> {
    let since_epoch = SystemTime::now(&rt)?.duration_since(UNIX_EPOCH)?;
    let folder = env::temp_dir(&rt)?;
    let link = format!(in rt.alloc(); "{}/link-{}", folder.as_str(), since_epoch.as_nanos())?;
    symlink(&rt, link.as_str(), link.as_str())?;
    let mut shelf = FileShelf::new(&rt);
    let told = shelf.begin(link.as_str());
    fs::remove_file(&rt, link.as_str())?;
    assert_eq!(rt; told, Err(Failed));
    Ok(())
}

// Whether the folder keeps its file from being read hangs on who runs the test; it hides none.
#[test]
fn finds_a_file_in_a_folder_that_may_not_be_read(rt: HostRuntime) -> Result<(), Fail> {
    let since_epoch = SystemTime::now(&rt)?.duration_since(UNIX_EPOCH)?;
    let place = env::temp_dir(&rt)?;
    let folder = format!(in rt.alloc(); "{}/folder-{}", place.as_str(), since_epoch.as_nanos())?;
    let path = format!(in rt.alloc(); "{}/plan", folder.as_str())?;
    fs::create_dir(&rt, folder.as_str())?;
    fs::write(&rt, path.as_str(), "MODEL PUMPS")?;
    fs::set_permissions(&rt, folder.as_str(), fs::Permissions::from_mode(0))?;
    let mut shelf = FileShelf::new(&rt);
    let told = shelf.begin(path.as_str());
    fs::set_permissions(&rt, folder.as_str(), fs::Permissions::from_mode(0o700))?;
    fs::remove_file(&rt, path.as_str())?;
    fs::remove_dir(&rt, folder.as_str())?;
    assert!(rt; told != Ok(Found::Missing));
    Ok(())
}

#[test]
fn writes_through_a_writer(rt: HostRuntime) -> Result<(), Fail> {
    let mut room = [0u8; 4];
    let mut sink = StdSink::new(room.as_mut_slice());
    assert_eq!(rt; write_all(&mut sink, b"abc".as_slice()), Ok(()));
    assert_eq!(rt; sink.write(b"def".as_slice()), Ok(1));
    assert_eq!(rt; write_all(&mut sink, b"ef".as_slice()), Err(Failed));
    Ok(())
}

// Takes all bytes and hands none on.
#[derive(Drop)]
struct Blocked {
    taken: usize,
}

impl Write for Blocked {
    fn write(&mut self, buf: &[u8]) -> io::Result<usize> {
        self.taken = self.taken.saturating_add(buf.len());
        Ok(buf.len())
    }

    fn flush(&mut self) -> io::Result<()> {
        Err(ErrorKind::StorageFull.into())
    }
}

#[test]
fn tells_a_flush_that_failed(rt: HostRuntime) -> Result<(), Fail> {
    let mut blocked = Blocked { taken: 0 };
    let mut sink = StdSink::new(&mut blocked);
    assert_eq!(rt; sink.write(b"abc".as_slice()), Ok(3));
    assert_eq!(rt; sink.flush(), Err(Failed));
    assert_eq!(rt; write_all(&mut sink, b"de".as_slice()), Err(Failed));
    drop(sink);
    assert_eq!(rt; blocked.taken, 5);
    Ok(())
}

#[test]
fn keeps_texts_in_memory(rt: HostRuntime) -> Result<(), Fail> {
    let mut keeper = MemKeeper::new(rt.alloc());
    keeper.fail_at(4)?;
    assert_eq!(rt; keeper.begin(Some("kept.db")), Ok(()));
    assert_eq!(rt; keeper.put(b"x".as_slice(), b"one".as_slice()), Ok(()));
    assert_eq!(rt; keeper.put(b"x".as_slice(), b"two".as_slice()), Ok(()));
    assert_eq!(rt;
        keeper.put(b"x".as_slice(), b"lost".as_slice()),
        Err(KeepFault::Failed)
    );
    let kept = keeper.get(b"x".as_slice());
    assert!(rt; kept.is_ok_and(|text| text.is_some_and(|word| word.is(b"two".as_slice()))));
    let other = keeper.get(b"X".as_slice());
    assert!(rt; other.is_ok_and(|text| text.is_none()));
    assert_eq!(rt; keeper.remove(b"x".as_slice()), Ok(true));
    assert_eq!(rt; keeper.remove(b"x".as_slice()), Ok(false));
    Ok(())
}
