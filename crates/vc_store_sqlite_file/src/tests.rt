//! What is kept in a file is found there again.

use crate::SavedTexts;
use sqlite::{File, FileStore};
use std::test::Fail;
use std::time::{SystemTime, UNIX_EPOCH};
use std::{env, fs};
use vc_outside::KeepFault;

type FileTexts = SavedTexts<FileStore<File>>;

#[test]
fn keeps_texts_in_a_file(rt: HostRuntime) -> Result<(), Fail> {
    let since_epoch = SystemTime::now(&rt)?.duration_since(UNIX_EPOCH)?;
    let folder = env::temp_dir(&rt)?;
    let path = format!(in rt.alloc(); "{}/saved-{}", folder.as_str(), since_epoch.as_nanos())?;
    let mut texts = FileTexts::open(&rt, path.as_str()).expect(&rt, "a database");
    assert_eq!(rt; texts.put(b"x".as_slice(), b"one".as_slice()), Ok(()));
    assert_eq!(rt; texts.put(b"x".as_slice(), b"two".as_slice()), Ok(()));
    drop(texts);
    let mut again = FileTexts::open(&rt, path.as_str()).expect(&rt, "the database");
    let kept = again.get(b"x".as_slice());
    assert!(rt; kept.is_ok_and(|text| text.is_some_and(|word| word.is(b"two".as_slice()))));
    assert_eq!(rt; again.remove(b"x".as_slice()), Ok(true));
    assert_eq!(rt; again.remove(b"x".as_slice()), Ok(false));
    drop(again);
    let log = format!(in rt.alloc(); "{}-wal", path.as_str())?;
    fs::remove_file(&rt, log.as_str())?;
    fs::remove_file(&rt, path.as_str())?;
    Ok(())
}

#[test]
fn refuses_what_is_no_database(rt: HostRuntime) -> Result<(), Fail> {
    let opened = FileTexts::open(&rt, "/");
    assert!(rt; opened.is_err_and(|fault| fault == KeepFault::Failed));
    Ok(())
}
