//! What is kept is found again, in memory and in a file.

use crate::FileKeeper;
use std::test::Fail;
use std::time::{SystemTime, UNIX_EPOCH};
use std::{env, fs};
use vc_outside::{KeepFault, Keeper};

#[test]
fn keeps_texts_for_a_run(rt: HostRuntime) -> Result<(), Fail> {
    let mut keeper = FileKeeper::new(rt.clone()?);
    assert_eq!(rt; keeper.begin(None), Ok(()));
    assert_eq!(rt; keeper.put(b"x".as_slice(), b"one".as_slice()), Ok(()));
    assert_eq!(rt; keeper.put(b"x".as_slice(), b"two".as_slice()), Ok(()));
    let kept = keeper.get(b"x".as_slice());
    assert!(rt; kept.is_ok_and(|text| text.is_some_and(|word| word.is(b"two".as_slice()))));
    assert_eq!(rt; keeper.remove(b"x".as_slice()), Ok(true));
    assert_eq!(rt; keeper.remove(b"x".as_slice()), Ok(false));
    Ok(())
}

#[test]
fn finds_texts_in_a_file_again(rt: HostRuntime) -> Result<(), Fail> {
    let since_epoch = SystemTime::now(&rt)?.duration_since(UNIX_EPOCH)?;
    let folder = env::temp_dir(&rt)?;
    let path = format!(in rt.alloc(); "{}/kept-{}", folder.as_str(), since_epoch.as_nanos())?;
    let mut keeper = FileKeeper::new(rt.clone()?);
    assert_eq!(rt; keeper.begin(Some(path.as_str())), Ok(()));
    assert_eq!(rt; keeper.put(b"x".as_slice(), b"kept".as_slice()), Ok(()));
    drop(keeper);
    let mut again = FileKeeper::new(rt.clone()?);
    assert_eq!(rt; again.begin(Some(path.as_str())), Ok(()));
    let kept = again.get(b"x".as_slice());
    drop(again);
    let log = format!(in rt.alloc(); "{}-wal", path.as_str())?;
    fs::remove_file(&rt, log.as_str())?;
    fs::remove_file(&rt, path.as_str())?;
    assert!(rt; kept.is_ok_and(|text| text.is_some_and(|word| word.is(b"kept".as_slice()))));
    Ok(())
}

#[test]
fn refuses_what_is_no_database(rt: HostRuntime) -> Result<(), Fail> {
    let mut keeper = FileKeeper::new(rt.clone()?);
    assert_eq!(rt; keeper.begin(Some("/")), Err(KeepFault::Failed));
    Ok(())
}
