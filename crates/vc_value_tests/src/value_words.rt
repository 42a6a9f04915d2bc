//! Words, lists and names, each call once with ample memory.

use std::test::Fail;
use vc_value::{Listed, Word, equals_ignoring_case, is_name, is_session_name};

#[test]
fn words_are_made_and_compared(rt: HostRuntime) -> Result<(), Fail> {
    let mut word = Word::new(rt.alloc());
    word.append(b"Flo".as_slice())?;
    word.append_text("w")?;
    assert!(rt; word.is(b"Flow".as_slice()));
    assert!(rt; !word.is(b"flow".as_slice()));
    let upper = Word::upper_from(rt.alloc(), word.bytes())?;
    assert!(rt; upper.is(b"FLOW".as_slice()));
    assert!(rt; equals_ignoring_case(upper.bytes(), word.bytes()));
    let copy = Word::from_bytes(rt.alloc(), word.bytes())?;
    let taken = Word::from_vec(Vec::from_slice(rt.alloc(), word.bytes())?);
    assert!(rt; copy.is(taken.bytes()));
    Ok(())
}

#[test]
fn lists_keep_their_order(rt: HostRuntime) -> Result<(), Fail> {
    let mut list: Listed<u32> = Listed::new(rt.alloc());
    assert!(rt; list.is_empty());
    list.push(1)?;
    list.push(2)?;
    assert_eq!(rt; list.len(), 2);
    list.set(0, 3);
    assert_eq!(rt; list.as_slice(), [3, 2].as_slice());
    assert_eq!(rt; list.pop(), Some(2));
    let again = Listed::from_vec(list.into_vec());
    assert_eq!(rt; again.as_slice(), [3].as_slice());
    Ok(())
}

#[test]
fn names_are_told_from_other_words(rt: HostRuntime) -> Result<(), Fail> {
    assert!(rt; is_name(b"_size9".as_slice()));
    assert!(rt; !is_name(b"9size".as_slice()));
    assert!(rt; !is_name(b"".as_slice()));
    assert!(rt; is_session_name(b"9-a_B".as_slice()));
    assert!(rt; !is_session_name(b"a.b".as_slice()));
    Ok(())
}
