//! What stands in a tree's leaves and apart from it.

use std::test::Fail;
use vc_syntax_tree::{Apart, ShortWord};

// Names of three bytes, of fifteen, of one more and of thirty, which is the most; a text may be longer.
const WORDS: [&str; 5] = [
    "OPT",
    "FIFTEEN_LETTERS",
    "SIXTEEN_LETTERS_",
    "A_NAME_OF_EXACTLY_THIRTY_BYTES",
    "a text that is longer than a name, and longer than what stands in a leaf itself",
];

#[test]
fn words_of_any_length_are_kept(rt: HostRuntime) -> Result<(), Fail> {
    for text in WORDS.iter() {
        let word = ShortWord::from_bytes(rt.alloc(), text.as_bytes()).expect(&rt, "memory");
        assert_eq!(rt; word.bytes(), text.as_bytes());
        assert!(rt; word.is(text.as_bytes()));
        assert!(rt; !word.is(b"OTHER"));
    }
    Ok(())
}

#[test]
fn a_value_stands_apart(rt: HostRuntime) -> Result<(), Fail> {
    let apart = Apart::new(rt.alloc(), 7u32).expect(&rt, "memory");
    assert_eq!(rt; *apart.get(), 7);
    Ok(())
}
