//! Texts cut into tokens, and lexemes printed.

use std::alloc::{AllocError, Global};
use std::test::Fail;
use vc_syntax_tokens::fault::{SyntaxFault, SyntaxKind};
use vc_syntax_tokens::limits::tokens_within_limits;
use vc_syntax_tokens::printing::text_of;
use vc_syntax_tokens::token::{Lexeme, Token};
use vc_value::Listed;

// Each with how many tokens it has.
const TEXTS: [(&str, usize); 11] = [
    ("", 0),
    ("size='L' and not specified Flow", 7),
    ("$SELF.C =< 1.5 , ?X.A => .5", 12),
    ("* all of it's a comment \t#", 0),
    ("A = 2\n  * so is this\n", 3),
    ("A = 'it''s\n* this' * 3", 5),
    ("1.A 1. 1.5.2", 8),
    (
        "'123456789012345678901234567890' a23456789012345678901234567890",
        2,
    ),
    ("((((((((((((((((((((((((((((((((", 32),
    (
        "NOT NOT NOT NOT NOT NOT NOT NOT NOT NOT NOT NOT NOT NOT NOT NOT NOT NOT NOT NOT NOT NOT NOT NOT NOT \
            NOT NOT NOT NOT NOT NOT NOT --------------------------------",
        64,
    ),
    ("--------------------------------", 32),
];

// Each with its fault, and where.
const FAULTS: [(&str, SyntaxKind, u32); 16] = [
    ("SIZE = 'L", SyntaxKind::OpenText, 7),
    ("A $FOO", SyntaxKind::UnknownWord, 2),
    ("A $SELFA", SyntaxKind::UnknownWord, 2),
    ("A ?1", SyntaxKind::UnknownWord, 2),
    (
        "A $a234567890123456789012345678901",
        SyntaxKind::UnknownWord,
        2,
    ),
    ("X = 1234567890", SyntaxKind::NumberTooWide, 4),
    ("X = 1.1234567 # 'L", SyntaxKind::NumberTooWide, 4),
    ("A = # B", SyntaxKind::BadByte, 4),
    ("A\tB", SyntaxKind::BadByte, 1),
    ("A = ''", SyntaxKind::TextTooLong, 4),
    (
        "A = '1234567890123456789012345678901'",
        SyntaxKind::TextTooLong,
        4,
    ),
    (
        "A = ?a234567890123456789012345678901",
        SyntaxKind::NameTooLong,
        4,
    ),
    ("(((((((((((((((((((((((((((((((((", SyntaxKind::TooDeep, 0),
    ("---------------------------------", SyntaxKind::TooDeep, 0),
    (
        "((((((((((((((((((((((((((((((((( #",
        SyntaxKind::BadByte,
        34,
    ),
    ("-----------------(----------------", SyntaxKind::TooDeep, 0),
];

// Each with its canonical text.
const PRINTED: [(&str, &str); 4] = [
    (
        "size='it''s' and not specified Flow",
        "SIZE = 'it''s' AND NOT SPECIFIED FLOW",
    ),
    ("$self.c=<01.50", "$SELF.C <= 1.5"),
    (
        "objects:?p is_a(300)cl.\nrestrictions:?p.a<>?v.",
        "OBJECTS : ?P IS_A ( 300 ) CL .\nRESTRICTIONS : ?P.A <> ?V .",
    ),
    (
        "999999999.999999 => 0.000001 * 0",
        "999999999.999999 >= 0.000001 * 0",
    ),
];

fn count_of(tokens: Result<Listed<Token>, SyntaxFault>) -> Result<usize, SyntaxFault> {
    Ok(tokens?.len())
}

#[test]
fn texts_are_cut_into_tokens(rt: HostRuntime) -> Result<(), Fail> {
    for (text, count) in TEXTS.iter() {
        let tokens = tokens_within_limits(rt.alloc(), text.as_bytes());
        assert_eq!(rt; count_of(tokens), Ok(*count), "{text}");
    }
    Ok(())
}

#[test]
fn the_first_fault_is_told(rt: HostRuntime) -> Result<(), Fail> {
    assert_eq!(rt; SyntaxKind::TooLong.number(), 9);
    for (text, kind, at) in FAULTS.iter() {
        let wanted = SyntaxFault::Bad {
            kind: *kind,
            at: *at,
        };
        let tokens = tokens_within_limits(rt.alloc(), text.as_bytes());
        assert_eq!(rt; count_of(tokens), Err(wanted), "{text}");
    }
    Ok(())
}

#[test]
fn tokens_are_4000_at_most(rt: HostRuntime) -> Result<(), Fail> {
    let commas = [b','; 4001];
    let tokens = tokens_within_limits(rt.alloc(), &commas[..4000]);
    assert_eq!(rt; count_of(tokens), Ok(4000));
    let wanted = SyntaxFault::Bad {
        kind: SyntaxKind::TooLong,
        at: 0,
    };
    let tokens = tokens_within_limits(rt.alloc(), commas.as_slice());
    assert_eq!(rt; count_of(tokens), Err(wanted));
    Ok(())
}

fn lexemes_of(alloc: Global, tokens: Listed<Token>) -> Result<Vec<Lexeme>, AllocError> {
    let mut lexemes = Vec::new(alloc);
    for token in tokens.into_vec() {
        lexemes.push(token.lexeme)?;
    }
    Ok(lexemes)
}

#[test]
fn lexemes_are_printed(rt: HostRuntime) -> Result<(), Fail> {
    for (text, wanted) in PRINTED.iter() {
        if let Ok(tokens) = tokens_within_limits(rt.alloc(), text.as_bytes()) {
            let lexemes = lexemes_of(rt.alloc(), tokens)?;
            let printed = text_of(rt.alloc(), lexemes.as_slice())?;
            assert!(rt; printed.is(wanted.as_bytes()), "{text}");
        } else {
            assert!(rt; false, "{text}");
        }
    }
    Ok(())
}
