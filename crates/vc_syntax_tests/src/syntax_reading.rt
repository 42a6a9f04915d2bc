//! Texts and what they are read as.

use std::alloc::{AllocError, Global};
use std::test::Fail;
use vc_syntax::{read_dependency, read_term};
use vc_syntax_tokens::fault::{Kind, SyntaxFault, SyntaxKind};

const SPELLED: [(Kind, &str); 9] = [
    (Kind::Precondition, "size='L' and not specified Flow"),
    (
        Kind::Selection,
        "(A = 1 OR (B + 1) * 2 >= 3) AND ((C) = 2 OR D SPECIFIED).",
    ),
    (Kind::Selection, "(((A = 1)))"),
    (
        Kind::Precondition,
        "OPT IN (-3 - 6, 9, 'X') AND (NOT (1.95 <> MOTOR))",
    ),
    (
        Kind::Procedure,
        "$SELF.A = - - 5 IF B EQ 1, $SET_DEFAULT ($SELF, A, $SUM_PARTS($SELF, B)), TABLE IF (A = 1, B = ?X.C).",
    ),
    (Kind::Term, "(A) + SIGN (B * (2 - $ROOT.C))"),
    (
        Kind::Constraint,
        "OBJECTS: ?P IS_A (300) CL0 WHERE ?V = A; ?W = B, ?Q IS_OBJECT (MATERIAL)(300)(NR = 'M').\n\
            CONDITION: ?V = 1.\nRESTRICTION: FALSE IF PART_OF (?P, ?Q), ?P.A NE 2.\nINFERENCES: ?P.A, ?V.",
    ),
    (
        Kind::Constraint,
        "OBJECTS: ?P IS_A (300) CL0. RESTRICTIONS: ?P.A = 1.",
    ),
    (Kind::Term, "3"),
];

// Each text as often as the number tells, with its fault and where.
const FAULTS: [(Kind, &str, usize, SyntaxKind, u32); 12] = [
    (Kind::Selection, "A = # B", 1, SyntaxKind::BadByte, 4),
    (Kind::Selection, "SIZE = 'L", 1, SyntaxKind::OpenText, 7),
    (Kind::Selection, "A $FOO", 1, SyntaxKind::UnknownWord, 2),
    (
        Kind::Selection,
        "X = 1234567890",
        1,
        SyntaxKind::NumberTooWide,
        4,
    ),
    (Kind::Procedure, "A = ''", 1, SyntaxKind::TextTooLong, 4),
    (
        Kind::Constraint,
        "A = ?a234567890123456789012345678901",
        1,
        SyntaxKind::NameTooLong,
        4,
    ),
    (Kind::Term, "+", 4_001, SyntaxKind::TooLong, 0),
    (Kind::Selection, "(", 33, SyntaxKind::TooDeep, 0),
    (
        Kind::Selection,
        "SIZE = 'L' AND",
        1,
        SyntaxKind::NotADependency,
        0,
    ),
    (Kind::Selection, "", 1, SyntaxKind::NotADependency, 0),
    (
        Kind::Selection,
        "(A) IN (1)",
        1,
        SyntaxKind::NotADependency,
        0,
    ),
    (Kind::Term, "+", 4_000, SyntaxKind::NotADependency, 0),
];

#[test]
fn texts_are_read(rt: HostRuntime) -> Result<(), Fail> {
    for (kind, text) in SPELLED.iter() {
        assert!(rt; read_dependency(rt.alloc(), text.as_bytes(), *kind).is_ok());
    }
    assert!(rt; read_term(rt.alloc(), b"A + 1").is_ok());
    assert!(rt; read_term(rt.alloc(), b"A = 1").is_err());
    Ok(())
}

fn repeated(alloc: Global, text: &str, times: usize) -> Result<Vec<u8>, AllocError> {
    let mut all = Vec::new(alloc);
    for _ in 0..times {
        all.extend_from_slice(text.as_bytes())?;
    }
    Ok(all)
}

fn fault_of(alloc: Global, text: &[u8], kind: Kind) -> Option<(SyntaxKind, u32)> {
    if text.len() >= 5_000 {
        return None;
    }
    match read_dependency(alloc, text, kind) {
        Err(SyntaxFault::Bad { kind, at }) => Some((kind, at)),
        _ => None,
    }
}

#[test]
fn faults_are_told(rt: HostRuntime) -> Result<(), Fail> {
    for (kind, text, times, fault, at) in FAULTS.iter() {
        let text = repeated(rt.alloc(), text, *times)?;
        let told = fault_of(rt.alloc(), text.as_slice(), *kind);
        assert!(rt; told == Some((*fault, *at)));
    }
    Ok(())
}
