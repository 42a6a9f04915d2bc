//! Terms and conditions read at the front of tokens.

use std::alloc::Global;
use std::test::Fail;
use vc_syntax_terms::conditions::condition;
use vc_syntax_terms::terms::sum;
use vc_syntax_tokens::lexing::first_tokens;

// Each text with how many tokens stand behind the term in front, if there is one.
const TERMS: [(&str, Option<usize>); 6] = [
    ("a + 2 * -$self.b", Some(0)),
    ("(a - 1), b", Some(2)),
    ("abs (?x.c) if", Some(1)),
    ("$sum_parts ($self, w) / $count_parts ($self))", Some(1)),
    (") a", None),
    ("a +", None),
];

// Each text with how many tokens stand behind the condition in front, if there is one.
const CONDITIONS: [(&str, Option<usize>); 6] = [
    ("a = 1 and not b specified or c in (1 - 2, 'x'),", Some(1)),
    ("((a) < 1 or part_of (?x, ?y)).", Some(1)),
    ("not not specified a b", Some(1)),
    ("(a + 1) * 2 >= $parent.b) and", Some(2)),
    ("a and b", None),
    ("not", None),
];

fn left_behind_term(alloc: Global, text: &[u8]) -> Option<usize> {
    if text.len() >= 1_000 {
        return None;
    }
    let tokens = first_tokens(alloc, text).ok()?;
    let (_, rest) = sum(alloc, tokens.as_slice(), 20).ok()?;
    Some(rest.len())
}

fn left_behind_condition(alloc: Global, text: &[u8]) -> Option<usize> {
    if text.len() >= 1_000 {
        return None;
    }
    let tokens = first_tokens(alloc, text).ok()?;
    let (_, rest) = condition(alloc, tokens.as_slice(), 20).ok()?;
    Some(rest.len())
}

#[test]
fn terms_are_read(rt: HostRuntime) -> Result<(), Fail> {
    for (text, left) in TERMS.iter() {
        assert_eq!(rt;
            left_behind_term(rt.alloc(), text.as_bytes()),
            *left,
            "{text}"
        );
    }
    Ok(())
}

#[test]
fn conditions_are_read(rt: HostRuntime) -> Result<(), Fail> {
    for (text, left) in CONDITIONS.iter() {
        assert_eq!(rt;
            left_behind_condition(rt.alloc(), text.as_bytes()),
            *left,
            "{text}"
        );
    }
    Ok(())
}
