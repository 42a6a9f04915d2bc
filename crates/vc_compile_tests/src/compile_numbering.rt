//! Conditions and terms get the numbers of their places.

use std::alloc::Global;
use std::process::Abort;
use std::test::Fail;
use vc_compile_numbering::{Numbering, Trees};
use vc_plan::{Condition, Term};

// Two conditions and a term, of which one thing has the numbers.
fn numbers<R: Abort>(rt: &R, alloc: Global) -> (u32, u32, u32, u32) {
    let mut trees = Trees::with_capacity(alloc, 0).expect(rt, "memory");
    let nothing = trees.add_if_asked(None).expect(rt, "memory");
    let first = trees
        .add_condition(Condition::Specified(7))
        .expect(rt, "memory");
    let second = trees
        .add_if_asked(Some(Condition::Filled(1)))
        .expect(rt, "memory");
    let term = trees.add_term(Term::Read(7)).expect(rt, "memory");
    (nothing, first, second, term)
}

fn counts<R: Abort>(rt: &R, alloc: Global) -> (usize, usize, usize) {
    let mut things = Numbering::over(alloc, Trees::with_capacity(alloc, 0).expect(rt, "memory"));
    things
        .trees
        .add_term(Term::PartCount(0))
        .expect(rt, "memory");
    things.push(5_u32).expect(rt, "memory");
    let (trees, items) = things.into_parts();
    let (conditions, terms) = trees.into_parts();
    (conditions.len(), terms.len(), items.len())
}

#[test]
fn places_are_numbers(rt: HostRuntime) -> Result<(), Fail> {
    assert_eq!(rt; numbers(&rt, rt.alloc()), (0, 1, 2, 0));
    assert_eq!(rt; counts(&rt, rt.alloc()), (1, 1, 1));
    Ok(())
}
