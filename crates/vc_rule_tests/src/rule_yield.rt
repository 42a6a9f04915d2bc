//! Filling within the room, and past it.

use std::test::Fail;
use vc_plan::Atom;
use vc_rule_yield::{Bounded, Yield, has_atom, same_atom};
use vc_value::{Dec, Value};

#[test]
fn tells_atoms_apart(rt: HostRuntime) {
    let text = Atom::Is(1, Value::Text(2));
    let number = Atom::Is(1, Value::Num(Dec { millionths: 2 }));
    assert!(rt; same_atom(text, text));
    assert!(rt; same_atom(number, number));
    assert!(rt; !same_atom(text, number));
    assert!(rt; !same_atom(Atom::Out(1, 2), Atom::Out(1, 3)));
    assert!(rt; has_atom(&[Atom::Here(1), Atom::Out(1, 2)], Atom::Out(1, 2)));
    assert!(rt; !has_atom(&[Atom::Here(1), Atom::Out(1, 2)], Atom::Here(2)));
}

#[test]
fn fills_within_its_room(rt: HostRuntime) -> Result<(), Fail> {
    let mut list = Bounded::new(rt.alloc(), 3)?;
    list.push(7);
    list.extend(&[8, 9, 10]);
    assert_eq!(rt; list.len(), 1);
    list.extend(&[8, 9]);
    assert!(rt; !list.has_room(1));
    list.push(11);
    assert_eq!(rt; list.as_slice(), [7, 8, 9].as_slice());
    list.truncate(1);
    assert!(rt; list.has_room(2));
    list.clear();
    assert_eq!(rt; list.room() - list.len(), 3);
    Ok(())
}

// Three conclusions, for two of which there is room.
fn conclude_thrice(out: &mut Yield) {
    out.cite(Atom::Here(0));
    out.cite(Atom::Here(1));
    out.cite(Atom::Here(1));
    out.conclude(Atom::Out(0, 0));
    out.cite(Atom::Out(5, 1));
    out.conclude(Atom::Out(0, 1));
    out.keep_cited(1);
    out.conclude(Atom::Out(0, 2));
}

fn tells_two(out: &Yield) -> bool {
    out.cited_count() == 1
        && out.count() == 2
        && out.atom(1) == Atom::Out(0, 1)
        && out.clash().is_none()
}

fn tells_premises(out: &Yield) -> bool {
    out.count() == 2
        && out.premises(0) == [Atom::Here(1)].as_slice()
        && out.premises(1) == [Atom::Here(1), Atom::Out(5, 1)].as_slice()
}

// Behind a clash nothing is concluded.
fn clashes_for_good(out: &mut Yield) -> bool {
    out.clash_now();
    out.conclude(Atom::Out(0, 0));
    out.count() == 0 && out.clash() == Some([Atom::Here(1)].as_slice())
}

fn forgets_the_clash(out: &mut Yield) -> bool {
    out.clear();
    out.clash().is_none()
}

#[test]
fn concludes_from_what_is_cited(rt: HostRuntime) -> Result<(), Fail> {
    let mut out = Yield::new(rt.alloc(), 3, 2, 4)?;
    conclude_thrice(&mut out);
    let two = tells_two(&out);
    let premises = tells_premises(&out);
    let clashed = clashes_for_good(&mut out);
    let cleared = forgets_the_clash(&mut out);
    drop(out);
    assert!(rt; two && premises);
    assert!(rt; clashed && cleared);
    Ok(())
}
