//! What stands where it may, and what doesn't.

use std::test::Fail;
use vc_syntax_tree::Dependency;
use vc_types::At;
use vc_types_faults::places::{has_instance, is_constraint, is_for_net, is_line, is_procedure};
use vc_types_meanings::borrowed;
use vc_value::Listed;

#[test]
fn places_are_told_apart(rt: HostRuntime) -> Result<(), Fail> {
    let line = At::Line {
        configurable: false,
    };
    assert!(rt; is_constraint(At::Constraint));
    assert!(rt; is_line(line));
    assert!(rt; has_instance(At::Operation));
    assert!(rt; !has_instance(line));
    assert!(rt; is_for_net(At::Constraint));
    assert!(rt; !is_for_net(line));
    let procedure = Dependency::Procedure(Listed::new(rt.alloc()));
    assert!(rt; is_procedure(borrowed(&procedure)));
    Ok(())
}
