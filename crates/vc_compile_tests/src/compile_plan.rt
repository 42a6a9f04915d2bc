//! The numbers of the faults.

use std::test::Fail;
use vc_compile_plan::CompileFault;
use vc_types::TypeFaultKind;

#[test]
fn faults_are_numbered_from_1(rt: HostRuntime) -> Result<(), Fail> {
    let typing = CompileFault::Typing {
        kind: TypeFaultKind::WrongKind,
        line: 7,
    };
    for (fault, number) in [
        (CompileFault::TooDeep, Some(1)),
        (CompileFault::TooManySlots, Some(2)),
        (CompileFault::TooManyRules, Some(3)),
        (CompileFault::TooManyAtoms, Some(4)),
        (CompileFault::TooManyCells, Some(5)),
        (typing, Some(6)),
        (CompileFault::OutOfMemory, None),
    ] {
        assert_eq!(rt; fault.number(), number);
    }
    Ok(())
}
