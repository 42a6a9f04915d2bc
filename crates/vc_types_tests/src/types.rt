//! The numbers of the kinds.

use std::test::Fail;
use vc_types::TypeFaultKind;

#[test]
fn kinds_are_numbered_from_1(rt: HostRuntime) -> Result<(), Fail> {
    for (kind, number) in [
        (TypeFaultKind::UnknownName, 1),
        (TypeFaultKind::DoubleName, 2),
        (TypeFaultKind::WrongKind, 3),
        (TypeFaultKind::NotMonotone, 4),
        (TypeFaultKind::SelfInConstraint, 5),
        (TypeFaultKind::NoParent, 6),
        (TypeFaultKind::SelfInLine, 7),
        (TypeFaultKind::VariableOutside, 8),
        (TypeFaultKind::NoKey, 9),
        (TypeFaultKind::NotATerm, 10),
        (TypeFaultKind::SumPlace, 11),
        (TypeFaultKind::RangeTooWide, 12),
        (TypeFaultKind::PartOfPlace, 13),
        (TypeFaultKind::TooManyObjects, 14),
    ] {
        assert_eq!(rt; kind.number(), number);
    }
    Ok(())
}
