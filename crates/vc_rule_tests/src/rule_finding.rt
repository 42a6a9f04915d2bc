//! Variables found by slot and characteristic.

ghost use Rattle.std.specs.Prelude.{◌≡◌};

use std::test::Fail;
use vc_plan::Var;
use vc_rule_readings::finding::number_at;

fn var(slot: u32, characteristic: u32) -> Var
    ensures { result.slot ≡ slot }
{
    Var {
        slot,
        characteristic,
        domain: 0,
        restrictable: false,
    }
}

// Slot 1 has none of characteristic 3, though its neighbours have, and there is no slot 2.
#[test]
fn finds_by_slot_and_characteristic(rt: HostRuntime) -> Result<(), Fail> {
    let vars = [var(0, 3), var(1, 5), var(1, 4), var(3, 3)];
    assert_eq!(rt; number_at(&vars, 0, 3), Some(0));
    assert_eq!(rt; number_at(&vars, 1, 4), Some(2));
    assert_eq!(rt; number_at(&vars, 1, 3), None);
    assert_eq!(rt; number_at(&vars, 2, 3), None);
    assert_eq!(rt; number_at(&vars, 3, 3), Some(3));
    Ok(())
}
