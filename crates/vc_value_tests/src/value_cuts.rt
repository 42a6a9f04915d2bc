//! An interval of whole numbers that is cut at a number, beside one and outside.

use std::alloc::{AllocError, Global};
use std::test::Fail;
use vc_value::{Dec, Grain, GrainList};
use vc_value_cuts::CutGrains;

fn millionths(millionths: i64) -> Dec {
    Dec { millionths }
}

fn grain(low: i64, high: i64) -> Grain {
    Grain {
        low: millionths(low),
        high: millionths(high),
    }
}

// The whole numbers from 0 to 10.
fn ten(alloc: Global) -> Result<CutGrains, AllocError> {
    let mut list = GrainList::new(alloc);
    list.add(Grain {
        low: Dec { millionths: 0 },
        high: Dec {
            millionths: 10_000_000,
        },
    })?;
    CutGrains::new(alloc, &list)
}

// Whether the list has just these grains.
fn is_list(list: &GrainList, grains: &[Grain]) -> bool {
    for n in 0..list.count() {
        match grains.get(n as usize) {
            Some(grain) if *grain == list.grain(n) => {}
            _ => return false,
        }
    }
    list.count() as usize == grains.len()
}

#[test]
fn a_number_is_cut_out_once(rt: HostRuntime) -> Result<(), Fail> {
    let alloc = rt.alloc();
    let mut grains = ten(alloc)?;
    for at in [5_000_000, 5_000_000, 11_000_000, 2_500_000, 2_500_000].as_slice() {
        grains.cut(alloc, 0, millionths(*at))?;
    }
    let list = grains.to_list(alloc)?;
    let parts = [
        grain(0, 2_000_000),
        grain(3_000_000, 4_000_000),
        grain(5_000_000, 5_000_000),
        grain(6_000_000, 10_000_000),
    ];
    assert!(rt; is_list(&list, parts.as_slice()));
    Ok(())
}
