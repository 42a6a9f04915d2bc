//! A model of one variable, checked on a shelf in memory.

use std::test::Fail;
use vc_app_check::check;
use vc_outside::{MemShelf, MemSink};

const LAMP: &[u8] =
    b"MODEL L VERSION 1\nCHAR A 1 RESTRICTABLE\nVALUE 'X'\nVALUE 'Y'\nCLASS K\nHAS A\nOBJECT O CLASS K\nROOT O\n";

#[test]
fn counts_are_told(rt: HostRuntime) -> Result<(), Fail> {
    let mut shelf = MemShelf::new(rt.alloc());
    shelf.add(rt.alloc(), "l", LAMP)?;
    let mut sink = MemSink::with_room(rt.alloc(), 1000)?;
    assert_eq!(rt; check(rt.alloc(), &mut shelf, "l", &mut sink), 0);
    assert_eq!(rt; check(rt.alloc(), &mut shelf, "m", &mut sink), 3);
    assert!(rt;
        sink.written()
            == b"ok: 1 slots, 1 variables, 1 rules, 4 atoms, 3 cells\nno such file: m\n".as_slice()
    );
    Ok(())
}
