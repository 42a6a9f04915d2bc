//! Lines that spell requests, and the lines that are written of them.

use std::alloc::{AllocError, Global};
use std::test::Fail;
use vc_wire_requests::laws::written_is_read;
use vc_wire_requests::{line_text, read_line};

// Whether the line spells a request, of which this is written.
fn is_written(alloc: Global, line: &[u8], written: &[u8]) -> Result<bool, AllocError> {
    match read_line(alloc, line)? {
        Some(request) => {
            let text = line_text(alloc, &request);
            drop(request);
            Ok(text?.is(written))
        }
        None => Ok(false),
    }
}

fn spells_none(alloc: Global, line: &[u8]) -> Result<bool, AllocError> {
    Ok(read_line(alloc, line)?.is_none())
}

#[test]
fn lines_are_read_and_written(rt: HostRuntime) -> Result<(), Fail> {
    written_is_read();
    assert!(rt; is_written(rt.alloc(), b"OPEN desk-1", b"open desk-1")?);
    assert!(rt; is_written(rt.alloc(), b"close a", b"close a")?);
    assert!(rt; is_written(rt.alloc(), b"Set a 12 size L x", b"set a 12 SIZE L x")?);
    assert!(rt; is_written(rt.alloc(), b"add a 0 C ", b"add a 0 C ")?);
    assert!(rt; is_written(rt.alloc(), b"drop a 0 C  ", b"drop a 0 C  ")?);
    assert!(rt;
        is_written(
            rt.alloc(),
            b"retract a 999999999 c",
            b"retract a 999999999 C"
        )?
    );
    assert!(rt; is_written(rt.alloc(), b"show a", b"show a")?);
    assert!(rt; is_written(rt.alloc(), b"bill a", b"bill a")?);
    assert!(rt; is_written(rt.alloc(), b"routing a", b"routing a")?);
    Ok(())
}

#[test]
fn lines_that_ask_for_reasons_are_read_and_written(rt: HostRuntime) -> Result<(), Fail> {
    assert!(rt; is_written(rt.alloc(), b"Why a 0 motor", b"why a 0 MOTOR")?);
    assert!(rt; is_written(rt.alloc(), b"WHYNOT a 0 motor e 1", b"whynot a 0 MOTOR e 1")?);
    assert!(rt; is_written(rt.alloc(), b"conflict a", b"conflict a")?);
    assert!(rt; is_written(rt.alloc(), b"log a", b"log a")?);
    Ok(())
}

#[test]
fn lines_of_what_is_saved_are_read_and_written(rt: HostRuntime) -> Result<(), Fail> {
    assert!(rt; is_written(rt.alloc(), b"SAVE Desk Mine-1", b"save Desk Mine-1")?);
    assert!(rt; is_written(rt.alloc(), b"load a b", b"load a b")?);
    assert!(rt; is_written(rt.alloc(), b"Forget Mine", b"forget Mine")?);
    Ok(())
}

#[test]
fn other_lines_spell_none(rt: HostRuntime) -> Result<(), Fail> {
    assert!(rt; spells_none(rt.alloc(), b"")?);
    assert!(rt; spells_none(rt.alloc(), b"open")?);
    assert!(rt; spells_none(rt.alloc(), b"open a b")?);
    assert!(rt; spells_none(rt.alloc(), b"set a 01 C x")?);
    assert!(rt; spells_none(rt.alloc(), b"set a 1000000000 C x")?);
    assert!(rt; spells_none(rt.alloc(), b"set a 0 C")?);
    assert!(rt; spells_none(rt.alloc(), b"why a 0 C x")?);
    assert!(rt; spells_none(rt.alloc(), b"save a")?);
    assert!(rt; spells_none(rt.alloc(), b"load a b c")?);
    assert!(rt; spells_none(rt.alloc(), b"forget a.b")?);
    Ok(())
}
