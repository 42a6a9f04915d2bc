//! Texts with one fault each, and the limits that are quickly reached.

use std::alloc::{AllocError, Global};
use std::test::Fail;
use vc_model_faults::all_lines::check_lines;
use vc_model_faults::fault::{ModelFault, ModelFaultKind};

// The kind and the line of the first fault; None where there is none.
fn fault_of(alloc: Global, text: &str) -> Result<Option<(ModelFaultKind, u32)>, AllocError> {
    if text.len() > 100_000 {
        return Ok(None);
    }
    match check_lines(alloc, text.as_bytes()) {
        Ok(_sound) => Ok(None),
        Err(ModelFault::Bad { kind, line }) => Ok(Some((kind, line))),
        Err(ModelFault::OutOfMemory) => Err(AllocError),
    }
}

#[test]
fn each_kind_is_told_at_its_line(rt: HostRuntime) -> Result<(), Fail> {
    for (text, kind, line) in [
        ("FOO", ModelFaultKind::NotALine, 2),
        ("CHAR AND 1\nVALUE 'X'", ModelFaultKind::BadName, 2),
        ("CHAR A 1\nFOO", ModelFaultKind::NoValues, 2),
        ("CHAR A 1\nUSES NOPE\nVALUE 'X'", ModelFaultKind::Unknown, 3),
        ("CHAR A 1\nVALUE 'X'\nVALUE 'X'", ModelFaultKind::Twice, 4),
        ("CHAR A 1\nVALUE 'XY'", ModelFaultKind::BadValue, 3),
        ("NUM N 1\nVALUE 5\nVALUE 4", ModelFaultKind::BadValue, 4),
        ("NUM N 1\nVALUE 'X'", ModelFaultKind::Misplaced, 3),
        ("ACTION X", ModelFaultKind::Action, 2),
        ("SELECTION S\nA =\nEND", ModelFaultKind::Syntax, 2),
        ("SELECTION S\nA = 1", ModelFaultKind::Misplaced, 2),
        (
            "CHAR A 1 MULTIPLE RESTRICTABLE\nVALUE 'X'",
            ModelFaultKind::MultipleRestrictable,
            2,
        ),
        (
            "SELECTION S\nA = 1\nEND\nCHAR A 1\nVALUE 'X'\nUSES S",
            ModelFaultKind::WrongDependency,
            7,
        ),
        (
            "CLASS C\nOBJECT M CLASS C\nROOT M\nNET N",
            ModelFaultKind::Misplaced,
            4,
        ),
    ] {
        let text = format!(in rt.alloc(); "MODEL A VERSION 1\n{text}\n")?;
        assert!(rt;
            fault_of(rt.alloc(), text.as_str())? == Some((kind, line)),
            "{text}"
        );
    }
    assert!(rt; fault_of(rt.alloc(), "NET N\n")? == Some((ModelFaultKind::Misplaced, 1)));
    let sound = "MODEL A VERSION 1\nCLASS C\nOBJECT M CLASS C\nROOT M\n";
    assert!(rt; fault_of(rt.alloc(), sound)?.is_none());
    Ok(())
}

#[test]
fn limits_hold_at_their_numbers(rt: HostRuntime) -> Result<(), Fail> {
    let mut text = String::from_str(rt.alloc(), "MODEL A VERSION 1\n")?;
    for number in 0..21 {
        let characteristic = format!(in rt.alloc(); "CHAR C{number} 1\nVALUE 'X'\n")?;
        text.push_str(characteristic.as_str())?;
    }
    text.push_str("TABLE T FILE t.csv\n")?;
    for number in 0..20 {
        let column = format!(in rt.alloc(); "COLUMN C{number}\n")?;
        text.push_str(column.as_str())?;
    }
    assert!(rt; fault_of(rt.alloc(), text.as_str())? == Some((ModelFaultKind::NoRoot, 65)));
    text.push_str("COLUMN C20\n")?;
    assert!(rt; fault_of(rt.alloc(), text.as_str())? == Some((ModelFaultKind::TooMany, 65)));
    Ok(())
}
