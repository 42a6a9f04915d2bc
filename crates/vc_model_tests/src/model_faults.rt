//! First faults of short texts, and how much is read of a text without one.

use std::alloc::Global;
use std::test::Fail;
use vc_model_faults::all_lines::check_lines;
use vc_model_faults::fault::{ModelFault, ModelFaultKind};

#[derive(Drop)]
enum Outcome {
    Sound(usize),
    Bad(ModelFaultKind, u32),
    Other,
}

// How many blocks and terms of a text without fault are read, or its first fault.
fn outcome_of(alloc: Global, text: &str) -> Outcome {
    if text.len() > 1_000 {
        return Outcome::Other;
    }
    match check_lines(alloc, text.as_bytes()) {
        Ok(sound) => Outcome::Sound(sound.readings.len()),
        Err(ModelFault::Bad { kind, line }) => Outcome::Bad(kind, line),
        Err(ModelFault::OutOfMemory) => Outcome::Other,
    }
}

#[test]
fn first_faults_are_told_at_their_lines(rt: HostRuntime) -> Result<(), Fail> {
    for (text, kind, line) in [
        ("", ModelFaultKind::NoRoot, 1),
        ("MODEL A VERSION 1", ModelFaultKind::NoRoot, 2),
        ("MODEL A VERSION 1\n* end\n", ModelFaultKind::NoRoot, 3),
        ("NET N\nFOO\n", ModelFaultKind::Misplaced, 1),
        (
            "MODEL A VERSION 1\nCHAR C 1\nFOO\n",
            ModelFaultKind::NoValues,
            2,
        ),
        (
            "MODEL A VERSION 1\nNET N\nNET N\nFOO\n",
            ModelFaultKind::Twice,
            3,
        ),
    ] {
        let told = outcome_of(rt.alloc(), text);
        assert!(rt;
            matches!(&told, Outcome::Bad(k, n) if *k == kind && *n == line),
            "{text}"
        );
    }
    assert_eq!(rt; ModelFaultKind::MultipleRestrictable.number(), 15);
    let text = "MODEL A VERSION 1\nCLASS C\nPRECONDITION P\nX = 1\nEND\nOBJECT M CLASS C\nROOT M\n";
    let told = outcome_of(rt.alloc(), text);
    assert!(rt; matches!(&told, Outcome::Sound(1)));
    Ok(())
}
