//! A text read as a model, and texts with a fault.

use std::test::Fail;
use vc_model::laws::a_text_has_a_fault_or_spells_a_model;
use vc_model::reader::read_model;
use vc_model_faults::{ModelFault, ModelFaultKind};
use vc_model_parts::{Characteristic, Model, Values};

const MACHINE: &str =
    "MODEL M VERSION 7\nSELECTION S\nA = 'X'\nEND\nCHAR A 1 RESTRICTABLE\nVALUE 'Y'\nVALUE 'X'\nCLASS K\nHAS A\n\
        OBJECT O CLASS K\nLINE 0010 BOLT PC : 2\nUSES S\nROOT O\n";

fn has_two_texts(characteristic: &Characteristic) -> bool {
    match &characteristic.values {
        Values::Texts { length, values, .. } => *length == 1 && values.len() == 2,
        Values::Numbers { .. } => false,
    }
}

fn is_the_machine(model: &Model) -> bool {
    match (model.characteristics.as_slice(), model.objects.as_slice()) {
        ([a], [o]) => {
            model.name.is(b"M")
                && model.version == 7
                && model.texts.len() == 2
                && a.name.is(b"A")
                && a.restrictable
                && has_two_texts(a)
                && o.material.is(b"O")
                && o.bill.len() == 1
                && model.dependencies.len() == 1
        }
        _ => false,
    }
}

#[test]
fn a_text_is_read_as_its_model(rt: HostRuntime) -> Result<(), Fail> {
    let text = MACHINE.as_bytes();
    a_text_has_a_fault_or_spells_a_model(text);
    let read = match read_model(rt.alloc(), text) {
        Ok(model) => is_the_machine(&model),
        Err(_) => false,
    };
    assert!(rt; read);
    Ok(())
}

#[test]
fn a_text_that_is_none_is_told(rt: HostRuntime) -> Result<(), Fail> {
    let told = match read_model(rt.alloc(), &[0xFF]) {
        Err(ModelFault::Bad { kind, line }) => Some((kind, line)),
        _ => None,
    };
    assert!(rt; told == Some((ModelFaultKind::NotText, 0)));
    let told = match read_model(rt.alloc(), b"MODEL M VERSION 1\n") {
        Err(ModelFault::Bad { kind, line }) => Some((kind, line)),
        _ => None,
    };
    assert!(rt; told == Some((ModelFaultKind::NoRoot, 2)));
    Ok(())
}
