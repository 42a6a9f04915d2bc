//! The model of a few lines.

ghost use Rattle.vc_model_faults.specs.First.{backwards, readings_of};
ghost use Rattle.vc_model_faults.specs.Places.{Kept, seen_places};
ghost use Rattle.vc_model_faults.specs.Readings.{seen_readings};
ghost use Rattle.vc_model_lines.specs.Classified.{lines_of};
ghost use Rattle.std.specs.Prelude.{◌≡◌, []};

use std::alloc::Global;
use std::test::Fail;
use vc_model_drafts::draft_lines;
use vc_model_faults::{Sound, check_lines};
use vc_value::Listed;

// How many classes, nets and objects the model of a text without a fault has.
fn counts_of(alloc: Global, text: &[u8]) -> Option<(usize, usize, usize)> {
    if text.len() > 1_000 {
        return None;
    }
    match check_lines(alloc, text) {
        Ok(sound) => counts_in(alloc, sound, text),
        Err(_) => None,
    }
}

fn counts_in(alloc: Global, sound: Sound, text: &[u8]) -> Option<(usize, usize, usize)>
    requires readings { seen_readings sound.readings ≡ readings_of (backwards [] (lines_of text.now)) [] }
    requires places { Kept (backwards [] (lines_of text.now)) (seen_places text.now sound.places) }
{
    let Sound {
        scope,
        readings,
        places,
    } = sound;
    match draft_lines(alloc, scope.scope(), text, places, readings) {
        Ok(draft) => {
            let model = draft.into_model(Listed::new(alloc));
            Some((model.classes.len(), model.nets.len(), model.objects.len()))
        }
        Err(_) => None,
    }
}

#[test]
fn lines_are_gathered(rt: HostRuntime) -> Result<(), Fail> {
    let text = b"MODEL M VERSION 1\nCLASS K\nCLASS L\nNET N\nOBJECT O CLASS K\nROOT O\n";
    assert!(rt; counts_of(rt.alloc(), text) == Some((2, 1, 1)));
    Ok(())
}
