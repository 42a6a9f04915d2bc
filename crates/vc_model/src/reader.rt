//! Reads a text as the model that it spells, or tells its first fault.

ghost use Rattle.std.specs.Prelude.{◌≡◌, ℕ, [], IfOk, Ok, Err};
ghost use Rattle.vc_model_scope.specs.Scope.{scope_of};
ghost use Rattle.vc_model_faults.specs.First.{backwards, readings_of, IsFirstFault, HasNoFault};
ghost use Rattle.vc_model_faults.specs.Places.{Kept, seen_places};
ghost use Rattle.vc_model_faults.specs.Readings.{seen_readings};
ghost use Rattle.vc_model_faults.specs.declared.fault.ModelFaultKind.{ModelFaultKind as Kinds};
ghost use Rattle.vc_model_lines.specs.Classified.{lines_of};
ghost use Rattle.vc_model_drafts.specs.Models.{model_of};
ghost use Rattle.vc_model_drafts.specs.Seen.{SeenModel, seen_model};
ghost use Rattle.vc_model.specs.Spelled.{Spells, IsFault, Answers};

use std::alloc::{AllocError, Global};
use std::str::from_utf8;
use vc_model_drafts::draft_lines;
use vc_model_faults::{ModelFault, ModelFaultKind, Sound, check_lines};
use vc_model_parts::Model;

// The model that a text without a fault describes, by what its lines say.
fn describe(alloc: Global, sound: Sound, text: &[u8]) -> Result<Model, AllocError>
    requires scope { sound.scope ≡ scope_of (backwards [] (lines_of text.now)) }
    requires readings { seen_readings sound.readings ≡ readings_of (backwards [] (lines_of text.now)) [] }
    requires places { Kept (backwards [] (lines_of text.now)) (seen_places text.now sound.places) }
    ensures { IfOk result (λ model. seen_model model ≡ model_of (lines_of text.now)) }
{
    let Sound {
        scope,
        readings,
        places,
    } = sound;
    let draft = draft_lines(alloc, scope.scope(), text, places, readings)?;
    let texts = scope.into_texts(alloc)?;
    Ok(draft.into_model(texts))
}

// The model that the lines describe, or their first fault. A text of 4 GiB takes more memory than there is.
fn read_lines(alloc: Global, text: &[u8]) -> Result<Model, ModelFault>
    ensures sound { IfOk result (λ model. HasNoFault (lines_of text.now)) }
    ensures model { IfOk result (λ model. seen_model model ≡ model_of (lines_of text.now)) }
    ensures bad { (kind : Kinds) (line : ℕ) → result ≡ Err (ModelFault.Bad kind line)
        → IsFirstFault (lines_of text.now) kind line }
{
    if text.len() >= u32::MAX as usize {
        return Err(ModelFault::OutOfMemory);
    }
    match check_lines(alloc, text) {
        Ok(sound) => {
            let model = describe(alloc, sound, text)?;
            Ok(model)
        }
        Err(fault) => Err(fault),
    }
}

fn read_text(alloc: Global, text: &str) -> Result<Model, ModelFault>
    ensures sound { IfOk result (λ model. HasNoFault (lines_of text.now)) }
    ensures model { IfOk result (λ model. seen_model model ≡ model_of (lines_of text.now)) }
    ensures bad { (kind : Kinds) (line : ℕ) → result ≡ Err (ModelFault.Bad kind line)
        → IsFirstFault (lines_of text.now) kind line }
{
    let bytes = text.as_bytes();
    let model = read_lines(alloc, bytes)?;
    Ok(model)
}

fn read_bytes(alloc: Global, text: &[u8]) -> Result<Model, ModelFault>
    ensures found { IfOk result (λ model. Spells text.now (seen_model model)) }
    ensures told { (kind : Kinds) (line : ℕ) → result ≡ Err (ModelFault.Bad kind line) → IsFault text.now kind line }
{
    match from_utf8(text) {
        Ok(text) => read_text(alloc, text),
        Err(_) => Err(ModelFault::Bad {
            kind: ModelFaultKind::NotText,
            line: 0,
        }),
    }
}

/// The model that the text spells, or the text's first fault: the first faulty line with the least
/// kind that stands there.
pub fn read_model(alloc: Global, text: &[u8]) -> Result<Model, ModelFault>
    // What is read is spelled by the text, and its fault is told.
    ensures found { IfOk result (λ model. Spells text.now (seen_model model)) }
    ensures told { (kind : Kinds) (line : ℕ) → result ≡ Err (ModelFault.Bad kind line) → IsFault text.now kind line }

    // What the text spells is read, and the text's fault is told, unless memory ran out.
    ensures only { (model : SeenModel) → Spells text.now model → Answers result (Ok model) }
    ensures fault { (kind : Kinds) (line : ℕ) → IsFault text.now kind line
        → Answers result (Err (ModelFault.Bad kind line)) }
{
    let answer = read_bytes(alloc, text);
    answer
}
