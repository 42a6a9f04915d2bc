//! The texts of a plan with their numbers: those of the model's values, and behind them what else
//! dependencies name.

ghost use Rattle.std.proofs.Props.{props};
ghost use Rattle.std.specs.Prelude.{◌≡◌, ◌∷◌, [], ◌++◌, ℕ, List, map, position, IfOk, OnOk};
ghost use Rattle.std.specs.Str.{bytes_eq};
ghost use Rattle.vc_compile_plan.specs.Texts as texts;
ghost use Rattle.vc_compile_uses.specs.Growing.{texts_seen, with_text, with_texts, Numbers};
ghost use Rattle.vc_types_names.specs.FirstNames.{value_of};

use crate::mentions::put_mentions;
use std::alloc::{AllocError, Global};
use vc_model_parts::Model;
use vc_types_names::FirstNamed;
use vc_value::{Listed, Word};

/// Texts with an index, so that the number of a text is found without going over them.
#[derive(Drop)]
pub struct Texts {
    all: Listed<Word>,
    numbers: FirstNamed<u32>,
    ghost numbered: { Numbers numbers all } by { Prim.hlevel props },
}

impl Texts {
    /// The texts by their numbers.
    pub fn all(&self) -> &Listed<Word>
        ensures { result.now ≡ self.now.all }
    {
        &self.all
    }

    /// The texts by their numbers, without their index.
    pub fn into_all(self) -> Listed<Word>
        ensures { result ≡ self.all }
    {
        let Texts { all, numbers } = self;
        drop(numbers);
        all
    }

    /// The number of a text; none where it isn't one of these.
    pub fn number(&self, text: &[u8]) -> Option<u32>
        ensures { result ≡ position (λ other. bytes_eq other text.now) self.now.all }
    {
        self.numbers.find(text)
    }
}

// A count as a number of the plan, which has 32 bits; no model has so many texts.
fn number_from(count: usize) -> Result<u32, AllocError>
    ensures { IfOk result (λ number. number ≡ count) }
{
    match u32::try_from(count) {
        Ok(number) => Ok(number),
        Err(_) => Err(AllocError),
    }
}

// Puts a text last.
fn push_text(
    alloc: Global,
    all: &mut Listed<Word>,
    numbers: &mut FirstNamed<u32>,
    text: &[u8],
) -> Result<(), AllocError>
    requires { Numbers numbers.old all.old }
    ensures all { OnOk result (all.new ≡ all.old ++ text.now ∷ []) }
    ensures numbered { OnOk result (Numbers numbers.new all.new) }
{
    let number = number_from(all.len())?;
    numbers.add(alloc, text, number)?;
    let word = Word::from_bytes(alloc, text)?;
    all.push(word)?;
    Ok(())
}

// Puts a text last, unless it is there.
fn add_text(
    alloc: Global,
    all: &mut Listed<Word>,
    numbers: &mut FirstNamed<u32>,
    text: &[u8],
) -> Result<(), AllocError>
    requires { Numbers numbers.old all.old }
    ensures all { OnOk result (all.new ≡ with_text all.old text.now) }
    ensures numbered { OnOk result (Numbers numbers.new all.new) }
{
    if numbers.find(text).is_none() {
        push_text(alloc, all, numbers, text)
    } else {
        Ok(())
    }
}

fn push_texts(
    alloc: Global,
    all: &mut Listed<Word>,
    numbers: &mut FirstNamed<u32>,
    texts: &[Word],
) -> Result<(), AllocError>
    requires { Numbers numbers.old all.old }
    ensures all { OnOk result (all.new ≡ all.old ++ texts.now) }
    ensures numbered { OnOk result (Numbers numbers.new all.new) }
{
    for text in texts {
        push_text(alloc, all, numbers, text.bytes())?;
    }
    Ok(())
}

fn add_texts(
    alloc: Global,
    all: &mut Listed<Word>,
    numbers: &mut FirstNamed<u32>,
    texts: &[&[u8]],
) -> Result<(), AllocError>
    requires { Numbers numbers.old all.old }
    ensures all { OnOk result (all.new ≡ with_texts all.old (texts_seen texts.now)) }
    ensures numbered { OnOk result (Numbers numbers.new all.new) }
{
    for text in texts {
        add_text(alloc, all, numbers, *text)?;
    }
    Ok(())
}

/// The texts of the model's plan: each text of a value has its number in the model.
pub fn texts_of(alloc: Global, model: &Model) -> Result<Texts, AllocError>
    ensures { IfOk result (λ found. found.all ≡ texts.texts_of model.now) }
{
    let mut named = Listed::new(alloc);
    put_mentions(&mut named, model.dependencies.as_slice())?;
    let mut all = Listed::new(alloc);
    let mut numbers = FirstNamed::new(alloc);
    push_texts(alloc, &mut all, &mut numbers, model.texts.as_slice())?;
    add_texts(alloc, &mut all, &mut numbers, named.as_slice())?;
    Ok(Texts { all, numbers })
}
