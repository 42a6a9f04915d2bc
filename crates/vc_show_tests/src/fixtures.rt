//! A variable and a set, both of two texts, and a reading that knows the set's text alone.

ghost use Rattle.std.specs.Prelude.{◌≡◌, ◌∷◌, [], false, length};
ghost use Rattle.vc_value.specs.declared.table_header.Domain.TheVariants.{Texts};

use std::alloc::Global;
use std::process::Abort;
use vc_plan::{Reading, TextSet, Var, View};
use vc_value::{Domain, Listed, Value, Word};

/// Says that all slots are here, that no variable has a value, and which text each set has.
#[derive(Drop)]
pub struct Chosen {
    pub text: u32,
}

impl View for Chosen {
    ghost use Rattle.std.specs.Prelude.{true, false, None};

    ghost seen = { λ s. record { here = λ i. true; out = λ v g. false; value = λ v. None } };

    fn here(&self, _slot: u32) -> bool {
        true
    }

    fn out(&self, _var: u32, _grain: u32) -> bool {
        false
    }

    fn value(&self, _var: u32) -> Option<Value> {
        None
    }
}

impl Reading for Chosen {
    ghost use Rattle.std.specs.Prelude.{◌==◌};

    ghost holdings = { λ s set text. text == s.text };

    fn holds(&self, _set: u32, text: u32) -> bool {
        text == self.text
    }
}

pub fn domains<R: Abort>(rt: &R, alloc: Global) -> Listed<Domain>
    ensures { result ≡ Texts (0 ∷ 1 ∷ []) ∷ [] }
{
    let mut texts = Listed::new(alloc);
    texts.push(0).expect(rt, "memory");
    texts.push(1).expect(rt, "memory");
    let mut domains = Listed::new(alloc);
    domains.push(Domain::Texts(texts)).expect(rt, "memory");
    domains
}

pub fn texts<R: Abort>(rt: &R, alloc: Global) -> Listed<Word>
    ensures { length result ≡ 2 }
{
    let mut texts = Listed::new(alloc);
    texts
        .push(Word::from_bytes(alloc, b"N").expect(rt, "memory"))
        .expect(rt, "memory");
    texts
        .push(Word::from_bytes(alloc, b"H").expect(rt, "memory"))
        .expect(rt, "memory");
    texts
}

pub fn variables<R: Abort>(rt: &R, alloc: Global) -> Listed<Var>
    ensures { result ≡ record { slot = 0; characteristic = 0; domain = 0; restrictable = false }
        ∷ [] }
{
    let mut vars = Listed::new(alloc);
    vars.push(Var {
        slot: 0,
        characteristic: 0,
        domain: 0,
        restrictable: false,
    })
    .expect(rt, "memory");
    vars
}

pub fn sets<R: Abort>(rt: &R, alloc: Global) -> Listed<TextSet>
    ensures { result ≡ record { slot = 0; characteristic = 1; domain = 0 } ∷ [] }
{
    let mut sets = Listed::new(alloc);
    sets.push(TextSet {
        slot: 0,
        characteristic: 1,
        domain: 0,
    })
    .expect(rt, "memory");
    sets
}
