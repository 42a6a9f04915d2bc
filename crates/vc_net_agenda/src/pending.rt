//! Numbers that wait, each once.

ghost use Rattle.std.specs.Prelude.{◌≡◌, ◌==◌, false, nat_eq, [], ◌∷◌, ◌++◌, length, replicate, IfOk, IfSome, IfNone};
ghost use Rattle.vc_base.specs.Sets.{has};
ghost use Rattle.vc_rule_yield.specs.Filling.{emptied};
ghost use Rattle.vc_net_agenda.specs.Pending.{pushed, with_last};

use std::alloc::{AllocError, Global};
use std::marker::Model;
use vc_value::Listed;

/// Numbers below a limit, each at most once, last in first out. All memory is taken at `new`.
#[derive(Drop)]
pub struct Pending {
    flags: Listed<bool>,
    places: Listed<usize>,
    count: usize,
}

impl Model for Pending {
    ghost use Rattle.std.specs.Prelude.{ℕ};
    ghost use Rattle.vc_rule_yield.specs.Filling.{Filled};
    ghost use Rattle.vc_net_agenda.specs.Pending.{IsStacked, stack_in};

    ghost Value = { Filled ℕ };

    ghost view = { λ s. stack_in s.places s.count };

    ghost invariant = { λ s. IsStacked s.flags s.places s.count };
}

impl Pending {
    /// No number, of those below the limit.
    pub fn new(alloc: Global, limit: usize) -> Result<Pending, AllocError>
        ensures { IfOk result (λ pending. pending ≡ record { items = []; room = limit }) }
    {
        Ok(Pending {
            flags: no_flags(alloc, limit)?,
            places: no_places(alloc, limit)?,
            count: 0,
        })
    }

    /// Whether the number waits.
    pub fn has(&self, number: usize) -> bool
        ensures { result ≡ has nat_eq self.now.items number }
    {
        match self.flags.as_slice().get(number) {
            Some(flag) => *flag,
            None => false,
        }
    }

    /// Whether none waits.
    pub fn is_empty(&self) -> bool
        ensures { result ≡ (length self.now.items == 0) }
    {
        self.count == 0
    }

    /// Lets the number wait, if it is below the limit and doesn't wait yet.
    pub fn push(&mut self, number: usize)
        ensures { self.new ≡ pushed self.old number }
    {
        if number < self.places.len() && !self.has(number) {
            self.flags.set(number, true);
            self.places.set(self.count, number);
            self.count += 1;
        }
    }

    /// Takes the number that came last, if one waits.
    pub fn pop(&mut self) -> Option<usize>
        ensures some { IfSome result (λ number. self.old ≡ with_last self.new number) }
        ensures none { IfNone result ((self.old.items ≡ []) × (self.new ≡ self.old)) }
    {
        if self.count == 0 {
            return None;
        }
        let count = self.count - 1;
        let number = self.places.as_slice()[count];
        self.flags.set(number, false);
        self.count = count;
        Some(number)
    }

    /// Lets no number wait.
    pub fn clear(&mut self)
        ensures { self.new ≡ emptied self.old }
    {
        while let Some(_) = self.pop() {}
    }
}

// No flag is set, of so many.
fn no_flags(alloc: Global, count: usize) -> Result<Listed<bool>, AllocError>
    ensures { IfOk result (λ flags. flags ≡ replicate count false) }
{
    let mut flags = Listed::new(alloc);
    for place in 0..count {
        flags.push(false)?;
    }
    Ok(flags)
}

// No number stands yet, at so many places.
fn no_places(alloc: Global, count: usize) -> Result<Listed<usize>, AllocError>
    ensures { IfOk result (λ places. places ≡ replicate count 0) }
{
    let mut places = Listed::new(alloc);
    for place in 0..count {
        places.push(0)?;
    }
    Ok(places)
}
