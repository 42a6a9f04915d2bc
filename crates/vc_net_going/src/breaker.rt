//! What broke a net.

use std::alloc::{AllocError, Global};
use vc_net_blame::{blame, collision_bound};
use vc_net_standing::{Fact, Standing};
use vc_plan::{Atom, Culprit, Plan};
use vc_rule_yield::Bounded;

/// What broke a net, if anything did: whom to blame, the fact that couldn't come with what it follows from, if it
/// wasn't a clash, and the premises that contradict. All memory is taken at `new`.
#[derive(Drop)]
pub struct Breaker {
    pub culprit: Option<Culprit>,
    pub fact: Option<Fact>,
    pub reasons: Bounded<Atom>,
    pub premises: Bounded<Atom>,
}

impl Breaker {
    ghost use Rattle.std.specs.Prelude.{◌≡◌, ◌^◌, ◌<◌, ◌≤◌, length, IfOk};
    ghost use Rattle.vc_plan.specs.Domains.{atom_count};
    ghost use Rattle.vc_net_blame.specs.Finding.{collision_bound};
    ghost use Rattle.vc_net_going.specs.Breaking.{clashed, collided, nothing_broken, unbroken};

    /// Nothing broke it, with room for so many premises of a fact, and so many that contradict.
    pub fn new(alloc: Global, reasons: usize, premises: usize) -> Result<Breaker, AllocError>
        ensures { IfOk result (λ breaker. breaker ≡ nothing_broken reasons premises) }
    {
        let reasons = Bounded::new(alloc, reasons)?;
        let premises = Bounded::new(alloc, premises)?;
        Ok(Breaker {
            culprit: None,
            fact: None,
            reasons,
            premises,
        })
    }

    /// Lets nothing have broken it.
    pub fn clear(&mut self)
        ensures { self.new ≡ unbroken self.old }
    {
        self.culprit = None;
        self.fact = None;
        self.reasons.clear();
        self.premises.clear();
    }

    /// Keeps a clash from these premises.
    pub fn keep_clash(&mut self, culprit: Option<Culprit>, premises: &[Atom])
        ensures { self.new ≡ clashed self.old culprit premises.now }
    {
        self.clear();
        self.culprit = culprit;
        self.premises.extend(premises);
    }

    /// Keeps a fact that can't stand beside the others, with what it follows from, and finds whom to blame.
    pub fn keep_fact(&mut self, plan: &Plan, standing: &Standing, fact: Fact, reasons: &[Atom])
        requires atoms { atom_count plan.now < 2 ^ 32 }
        requires vars { length plan.now.vars < 2 ^ 32 }
        requires room { collision_bound plan.now ≤ self.old.premises.room }
        ensures { self.new ≡ collided plan.now standing.now.facts self.old fact reasons.now }
    {
        self.clear();
        self.fact = Some(fact);
        self.reasons.extend(reasons);
        self.culprit = blame(plan, standing, fact, &mut self.premises);
    }
}
