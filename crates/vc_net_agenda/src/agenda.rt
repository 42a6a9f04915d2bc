//! The agenda: who is to be asked next.

ghost use Rattle.std.specs.Prelude.{◌≡◌, ◌^◌, ◌==◌, ◌+◌, ◌<◌, [], length, IfOk, IfSome, IfNone};
ghost use Rattle.vc_base.specs.Sets.{has};
ghost use Rattle.vc_net_laws.specs.Working.{same_giver};
ghost use Rattle.vc_net_agenda.specs.Agendas.{added, giver_at, meant, nobody_on, number_of, with_next};

use crate::givers::Giver;
use crate::pending::Pending;
use std::alloc::{AllocError, Global};
use std::marker::Model;
use vc_plan::Plan;

/// Rules and sources of a plan that are to be asked, each at most once, last in first out. All
/// memory is taken at `new`.
#[derive(Drop)]
pub struct Agenda {
    rules: u32,
    vars: u32,
    pending: Pending,
}

impl Model for Agenda {
    ghost use Rattle.vc_net_agenda.specs.Agendas.{Awaited, IsNumbered, awaited_in};

    ghost Value = { Awaited };

    ghost view = { λ s. awaited_in s.rules s.vars s.pending.items };

    ghost invariant = { λ s. IsNumbered s.rules s.vars s.pending };
}

impl Agenda {
    /// Nobody is to be asked, of the plan's rules and the sources of its variables.
    pub fn new(alloc: Global, plan: &Plan) -> Result<Agenda, AllocError>
        requires rules { length plan.now.rules < 2 ^ 32 }
        requires vars { length plan.now.vars < 2 ^ 32 }
        ensures { IfOk result (λ agenda. agenda ≡ nobody_on (length plan.now.rules) (length plan.now.vars)) }
    {
        let rules = plan.rules.len();
        let vars = plan.vars.len();
        Ok(Agenda {
            rules: rules as u32,
            vars: vars as u32,
            pending: Pending::new(alloc, rules + (vars + vars))?,
        })
    }

    /// Whether the giver is to be asked.
    pub fn has(&self, giver: Giver) -> bool
        ensures { result ≡ has same_giver self.now.givers (meant giver) }
    {
        match self.number(giver) {
            Some(number) => self.pending.has(number),
            None => false,
        }
    }

    /// Whether nobody is to be asked.
    pub fn is_empty(&self) -> bool
        ensures { result ≡ (length self.now.givers == 0) }
    {
        self.pending.is_empty()
    }

    /// Lets the giver be asked next, if the plan has it and it isn't to be asked already.
    pub fn push(&mut self, giver: Giver)
        ensures { self.new ≡ added self.old (meant giver) }
    {
        if let Some(number) = self.number(giver) {
            self.pending.push(number);
        }
    }

    /// Takes the giver that is to be asked next, if there is one.
    pub fn pop(&mut self) -> Option<Giver>
        ensures some { IfSome result (λ giver. self.old ≡ with_next self.new (meant giver)) }
        ensures none { IfNone result ((self.old.givers ≡ []) × (self.new ≡ self.old)) }
    {
        match self.pending.pop() {
            Some(number) => Some(giver_at(self.rules, self.vars, number)),
            None => None,
        }
    }

    /// Lets nobody be asked.
    pub fn clear(&mut self)
        ensures { self.new ≡ nobody_on self.old.rules self.old.vars }
    {
        self.pending.clear();
    }

    // The number of the giver among all, if the plan has it.
    fn number(&self, giver: Giver) -> Option<usize>
        ensures { result ≡ number_of self.now.rules self.now.vars (meant giver) }
    {
        match giver {
            Giver::Rule(rule) if rule < self.rules => Some(rule as usize),
            Giver::User(var) if var < self.vars => Some(self.rules as usize + var as usize),
            Giver::Entry(var) if var < self.vars => {
                Some(self.rules as usize + (self.vars as usize + var as usize))
            }
            _ => None,
        }
    }
}

// The giver of the number among all: first the rules, then the users' values, then the entries.
fn giver_at(rules: u32, vars: u32, number: usize) -> Giver
    requires { number < rules + (vars + vars) }
    ensures { meant result ≡ giver_at rules vars number }
{
    let first = rules as usize;
    let second = first + vars as usize;
    if number < first {
        Giver::Rule(number as u32)
    } else if number < second {
        Giver::User((number - first) as u32)
    } else {
        Giver::Entry((number - second) as u32)
    }
}
