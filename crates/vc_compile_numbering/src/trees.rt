//! The conditions and terms of a plan, by their numbers.

ghost use Rattle.std.specs.Prelude.{◌≡◌, ◌∷◌, [], length, option_map, IfOk, OnOk};
ghost use Rattle.vc_compile_plan.specs.Numbering.{if_asked, number_for};
ghost use Rattle.vc_compile_plan.specs.Trees as plan;
ghost use Rattle.vc_compile_numbering.specs.Growing.{kept, with_conditions, with_terms};

use std::alloc::{AllocError, Global};
use vc_plan::{Condition, Term};
use vc_value::Listed;

/// Conditions and terms, each with the number that is its place.
#[derive(Drop)]
pub struct Trees {
    conditions: Listed<Condition>,
    terms: Listed<Term>,
}

// A count as a number of the plan, which has 32 bits; no model brings so many conditions or terms.
fn number_from(count: usize) -> Result<u32, AllocError>
    ensures { IfOk result (λ number. number ≡ count) }
{
    match u32::try_from(count) {
        Ok(number) => Ok(number),
        Err(_) => Err(AllocError),
    }
}

impl Trees {
    /// No terms, and the one condition that asks nothing, which is number 0; with capacity for so many conditions.
    pub fn with_capacity(alloc: Global, capacity: usize) -> Result<Trees, AllocError>
        ensures { IfOk result (λ trees. kept trees ≡ record { conditions = plan.Always ∷ []; terms = [] }) }
    {
        let mut conditions = Listed::from_vec(Vec::with_capacity(alloc, capacity)?);
        conditions.push(Condition::Always)?;
        Ok(Trees {
            conditions,
            terms: Listed::new(alloc),
        })
    }

    /// Puts a condition last, and answers its number.
    pub fn add_condition(&mut self, condition: Condition) -> Result<u32, AllocError>
        ensures number { IfOk result (λ number. number ≡ length (kept self.old).conditions) }
        ensures kept { OnOk result (kept self.new
            ≡ with_conditions (kept self.old) (plan.condition_of condition ∷ [])) }
    {
        let number = number_from(self.conditions.len())?;
        self.conditions.push(condition)?;
        Ok(number)
    }

    /// Puts a condition last, if there is one, and answers its number; else that of the condition which
    /// asks nothing.
    pub fn add_if_asked(&mut self, condition: Option<Condition>) -> Result<u32, AllocError>
        ensures number { IfOk result (λ number. number
            ≡ number_for (length (kept self.old).conditions) (option_map plan.condition_of condition)) }
        ensures kept { OnOk result (kept self.new
            ≡ with_conditions (kept self.old) (if_asked (option_map plan.condition_of condition))) }
    {
        match condition {
            Some(condition) => self.add_condition(condition),
            None => Ok(0),
        }
    }

    /// Puts a term last, and answers its number.
    pub fn add_term(&mut self, term: Term) -> Result<u32, AllocError>
        ensures number { IfOk result (λ number. number ≡ length (kept self.old).terms) }
        ensures kept { OnOk result (kept self.new ≡ with_terms (kept self.old) (plan.term_of term ∷ [])) }
    {
        let number = number_from(self.terms.len())?;
        self.terms.push(term)?;
        Ok(number)
    }

    /// The conditions and the terms.
    pub fn into_parts(self) -> (Listed<Condition>, Listed<Term>)
        ensures conditions { result.0 ≡ self.conditions }
        ensures terms { result.1 ≡ self.terms }
    {
        let Trees { conditions, terms } = self;
        (conditions, terms)
    }
}
