//! The variables that rules may narrow, and those that terms are.

ghost use Rattle.std.specs.Prelude.{◌≡◌};
ghost use Rattle.vc_plan.specs.Restrictions.{is_inferred, lone, lone_inferred};

use vc_plan::{Plan, Rule, Term, element};

/// Whether the rule may narrow the variable.
pub fn is_inferred(rule: &Rule, var: u32) -> bool
    ensures { result ≡ is_inferred rule.now var }
{
    rule.inferred.as_slice().iter().any(|other| *other == var)
}

/// The variable that the term is, if it is one alone.
pub fn lone(plan: &Plan, term: u32) -> Option<u32>
    ensures { result ≡ lone plan.now term }
{
    match element(plan.terms.as_slice(), term) {
        Some(Term::Read(var)) => Some(*var),
        _ => None,
    }
}

/// The variable that the term is, if it is one alone that the rule may narrow.
pub fn lone_inferred(plan: &Plan, rule: &Rule, term: u32) -> Option<u32>
    ensures { result ≡ lone_inferred plan.now rule.now term }
{
    match lone(plan, term) {
        Some(var) if is_inferred(rule, var) => Some(var),
        _ => None,
    }
}
