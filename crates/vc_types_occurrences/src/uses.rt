//! The operands of a dependency, with what they mean.

ghost use Rattle.std.specs.Prelude.{◌≡◌, ◌++◌, ◌∷◌, [], true, map, flat_map, OnOk};
ghost use Rattle.vc_syntax_tree.specs.Trees.{term_of, relation_of, condition_of, action_of, statement_of};
ghost use Rattle.vc_syntax_tree.specs.declared.Operand.TheVariants.{Owned};
ghost use Rattle.vc_syntax_tree.specs.declared.Owner.TheVariants.{Itself};
ghost use Rattle.vc_types.specs.Occurrences as occurrences;
ghost use Rattle.vc_types_meanings.specs.Seen.{seen};
ghost use Rattle.vc_types_occurrences.specs.Met.{met, all_met};
ghost use Rattle.vc_types_occurrences.specs.Seen.{conditions_seen, relations_seen, terms_seen};

use crate::terms::{is_equality, is_literal};
use std::alloc::AllocError;
use vc_syntax_tree::{Action, Condition, NameLeaf, Operand, Relation, Statement, Term};
use vc_types::Meaning;
use vc_types_meanings::Setting;
use vc_value::Listed;

/// What an operand means, and whether a set of texts may stand there.
#[derive(Clone, Copy, Debug, PartialEq, Eq)]
pub struct Use {
    pub meaning: Meaning,
    pub for_set: bool,
}

fn put_value(out: &mut Listed<Use>, setting: &Setting, operand: &Operand) -> Result<(), AllocError>
    ensures { OnOk result (out.new ≡ out.old ++ met (seen setting.now) (occurrences.as_value operand.now) ∷ []) }
{
    let meaning = setting.meaning(operand);
    out.push(Use {
        meaning,
        for_set: false,
    })
}

fn put_set(out: &mut Listed<Use>, setting: &Setting, operand: &Operand) -> Result<(), AllocError>
    ensures { OnOk result (out.new ≡ out.old ++ met (seen setting.now) (occurrences.as_set operand.now) ∷ []) }
{
    let meaning = setting.meaning(operand);
    out.push(Use {
        meaning,
        for_set: true,
    })
}

// Puts the operands of a term, each for a single value.
#[tactic(auto, using(crate::proofs::UseLemmas::joins))]
fn put_term_uses(out: &mut Listed<Use>, setting: &Setting, term: &Term) -> Result<(), AllocError>
    ensures { OnOk result (out.new ≡ out.old ++ all_met (seen setting.now)
        (occurrences.uses_of_term (term_of term.now))) }
{
    match term {
        Term::Number(_) => Ok(()),
        Term::Text(_) => Ok(()),
        Term::Operand(operand) => put_value(out, setting, operand),
        Term::Negated(inner) => put_term_uses(out, setting, inner),
        Term::Combined(left, _, right) => {
            put_term_uses(out, setting, left)?;
            put_term_uses(out, setting, right)
        }
        Term::Applied(_, inner) => put_term_uses(out, setting, inner),
        Term::SumOfParts(_) => Ok(()),
        Term::CountOfParts => Ok(()),
    }
}

fn put_set_or_term(out: &mut Listed<Use>, setting: &Setting, term: &Term) -> Result<(), AllocError>
    ensures { OnOk result (out.new ≡ out.old ++ all_met (seen setting.now)
        (occurrences.uses_of_left true (term_of term.now))) }
{
    match term {
        Term::Operand(operand) => put_set(out, setting, operand),
        _ => put_term_uses(out, setting, term),
    }
}

// Puts the operands of a left side, where a set may stand for one alone.
fn put_left_uses(
    out: &mut Listed<Use>,
    setting: &Setting,
    for_set: bool,
    term: &Term,
) -> Result<(), AllocError>
    ensures { OnOk result (out.new ≡ out.old ++ all_met (seen setting.now)
        (occurrences.uses_of_left for_set (term_of term.now))) }
{
    if for_set {
        put_set_or_term(out, setting, term)
    } else {
        put_term_uses(out, setting, term)
    }
}

#[tactic(auto, using(crate::proofs::UseLemmas::joins))]
fn put_relation_uses(
    out: &mut Listed<Use>,
    setting: &Setting,
    relation: &Relation,
) -> Result<(), AllocError>
    ensures { OnOk result (out.new ≡ out.old ++ all_met (seen setting.now)
        (occurrences.uses_of_relation (relation_of relation.now))) }
{
    match relation {
        Relation::Compared(left, relator, right) => {
            let for_set = is_equality(*relator) && is_literal(right);
            put_left_uses(out, setting, for_set, left)?;
            put_term_uses(out, setting, right)
        }
        Relation::Within(operand, _) => put_set(out, setting, operand.get()),
    }
}

/// Puts the operands of relations.
#[tactic(auto, using(crate::proofs::UseLemmas::joins))]
pub fn put_relations_uses(
    out: &mut Listed<Use>,
    setting: &Setting,
    relations: &[&Relation],
) -> Result<(), AllocError>
    ensures { OnOk result (out.new ≡ out.old
        ++ all_met (seen setting.now) (flat_map occurrences.uses_of_relation (relations_seen relations.now))) }
{
    for relation in relations {
        put_relation_uses(out, setting, *relation)?;
    }
    Ok(())
}

#[tactic(auto, using(crate::proofs::UseLemmas::joins))]
fn put_specified(
    out: &mut Listed<Use>,
    setting: &Setting,
    condition: &Condition,
) -> Result<(), AllocError>
    ensures { OnOk result (out.new ≡ out.old
        ++ all_met (seen setting.now) (map occurrences.as_set
        (occurrences.specified_in (condition_of condition.now)))) }
{
    match condition {
        Condition::Or(left, right) => {
            put_specified(out, setting, left)?;
            put_specified(out, setting, right)
        }
        Condition::And(left, right) => {
            put_specified(out, setting, left)?;
            put_specified(out, setting, right)
        }
        Condition::Not(inner) => put_specified(out, setting, inner),
        Condition::Relation(_) => Ok(()),
        Condition::Specified(operand) => put_set(out, setting, operand),
        Condition::PartOf(_, _) => Ok(()),
    }
}

/// Puts what SPECIFIED asks for in conditions.
#[tactic(auto, using(crate::proofs::UseLemmas::joins))]
pub fn put_all_specified(
    out: &mut Listed<Use>,
    setting: &Setting,
    conditions: &[&Condition],
) -> Result<(), AllocError>
    ensures { OnOk result (out.new ≡ out.old
        ++ all_met (seen setting.now) (map occurrences.as_set
        (flat_map occurrences.specified_in (conditions_seen conditions.now)))) }
{
    for condition in conditions {
        put_specified(out, setting, *condition)?;
    }
    Ok(())
}

/// Puts the operands of terms, each for a single value.
#[tactic(auto, using(crate::proofs::UseLemmas::joins))]
pub fn put_terms_uses(
    out: &mut Listed<Use>,
    setting: &Setting,
    terms: &[&Term],
) -> Result<(), AllocError>
    ensures { OnOk result (out.new ≡ out.old
        ++ all_met (seen setting.now) (flat_map occurrences.uses_of_term (terms_seen terms.now))) }
{
    for term in terms {
        put_term_uses(out, setting, *term)?;
    }
    Ok(())
}

fn put_own(out: &mut Listed<Use>, setting: &Setting, name: &NameLeaf) -> Result<(), AllocError>
    ensures { OnOk result (out.new ≡ out.old ++ met (seen setting.now)
        (occurrences.as_value (Owned Itself name.now)) ∷ []) }
{
    let meaning = setting.own_meaning(name);
    out.push(Use {
        meaning,
        for_set: false,
    })
}

fn put_target(out: &mut Listed<Use>, setting: &Setting, action: &Action) -> Result<(), AllocError>
    ensures { OnOk result (out.new ≡ out.old
        ++ all_met (seen setting.now) (map occurrences.as_value (occurrences.target_of (action_of action.now)))) }
{
    match action {
        Action::Assign(name, _) => put_own(out, setting, name),
        Action::SetDefault(name, _) => put_own(out, setting, name),
        Action::DelDefault(name, _) => put_own(out, setting, name),
        Action::Table(_) => Ok(()),
    }
}

/// Puts what statements write to.
#[tactic(auto, using(crate::proofs::UseLemmas::joins))]
pub fn put_targets(
    out: &mut Listed<Use>,
    setting: &Setting,
    statements: &[Statement],
) -> Result<(), AllocError>
    ensures { OnOk result (out.new ≡ out.old ++ all_met (seen setting.now)
        (map occurrences.as_value (flat_map (λ statement. occurrences.target_of statement.action)
        (map statement_of statements.now)))) }
{
    for statement in statements {
        put_target(out, setting, &statement.action)?;
    }
    Ok(())
}

/// Puts operands, each for a single value.
#[tactic(auto, using(crate::proofs::UseLemmas::joins))]
pub fn put_values(
    out: &mut Listed<Use>,
    setting: &Setting,
    operands: &[Operand],
) -> Result<(), AllocError>
    ensures { OnOk result (out.new ≡ out.old ++ all_met (seen setting.now) (map occurrences.as_value operands.now)) }
{
    for operand in operands {
        put_value(out, setting, operand)?;
    }
    Ok(())
}
