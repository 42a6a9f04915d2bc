//! All that stands in a dependency.

ghost use Rattle.std.specs.Prelude.{◌≡◌, ◌++◌, flat_map, map, IfOk, OnOk};
ghost use Rattle.vc_types.specs.Occurrences as occurrences;
ghost use Rattle.vc_types_meanings.specs.Borrowed.{tree_of};
ghost use Rattle.vc_types_meanings.specs.Seen.{seen};
ghost use Rattle.vc_types_occurrences.specs.Gathered.{AreParts, AreTerms, AreLeaves};
ghost use Rattle.vc_types_occurrences.specs.Met.{all_met};
ghost use Rattle.vc_types_occurrences.specs.Seen.{conditions_seen, relations_seen, calls_seen, terms_seen, leaves_seen};

use crate::conditions::{put_parted, put_relations};
use crate::statements::{
    put_condition, put_demanded_calls, put_demanded_relations, put_restriction_conditions,
    put_statement_calls, put_statement_conditions, put_statement_terms,
};
use crate::terms::{put_all_sides, put_all_summed, put_call_values, put_terms};
use crate::uses::{
    Use, put_all_specified, put_relations_uses, put_targets, put_terms_uses, put_values,
};
use std::alloc::{AllocError, Global};
use vc_syntax_tree::{Condition, NameLeaf, Relation, TableCall, Term};
use vc_types_meanings::{Setting, Tree};
use vc_value::Listed;

/// The conditions, relations and calls of tables of a dependency.
#[derive(Drop)]
pub struct Parts<'a> {
    pub conditions: Listed<&'a Condition>,
    pub relations: Listed<&'a Relation>,
    pub calls: Listed<&'a TableCall>,
}

/// The terms of a dependency.
#[derive(Drop)]
pub struct Given<'a> {
    /// Those that are no sides of relations.
    pub given: Listed<&'a Term>,
    pub all: Listed<&'a Term>,
}

/// The operands of a dependency, the variables of PART_OF and the characteristics of part sums.
#[derive(Drop)]
pub struct Leaves<'a> {
    pub uses: Listed<Use>,
    pub parted: Listed<&'a NameLeaf>,
    pub summed: Listed<&'a NameLeaf>,
}

fn put_conditions<'a>(out: &mut Listed<&'a Condition>, tree: Tree<'a>) -> Result<(), AllocError>
    ensures { OnOk result (conditions_seen out.new ≡ conditions_seen out.old
        ++ occurrences.conditions_in (tree_of tree.entry)) }
{
    match tree {
        Tree::Precondition(condition) => out.push(condition),
        Tree::Selection(condition) => out.push(condition),
        Tree::Procedure(statements) => put_statement_conditions(out, statements),
        Tree::Constraint(constraint) => {
            put_condition(out, &constraint.condition)?;
            put_restriction_conditions(out, constraint.restrictions.as_slice())
        }
        Tree::Term(_) => Ok(()),
    }
}

fn put_calls<'a>(out: &mut Listed<&'a TableCall>, tree: Tree<'a>) -> Result<(), AllocError>
    ensures { OnOk result (calls_seen out.new ≡ calls_seen out.old
        ++ occurrences.calls_in (tree_of tree.entry)) }
{
    match tree {
        Tree::Precondition(_) => Ok(()),
        Tree::Selection(_) => Ok(()),
        Tree::Procedure(statements) => put_statement_calls(out, statements),
        Tree::Constraint(constraint) => {
            put_demanded_calls(out, constraint.restrictions.as_slice())
        }
        Tree::Term(_) => Ok(()),
    }
}

/// Puts the relations that a constraint demands.
pub fn put_demanded<'a>(out: &mut Listed<&'a Relation>, tree: Tree<'a>) -> Result<(), AllocError>
    ensures { OnOk result (relations_seen out.new ≡ relations_seen out.old
        ++ occurrences.demanded_relations (tree_of tree.entry)) }
{
    match tree {
        Tree::Constraint(constraint) => {
            put_demanded_relations(out, constraint.restrictions.as_slice())
        }
        _ => Ok(()),
    }
}

fn put_own_terms<'a>(out: &mut Listed<&'a Term>, tree: Tree<'a>) -> Result<(), AllocError>
    ensures { OnOk result (terms_seen out.new ≡ terms_seen out.old
        ++ occurrences.own_terms (tree_of tree.entry)) }
{
    match tree {
        Tree::Procedure(statements) => put_statement_terms(out, statements),
        Tree::Term(term) => out.push(term),
        _ => Ok(()),
    }
}

fn put_other_names(out: &mut Listed<Use>, setting: &Setting, tree: Tree) -> Result<(), AllocError>
    ensures { OnOk result (out.new ≡ out.old ++ all_met (seen setting.now)
        (map occurrences.as_value (occurrences.other_names (tree_of tree.entry)))) }
{
    match tree {
        Tree::Procedure(statements) => put_targets(out, setting, statements),
        Tree::Constraint(constraint) => {
            put_values(out, setting, constraint.inferences.as_slice())
        }
        _ => Ok(()),
    }
}

/// Puts the relations of conditions.
pub fn put_all_relations<'a>(
    out: &mut Listed<&'a Relation>,
    conditions: &[&'a Condition],
) -> Result<(), AllocError>
    ensures { OnOk result (relations_seen out.new ≡ relations_seen out.old
        ++ flat_map occurrences.relations_of (conditions_seen conditions.now)) }
{
    for condition in conditions {
        put_relations(out, *condition)?;
    }
    Ok(())
}

fn put_all_parted<'a>(
    out: &mut Listed<&'a NameLeaf>,
    conditions: &[&'a Condition],
) -> Result<(), AllocError>
    ensures { OnOk result (leaves_seen out.new ≡ leaves_seen out.old
        ++ flat_map occurrences.parted_in (conditions_seen conditions.now)) }
{
    for condition in conditions {
        put_parted(out, *condition)?;
    }
    Ok(())
}

/// The conditions, relations and calls of a dependency.
pub fn gather_parts<'a>(alloc: Global, tree: Tree<'a>) -> Result<Parts<'a>, AllocError>
    ensures { IfOk result (λ parts. AreParts (tree_of tree.entry) parts) }
{
    let mut conditions = Listed::new(alloc);
    put_conditions(&mut conditions, tree)?;
    let mut relations = Listed::new(alloc);
    put_all_relations(&mut relations, conditions.as_slice())?;
    put_demanded(&mut relations, tree)?;
    let mut calls = Listed::new(alloc);
    put_calls(&mut calls, tree)?;
    Ok(Parts {
        conditions,
        relations,
        calls,
    })
}

/// The terms of a dependency that has these parts.
pub fn gather_terms<'a>(
    alloc: Global,
    tree: Tree<'a>,
    parts: &Parts<'a>,
) -> Result<Given<'a>, AllocError>
    requires { AreParts (tree_of tree) parts.now }
    ensures { IfOk result (λ terms. AreTerms (tree_of tree.entry) terms) }
{
    let mut given = Listed::new(alloc);
    put_own_terms(&mut given, tree)?;
    put_call_values(&mut given, parts.calls.as_slice())?;
    let mut all = Listed::new(alloc);
    put_all_sides(&mut all, parts.relations.as_slice())?;
    put_terms(&mut all, given.as_slice())?;
    Ok(Given { given, all })
}

fn gather_uses(
    alloc: Global,
    setting: &Setting,
    tree: Tree,
    parts: &Parts,
    terms: &Given,
) -> Result<Listed<Use>, AllocError>
    requires parts { AreParts (tree_of tree) parts.now }
    requires terms { AreTerms (tree_of tree) terms.now }
    ensures { IfOk result (λ uses. uses ≡ all_met (seen setting.now) (occurrences.uses_in (tree_of tree.entry))) }
{
    let mut uses = Listed::new(alloc);
    put_relations_uses(&mut uses, setting, parts.relations.as_slice())?;
    put_all_specified(&mut uses, setting, parts.conditions.as_slice())?;
    put_terms_uses(&mut uses, setting, terms.given.as_slice())?;
    put_other_names(&mut uses, setting, tree)?;
    Ok(uses)
}

/// The operands and names of a dependency that has these parts and terms.
pub fn gather_leaves<'a>(
    alloc: Global,
    setting: &Setting,
    tree: Tree,
    parts: &Parts<'a>,
    terms: &Given<'a>,
) -> Result<Leaves<'a>, AllocError>
    requires parts { AreParts (tree_of tree) parts.now }
    requires terms { AreTerms (tree_of tree) terms.now }
    ensures { IfOk result (λ leaves. AreLeaves (seen setting.now) (tree_of tree.entry) leaves) }
{
    let uses = gather_uses(alloc, setting, tree, parts, terms)?;
    let mut parted = Listed::new(alloc);
    put_all_parted(&mut parted, parts.conditions.as_slice())?;
    let mut summed = Listed::new(alloc);
    put_all_summed(&mut summed, terms.all.as_slice())?;
    Ok(Leaves {
        uses,
        parted,
        summed,
    })
}
