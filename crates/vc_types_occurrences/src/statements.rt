//! What stands in the statements of a procedure and the restrictions of a constraint.

ghost use Rattle.std.specs.Prelude.{◌≡◌, ◌∷◌, [], ◌++◌, map, flat_map, option_map, OnOk};
ghost use Rattle.vc_syntax_tree.specs.Trees.{condition_of, action_of, demand_of, statement_of, restriction_of};
ghost use Rattle.vc_types.specs.Occurrences as occurrences;
ghost use Rattle.vc_types_occurrences.specs.Seen.{conditions_seen, relations_seen, calls_seen, terms_seen};

use std::alloc::AllocError;
use vc_syntax_tree::{
    Action, Condition, Demand, Relation, Restriction, Statement, TableCall, Term,
};
use vc_value::Listed;

/// Puts a condition, if there is one.
pub fn put_condition<'a>(
    out: &mut Listed<&'a Condition>,
    condition: &'a Option<Box<Condition>>,
) -> Result<(), AllocError>
    ensures { OnOk result (conditions_seen out.new ≡ conditions_seen out.old
        ++ occurrences.if_there (λ c. c ∷ []) (option_map (λ boxed. condition_of boxed.value) condition.now)) }
{
    match condition {
        Some(condition) => out.push(condition),
        None => Ok(()),
    }
}

/// Puts the conditions of statements.
pub fn put_statement_conditions<'a>(
    out: &mut Listed<&'a Condition>,
    statements: &'a [Statement],
) -> Result<(), AllocError>
    ensures { OnOk result (conditions_seen out.new ≡ conditions_seen out.old
        ++ flat_map occurrences.condition_of_statement (map statement_of statements.now)) }
{
    for statement in statements {
        put_condition(out, &statement.condition)?;
    }
    Ok(())
}

/// Puts the conditions of restrictions.
pub fn put_restriction_conditions<'a>(
    out: &mut Listed<&'a Condition>,
    restrictions: &'a [Restriction],
) -> Result<(), AllocError>
    ensures { OnOk result (conditions_seen out.new ≡ conditions_seen out.old
        ++ flat_map occurrences.condition_of_restriction (map restriction_of restrictions.now)) }
{
    for restriction in restrictions {
        put_condition(out, &restriction.condition)?;
    }
    Ok(())
}

fn put_demanded<'a>(out: &mut Listed<&'a Relation>, demand: &'a Demand) -> Result<(), AllocError>
    ensures { OnOk result (relations_seen out.new ≡ relations_seen out.old
        ++ occurrences.relation_of_demand (demand_of demand.now)) }
{
    match demand {
        Demand::Relation(relation) => out.push(relation),
        Demand::Table(_) => Ok(()),
        Demand::False => Ok(()),
    }
}

/// Puts the relations that restrictions demand.
pub fn put_demanded_relations<'a>(
    out: &mut Listed<&'a Relation>,
    restrictions: &'a [Restriction],
) -> Result<(), AllocError>
    ensures { OnOk result (relations_seen out.new ≡ relations_seen out.old
        ++ flat_map (λ restriction. occurrences.relation_of_demand restriction.demand)
        (map restriction_of restrictions.now)) }
{
    for restriction in restrictions {
        put_demanded(out, &restriction.demand)?;
    }
    Ok(())
}

fn put_action_call<'a>(
    out: &mut Listed<&'a TableCall>,
    action: &'a Action,
) -> Result<(), AllocError>
    ensures { OnOk result (calls_seen out.new ≡ calls_seen out.old ++ occurrences.call_of_action
        (action_of action.now)) }
{
    match action {
        Action::Assign(_, _) => Ok(()),
        Action::SetDefault(_, _) => Ok(()),
        Action::DelDefault(_, _) => Ok(()),
        Action::Table(call) => out.push(call.get()),
    }
}

/// Puts the calls of tables in statements.
pub fn put_statement_calls<'a>(
    out: &mut Listed<&'a TableCall>,
    statements: &'a [Statement],
) -> Result<(), AllocError>
    ensures { OnOk result (calls_seen out.new ≡ calls_seen out.old
        ++ flat_map (λ statement. occurrences.call_of_action statement.action) (map statement_of statements.now)) }
{
    for statement in statements {
        put_action_call(out, &statement.action)?;
    }
    Ok(())
}

fn put_demanded_call<'a>(
    out: &mut Listed<&'a TableCall>,
    demand: &'a Demand,
) -> Result<(), AllocError>
    ensures { OnOk result (calls_seen out.new ≡ calls_seen out.old ++ occurrences.call_of_demand
        (demand_of demand.now)) }
{
    match demand {
        Demand::Relation(_) => Ok(()),
        Demand::Table(call) => out.push(call.get()),
        Demand::False => Ok(()),
    }
}

/// Puts the calls of tables that restrictions demand.
pub fn put_demanded_calls<'a>(
    out: &mut Listed<&'a TableCall>,
    restrictions: &'a [Restriction],
) -> Result<(), AllocError>
    ensures { OnOk result (calls_seen out.new ≡ calls_seen out.old
        ++ flat_map (λ restriction. occurrences.call_of_demand restriction.demand)
        (map restriction_of restrictions.now)) }
{
    for restriction in restrictions {
        put_demanded_call(out, &restriction.demand)?;
    }
    Ok(())
}

fn put_action_term<'a>(out: &mut Listed<&'a Term>, action: &'a Action) -> Result<(), AllocError>
    ensures { OnOk result (terms_seen out.new ≡ terms_seen out.old ++ occurrences.term_of_action
        (action_of action.now)) }
{
    match action {
        Action::Assign(_, term) => out.push(term),
        Action::SetDefault(_, term) => out.push(term),
        Action::DelDefault(_, term) => out.push(term),
        Action::Table(_) => Ok(()),
    }
}

/// Puts the terms that statements give.
pub fn put_statement_terms<'a>(
    out: &mut Listed<&'a Term>,
    statements: &'a [Statement],
) -> Result<(), AllocError>
    ensures { OnOk result (terms_seen out.new ≡ terms_seen out.old
        ++ flat_map (λ statement. occurrences.term_of_action statement.action) (map statement_of statements.now)) }
{
    for statement in statements {
        put_action_term(out, &statement.action)?;
    }
    Ok(())
}
