//! The texts that dependencies name, each time, in the order of the model.

ghost use Rattle.std.specs.Prelude.{◌≡◌, ◌++◌, map, flat_map, option_map, OnOk};
ghost use Rattle.vc_syntax_tree.specs.Trees.{action_of, binding_of, condition_of, demand_of, dependency_of};
ghost use Rattle.vc_syntax_tree.specs.Trees.{relation_of, restriction_of, statement_of, table_call_of, term_of};
ghost use Rattle.vc_types.specs.Occurrences.{if_there};
ghost use Rattle.vc_compile_plan.specs.Texts as texts;
ghost use Rattle.vc_compile_uses.specs.Growing.{texts_seen};

use std::alloc::AllocError;
use vc_model_parts::NamedDependency;
use vc_syntax_tree::{
    Action, Binding, Condition, Demand, Dependency, Item, Relation, Restriction, Statement,
    TableCall, Term,
};
use vc_value::Listed;

fn put_term<'a>(out: &mut Listed<&'a [u8]>, term: &'a Term) -> Result<(), AllocError>
    ensures { OnOk result (texts_seen out.new ≡ texts_seen out.old ++ texts.texts_in_term (term_of term.now)) }
{
    match term {
        Term::Number(_) => Ok(()),
        Term::Text(leaf) => out.push(leaf.text.bytes()),
        Term::Operand(_) => Ok(()),
        Term::Negated(inner) => put_term(out, inner),
        Term::Combined(left, _, right) => {
            put_term(out, left)?;
            put_term(out, right)
        }
        Term::Applied(_, inner) => put_term(out, inner),
        Term::SumOfParts(_) => Ok(()),
        Term::CountOfParts => Ok(()),
    }
}

fn put_item<'a>(out: &mut Listed<&'a [u8]>, item: &'a Item) -> Result<(), AllocError>
    ensures { OnOk result (texts_seen out.new ≡ texts_seen out.old ++ texts.texts_in_item item.now) }
{
    match item {
        Item::Text(leaf) => out.push(leaf.text.bytes()),
        Item::Number(_) => Ok(()),
        Item::Interval(_, _) => Ok(()),
    }
}

fn put_items<'a>(out: &mut Listed<&'a [u8]>, items: &'a [Item]) -> Result<(), AllocError>
    ensures { OnOk result (texts_seen out.new ≡ texts_seen out.old ++ flat_map texts.texts_in_item items.now) }
{
    for item in items {
        put_item(out, item)?;
    }
    Ok(())
}

fn put_relation<'a>(out: &mut Listed<&'a [u8]>, relation: &'a Relation) -> Result<(), AllocError>
    ensures { OnOk result (texts_seen out.new ≡ texts_seen out.old
        ++ texts.texts_in_relation (relation_of relation.now)) }
{
    match relation {
        Relation::Compared(left, _, right) => {
            put_term(out, left)?;
            put_term(out, right)
        }
        Relation::Within(_, items) => put_items(out, items.as_slice()),
    }
}

fn put_condition<'a>(out: &mut Listed<&'a [u8]>, condition: &'a Condition) -> Result<(), AllocError>
    ensures { OnOk result (texts_seen out.new ≡ texts_seen out.old
        ++ texts.texts_in_condition (condition_of condition.now)) }
{
    match condition {
        Condition::Or(left, right) => {
            put_condition(out, left)?;
            put_condition(out, right)
        }
        Condition::And(left, right) => {
            put_condition(out, left)?;
            put_condition(out, right)
        }
        Condition::Not(inner) => put_condition(out, inner),
        Condition::Relation(relation) => put_relation(out, relation),
        Condition::Specified(_) => Ok(()),
        Condition::PartOf(_, _) => Ok(()),
    }
}

fn put_condition_if<'a>(
    out: &mut Listed<&'a [u8]>,
    condition: &'a Option<Box<Condition>>,
) -> Result<(), AllocError>
    ensures { OnOk result (texts_seen out.new ≡ texts_seen out.old
        ++ if_there texts.texts_in_condition (option_map (λ boxed. condition_of boxed.value) condition.now)) }
{
    match condition {
        Some(condition) => put_condition(out, condition),
        None => Ok(()),
    }
}

fn put_bindings<'a>(out: &mut Listed<&'a [u8]>, bindings: &'a [Binding]) -> Result<(), AllocError>
    ensures { OnOk result (texts_seen out.new ≡ texts_seen out.old
        ++ flat_map (λ binding. texts.texts_in_term binding.value) (map binding_of bindings.now)) }
{
    for binding in bindings {
        put_term(out, &binding.value)?;
    }
    Ok(())
}

fn put_call<'a>(out: &mut Listed<&'a [u8]>, call: &'a TableCall) -> Result<(), AllocError>
    ensures { OnOk result (texts_seen out.new ≡ texts_seen out.old ++ texts.texts_in_call (table_call_of call.now)) }
{
    put_bindings(out, call.bindings.as_slice())
}

fn put_action<'a>(out: &mut Listed<&'a [u8]>, action: &'a Action) -> Result<(), AllocError>
    ensures { OnOk result (texts_seen out.new ≡ texts_seen out.old ++ texts.texts_in_action (action_of action.now)) }
{
    match action {
        Action::Assign(_, term) => put_term(out, term),
        Action::SetDefault(_, term) => put_term(out, term),
        Action::DelDefault(_, term) => put_term(out, term),
        Action::Table(call) => put_call(out, call.get()),
    }
}

fn put_statement<'a>(out: &mut Listed<&'a [u8]>, statement: &'a Statement) -> Result<(), AllocError>
    ensures { OnOk result (texts_seen out.new ≡ texts_seen out.old
        ++ texts.texts_in_statement (statement_of statement.now)) }
{
    put_action(out, &statement.action)?;
    put_condition_if(out, &statement.condition)
}

fn put_statements<'a>(
    out: &mut Listed<&'a [u8]>,
    statements: &'a [Statement],
) -> Result<(), AllocError>
    ensures { OnOk result (texts_seen out.new ≡ texts_seen out.old
        ++ flat_map texts.texts_in_statement (map statement_of statements.now)) }
{
    for statement in statements {
        put_statement(out, statement)?;
    }
    Ok(())
}

fn put_demand<'a>(out: &mut Listed<&'a [u8]>, demand: &'a Demand) -> Result<(), AllocError>
    ensures { OnOk result (texts_seen out.new ≡ texts_seen out.old ++ texts.texts_in_demand (demand_of demand.now)) }
{
    match demand {
        Demand::Relation(relation) => put_relation(out, relation),
        Demand::Table(call) => put_call(out, call.get()),
        Demand::False => Ok(()),
    }
}

fn put_restriction<'a>(
    out: &mut Listed<&'a [u8]>,
    restriction: &'a Restriction,
) -> Result<(), AllocError>
    ensures { OnOk result (texts_seen out.new ≡ texts_seen out.old
        ++ texts.texts_in_restriction (restriction_of restriction.now)) }
{
    put_demand(out, &restriction.demand)?;
    put_condition_if(out, &restriction.condition)
}

fn put_restrictions<'a>(
    out: &mut Listed<&'a [u8]>,
    restrictions: &'a [Restriction],
) -> Result<(), AllocError>
    ensures { OnOk result (texts_seen out.new ≡ texts_seen out.old
        ++ flat_map texts.texts_in_restriction (map restriction_of restrictions.now)) }
{
    for restriction in restrictions {
        put_restriction(out, restriction)?;
    }
    Ok(())
}

fn put_dependency<'a>(
    out: &mut Listed<&'a [u8]>,
    dependency: &'a Dependency,
) -> Result<(), AllocError>
    ensures { OnOk result (texts_seen out.new ≡ texts_seen out.old
        ++ texts.texts_in (dependency_of dependency.now)) }
{
    match dependency {
        Dependency::Precondition(condition) => put_condition(out, condition),
        Dependency::Selection(condition) => put_condition(out, condition),
        Dependency::Procedure(statements) => put_statements(out, statements.as_slice()),
        Dependency::Constraint(constraint) => {
            put_condition_if(out, &constraint.condition)?;
            put_restrictions(out, constraint.restrictions.as_slice())
        }
        Dependency::Term(term) => put_term(out, term),
    }
}

/// Puts the texts that dependencies name.
pub fn put_mentions<'a>(
    out: &mut Listed<&'a [u8]>,
    dependencies: &'a [NamedDependency],
) -> Result<(), AllocError>
    ensures { OnOk result (texts_seen out.new ≡ texts_seen out.old
        ++ flat_map (λ named. texts.texts_in (dependency_of named.tree)) dependencies.now) }
{
    for named in dependencies {
        put_dependency(out, &named.tree)?;
    }
    Ok(())
}
