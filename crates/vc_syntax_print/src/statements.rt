//! The lexemes of the statements of procedures and of the demands of constraints.

ghost use Rattle.std.specs.Prelude.{◌≡◌, ◌++◌, ◌∷◌, [], map, option_map, OnOk};
ghost use Rattle.vc_syntax_tokens.specs.declared.token.Lexeme.TheVariants as lexemes;
ghost use Rattle.vc_syntax_tokens.specs.declared.token.Sign.TheVariants as signs;
ghost use Rattle.vc_syntax_tokens.specs.declared.token.Dollar.TheVariants as dollars;
ghost use Rattle.vc_syntax_tokens.specs.declared.token.Reserved.TheVariants as words;
ghost use Rattle.vc_syntax_tree.specs.Trees.{term_of, condition_of, binding_of, table_call_of, action_of};
ghost use Rattle.vc_syntax_tree.specs.Trees.{statement_of, demand_of, restriction_of};
ghost use Rattle.vc_syntax_print.specs.TermLexemes.{wrapped, term_lexemes};
ghost use Rattle.vc_syntax_print.specs.ConditionLexemes.{each_behind, separated};
ghost use Rattle.vc_syntax_print.specs.StatementLexemes as prints;

use crate::conditions::{put_condition, put_relation};
use crate::leaves::{put_any_name, put_dollar, put_name, put_sign, put_word};
use crate::terms::{put_self_and_name, put_term};
use std::alloc::{AllocError, Global};
use vc_syntax_tokens::token::{Dollar, Lexeme, Reserved, Sign};
use vc_syntax_tree::{
    Action, Binding, Condition, Demand, NameLeaf, Restriction, Statement, TableCall, Term,
};
use vc_value::Listed;

fn put_assigned(
    alloc: Global,
    out: &mut Listed<Lexeme>,
    name: &NameLeaf,
    term: &Term,
) -> Result<(), AllocError>
    ensures { OnOk result (out.new ≡ out.old
        ++ lexemes.Name name.now.name ∷ lexemes.Sign signs.Equal ∷ term_lexemes (term_of term.now)) }
{
    put_name(alloc, out, name)?;
    put_sign(out, Sign::Equal)?;
    put_term(alloc, out, term)
}

fn put_binding(alloc: Global, out: &mut Listed<Lexeme>, binding: &Binding) -> Result<(), AllocError>
    ensures { OnOk result (out.new ≡ out.old ++ prints.binding_lexemes (binding_of binding.now)) }
{
    put_assigned(alloc, out, &binding.column, &binding.value)
}

fn put_bindings_behind(
    alloc: Global,
    out: &mut Listed<Lexeme>,
    bindings: &[Binding],
) -> Result<(), AllocError>
    ensures { OnOk result (out.new ≡ out.old
        ++ each_behind signs.Comma prints.binding_lexemes (map binding_of bindings.now)) }
{
    let mut rest = bindings;
    while let [binding, more @ ..] = rest {
        put_sign(out, Sign::Comma)?;
        put_binding(alloc, out, binding)?;
        rest = more;
    }
    Ok(())
}

fn put_bindings(
    alloc: Global,
    out: &mut Listed<Lexeme>,
    bindings: &[Binding],
) -> Result<(), AllocError>
    ensures { OnOk result (out.new ≡ out.old
        ++ separated signs.Comma prints.binding_lexemes (map binding_of bindings.now)) }
{
    match bindings {
        [binding, more @ ..] => {
            put_binding(alloc, out, binding)?;
            put_bindings_behind(alloc, out, more)
        }
        [] => Ok(()),
    }
}

fn put_wrapped_bindings(
    alloc: Global,
    out: &mut Listed<Lexeme>,
    bindings: &[Binding],
) -> Result<(), AllocError>
    ensures { OnOk result (out.new ≡ out.old
        ++ wrapped (separated signs.Comma prints.binding_lexemes (map binding_of bindings.now))) }
{
    put_sign(out, Sign::OpenParen)?;
    put_bindings(alloc, out, bindings)?;
    put_sign(out, Sign::CloseParen)
}

fn put_call(alloc: Global, out: &mut Listed<Lexeme>, call: &TableCall) -> Result<(), AllocError>
    ensures { OnOk result (out.new ≡ out.old ++ prints.call_lexemes (table_call_of call.now)) }
{
    put_word(out, Reserved::Table)?;
    put_any_name(alloc, out, &call.table)?;
    put_wrapped_bindings(alloc, out, call.bindings.as_slice())
}

fn put_comma_term(alloc: Global, out: &mut Listed<Lexeme>, term: &Term) -> Result<(), AllocError>
    ensures { OnOk result (out.new ≡ out.old
        ++ lexemes.Sign signs.Comma ∷ (term_lexemes (term_of term.now) ++ lexemes.Sign signs.CloseParen ∷ [])) }
{
    put_sign(out, Sign::Comma)?;
    put_term(alloc, out, term)?;
    put_sign(out, Sign::CloseParen)
}

fn put_default(
    alloc: Global,
    out: &mut Listed<Lexeme>,
    name: &NameLeaf,
    term: &Term,
) -> Result<(), AllocError>
    ensures { OnOk result (out.new ≡ out.old ++ prints.default_lexemes name.now (term_of term.now)) }
{
    put_self_and_name(alloc, out, name)?;
    put_comma_term(alloc, out, term)
}

// Puts `$SELF.`.
fn put_self_dot(out: &mut Listed<Lexeme>) -> Result<(), AllocError>
    ensures { OnOk result (out.new ≡ out.old ++ lexemes.Dollar dollars.Itself ∷ lexemes.Sign signs.Dot ∷ []) }
{
    put_dollar(out, Dollar::Itself)?;
    put_sign(out, Sign::Dot)
}

fn put_action(alloc: Global, out: &mut Listed<Lexeme>, action: &Action) -> Result<(), AllocError>
    ensures { OnOk result (out.new ≡ out.old ++ prints.action_lexemes (action_of action.now)) }
{
    match action {
        Action::Assign(name, term) => {
            put_self_dot(out)?;
            put_assigned(alloc, out, name, term)
        }
        Action::SetDefault(name, term) => {
            put_dollar(out, Dollar::SetDefault)?;
            put_default(alloc, out, name, term)
        }
        Action::DelDefault(name, term) => {
            put_dollar(out, Dollar::DelDefault)?;
            put_default(alloc, out, name, term)
        }
        Action::Table(call) => put_call(alloc, out, call.get()),
    }
}

fn put_if(
    alloc: Global,
    out: &mut Listed<Lexeme>,
    condition: &Option<Box<Condition>>,
) -> Result<(), AllocError>
    ensures { OnOk result (out.new ≡ out.old
        ++ prints.if_lexemes (option_map (λ boxed. condition_of boxed.value) condition.now)) }
{
    match condition {
        Some(condition) => {
            put_word(out, Reserved::If)?;
            put_condition(alloc, out, condition)
        }
        None => Ok(()),
    }
}

/// Puts a statement.
pub fn put_statement(
    alloc: Global,
    out: &mut Listed<Lexeme>,
    statement: &Statement,
) -> Result<(), AllocError>
    ensures { OnOk result (out.new ≡ out.old ++ prints.statement_lexemes (statement_of statement.now)) }
{
    put_action(alloc, out, &statement.action)?;
    put_if(alloc, out, &statement.condition)
}

fn put_statements_behind(
    alloc: Global,
    out: &mut Listed<Lexeme>,
    statements: &[Statement],
) -> Result<(), AllocError>
    ensures { OnOk result (out.new ≡ out.old
        ++ each_behind signs.Comma prints.statement_lexemes (map statement_of statements.now)) }
{
    let mut rest = statements;
    while let [statement, more @ ..] = rest {
        put_sign(out, Sign::Comma)?;
        put_statement(alloc, out, statement)?;
        rest = more;
    }
    Ok(())
}

/// Puts statements, a comma between two.
pub fn put_statements(
    alloc: Global,
    out: &mut Listed<Lexeme>,
    statements: &[Statement],
) -> Result<(), AllocError>
    ensures { OnOk result (out.new ≡ out.old
        ++ separated signs.Comma prints.statement_lexemes (map statement_of statements.now)) }
{
    match statements {
        [statement, more @ ..] => {
            put_statement(alloc, out, statement)?;
            put_statements_behind(alloc, out, more)
        }
        [] => Ok(()),
    }
}

fn put_demand(alloc: Global, out: &mut Listed<Lexeme>, demand: &Demand) -> Result<(), AllocError>
    ensures { OnOk result (out.new ≡ out.old ++ prints.demand_lexemes (demand_of demand.now)) }
{
    match demand {
        Demand::Relation(relation) => put_relation(alloc, out, relation),
        Demand::Table(call) => put_call(alloc, out, call.get()),
        Demand::False => put_word(out, Reserved::False),
    }
}

/// Puts a restriction.
pub fn put_restriction(
    alloc: Global,
    out: &mut Listed<Lexeme>,
    restriction: &Restriction,
) -> Result<(), AllocError>
    ensures { OnOk result (out.new ≡ out.old ++ prints.restriction_lexemes (restriction_of restriction.now)) }
{
    put_demand(alloc, out, &restriction.demand)?;
    put_if(alloc, out, &restriction.condition)
}

fn put_restrictions_behind(
    alloc: Global,
    out: &mut Listed<Lexeme>,
    restrictions: &[Restriction],
) -> Result<(), AllocError>
    ensures { OnOk result (out.new ≡ out.old
        ++ each_behind signs.Comma prints.restriction_lexemes (map restriction_of restrictions.now)) }
{
    let mut rest = restrictions;
    while let [restriction, more @ ..] = rest {
        put_sign(out, Sign::Comma)?;
        put_restriction(alloc, out, restriction)?;
        rest = more;
    }
    Ok(())
}

/// Puts restrictions, a comma between two.
pub fn put_restrictions(
    alloc: Global,
    out: &mut Listed<Lexeme>,
    restrictions: &[Restriction],
) -> Result<(), AllocError>
    ensures { OnOk result (out.new ≡ out.old
        ++ separated signs.Comma prints.restriction_lexemes (map restriction_of restrictions.now)) }
{
    match restrictions {
        [restriction, more @ ..] => {
            put_restriction(alloc, out, restriction)?;
            put_restrictions_behind(alloc, out, more)
        }
        [] => Ok(()),
    }
}
