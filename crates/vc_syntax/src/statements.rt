//! The statements of procedures and the demands of constraints, read from tokens.

ghost use Rattle.std.specs.Prelude.{◌≡◌, map, option_map};
ghost use Rattle.vc_syntax_terms.specs.Reading.{Gives, made, grouped, listed};
ghost use Rattle.vc_syntax.specs.StatementReading as reads;
ghost use Rattle.vc_syntax_tree.specs.Trees as trees;
ghost use Rattle.vc_syntax_tree.specs.Trees.{term_of, condition_of, binding_of, table_call_of, action_of};
ghost use Rattle.vc_syntax_tree.specs.Trees.{statement_of, demand_of, restriction_of};
ghost use Rattle.vc_syntax_tokens.specs.declared.token.Sign.TheVariants as signs;

use std::alloc::Global;
use vc_syntax_terms::conditions::{condition, relation};
use vc_syntax_terms::reading::{ReadFault, after_sign, any_named, named, sign_ahead, word_ahead};
use vc_syntax_terms::terms::{dotted, self_and_name, sum};
use vc_syntax_tokens::token::{Dollar, Lexeme, Reserved, Sign, Token};
use vc_syntax_tree::{
    Action, Apart, Binding, Condition, Demand, NameLeaf, Restriction, Statement, TableCall, Term,
};
use vc_value::Listed;

fn binding(alloc: Global, tokens: &[Token], left: u32) -> Result<(Binding, &[Token]), ReadFault>
    ensures { Gives (λ x. (binding_of x.0, x.1.now)) result (reads.binding left tokens.now) }
{
    let (column, rest) = named(alloc, tokens)?;
    let rest = after_sign(Sign::Equal, rest)?;
    let (value, rest) = sum(alloc, rest, left)?;
    Ok((Binding { column, value }, rest))
}

fn bindings(
    alloc: Global,
    tokens: &[Token],
    left: u32,
) -> Result<(Listed<Binding>, &[Token]), ReadFault>
    ensures { Gives (λ x. (map binding_of x.0, x.1.now)) result (listed signs.Comma (reads.binding left) tokens.now) }
{
    let mut bindings = Listed::new(alloc);
    let (first, mut rest) = binding(alloc, tokens, left)?;
    bindings.push(first)?;
    while let Some(after) = sign_ahead(Sign::Comma, rest) {
        let (next, after) = binding(alloc, after, left)?;
        bindings.push(next)?;
        rest = after;
    }
    Ok((bindings, rest))
}

fn table_call(
    alloc: Global,
    tokens: &[Token],
    left: u32,
) -> Result<(TableCall, &[Token]), ReadFault>
    ensures { Gives (λ x. (table_call_of x.0, x.1.now)) result (reads.table_call left tokens.now) }
{
    let (table, rest) = any_named(alloc, tokens)?;
    let rest = after_sign(Sign::OpenParen, rest)?;
    let (bindings, rest) = bindings(alloc, rest, left)?;
    let rest = after_sign(Sign::CloseParen, rest)?;
    Ok((TableCall { table, bindings }, rest))
}

fn assignment(alloc: Global, tokens: &[Token], left: u32) -> Result<(Action, &[Token]), ReadFault>
    ensures { Gives (λ x. (action_of x.0, x.1.now)) result (reads.assignment left tokens.now) }
{
    let (name, rest) = dotted(alloc, tokens)?;
    let rest = after_sign(Sign::Equal, rest)?;
    let (value, rest) = sum(alloc, rest, left)?;
    Ok((Action::Assign(name, value), rest))
}

// `( $SELF , name , term )`, and what follows it.
fn defaulted(
    alloc: Global,
    tokens: &[Token],
    left: u32,
) -> Result<(NameLeaf, Box<Term>, &[Token]), ReadFault>
    ensures set { Gives (λ x. (trees.SetDefault x.0 (term_of x.1.value), x.2.now)) result
        (reads.defaulted trees.SetDefault left tokens.now) }
    ensures del { Gives (λ x. (trees.DelDefault x.0 (term_of x.1.value), x.2.now)) result
        (reads.defaulted trees.DelDefault left tokens.now) }
{
    let (name, rest) = self_and_name(alloc, tokens)?;
    let rest = after_sign(Sign::Comma, rest)?;
    let (value, rest) = sum(alloc, rest, left)?;
    let rest = after_sign(Sign::CloseParen, rest)?;
    Ok((name, value, rest))
}

// What stands behind `$SET_DEFAULT`.
fn set_default(alloc: Global, tokens: &[Token], left: u32) -> Result<(Action, &[Token]), ReadFault>
    ensures { Gives (λ x. (action_of x.0, x.1.now)) result (reads.defaulted trees.SetDefault left tokens.now) }
{
    let (name, value, rest) = defaulted(alloc, tokens, left)?;
    Ok((Action::SetDefault(name, value), rest))
}

// What stands behind `$DEL_DEFAULT`.
fn del_default(alloc: Global, tokens: &[Token], left: u32) -> Result<(Action, &[Token]), ReadFault>
    ensures { Gives (λ x. (action_of x.0, x.1.now)) result (reads.defaulted trees.DelDefault left tokens.now) }
{
    let (name, value, rest) = defaulted(alloc, tokens, left)?;
    Ok((Action::DelDefault(name, value), rest))
}

fn action(alloc: Global, tokens: &[Token], left: u32) -> Result<(Action, &[Token]), ReadFault>
    ensures { Gives (λ x. (action_of x.0, x.1.now)) result (reads.action left tokens.now) }
{
    match tokens {
        [
            Token {
                lexeme: Lexeme::Dollar(Dollar::Itself),
                ..
            },
            rest @ ..,
        ] => assignment(alloc, rest, left),
        [
            Token {
                lexeme: Lexeme::Dollar(Dollar::SetDefault),
                ..
            },
            rest @ ..,
        ] => set_default(alloc, rest, left),
        [
            Token {
                lexeme: Lexeme::Dollar(Dollar::DelDefault),
                ..
            },
            rest @ ..,
        ] => del_default(alloc, rest, left),
        [
            Token {
                lexeme: Lexeme::Reserved(Reserved::Table),
                ..
            },
            rest @ ..,
        ] => {
            let (call, rest) = table_call(alloc, rest, left)?;
            let call = Apart::new(alloc, call)?;
            Ok((Action::Table(call), rest))
        }
        _ => Err(ReadFault::Ungrammatical),
    }
}

// The condition behind IF, if there is an IF.
fn condition_if(
    alloc: Global,
    tokens: &[Token],
    left: u32,
) -> Result<(Option<Box<Condition>>, &[Token]), ReadFault>
    ensures { Gives (λ x. (option_map (λ b. condition_of b.value) x.0, x.1.now)) result
        (reads.condition_if left tokens.now) }
{
    match word_ahead(Reserved::If, tokens) {
        Some(rest) => {
            let (condition, rest) = condition(alloc, rest, left)?;
            Ok((Some(condition), rest))
        }
        None => Ok((None, tokens)),
    }
}

fn statement(alloc: Global, tokens: &[Token], left: u32) -> Result<(Statement, &[Token]), ReadFault>
    ensures { Gives (λ x. (statement_of x.0, x.1.now)) result (reads.statement left tokens.now) }
{
    let (action, rest) = action(alloc, tokens, left)?;
    let (condition, rest) = condition_if(alloc, rest, left)?;
    Ok((Statement { action, condition }, rest))
}

/// The statements in front, with commas between them, and what follows them.
pub fn statements(
    alloc: Global,
    tokens: &[Token],
    left: u32,
) -> Result<(Listed<Statement>, &[Token]), ReadFault>
    ensures { Gives (λ x. (map statement_of x.0, x.1.now)) result
        (listed signs.Comma (reads.statement left) tokens.now) }
{
    let mut statements = Listed::new(alloc);
    let (first, mut rest) = statement(alloc, tokens, left)?;
    statements.push(first)?;
    while let Some(after) = sign_ahead(Sign::Comma, rest) {
        let (next, after) = statement(alloc, after, left)?;
        statements.push(next)?;
        rest = after;
    }
    Ok((statements, rest))
}

fn demand(alloc: Global, tokens: &[Token], left: u32) -> Result<(Demand, &[Token]), ReadFault>
    ensures { Gives (λ x. (demand_of x.0, x.1.now)) result (reads.demanded left tokens.now) }
{
    match tokens {
        [
            Token {
                lexeme: Lexeme::Reserved(Reserved::Table),
                ..
            },
            rest @ ..,
        ] => {
            let (call, rest) = table_call(alloc, rest, left)?;
            let call = Apart::new(alloc, call)?;
            Ok((Demand::Table(call), rest))
        }
        [
            Token {
                lexeme: Lexeme::Reserved(Reserved::False),
                ..
            },
            rest @ ..,
        ] => Ok((Demand::False, rest)),
        _ => {
            let (relation, rest) = relation(alloc, tokens, left)?;
            Ok((Demand::Relation(relation), rest))
        }
    }
}

fn restriction(
    alloc: Global,
    tokens: &[Token],
    left: u32,
) -> Result<(Restriction, &[Token]), ReadFault>
    ensures { Gives (λ x. (restriction_of x.0, x.1.now)) result (reads.restriction left tokens.now) }
{
    let (demand, rest) = demand(alloc, tokens, left)?;
    let (condition, rest) = condition_if(alloc, rest, left)?;
    Ok((Restriction { demand, condition }, rest))
}

/// The restrictions in front, with commas between them, and what follows them.
pub fn restrictions(
    alloc: Global,
    tokens: &[Token],
    left: u32,
) -> Result<(Listed<Restriction>, &[Token]), ReadFault>
    ensures { Gives (λ x. (map restriction_of x.0, x.1.now)) result
        (listed signs.Comma (reads.restriction left) tokens.now) }
{
    let mut restrictions = Listed::new(alloc);
    let (first, mut rest) = restriction(alloc, tokens, left)?;
    restrictions.push(first)?;
    while let Some(after) = sign_ahead(Sign::Comma, rest) {
        let (next, after) = restriction(alloc, after, left)?;
        restrictions.push(next)?;
        rest = after;
    }
    Ok((restrictions, rest))
}
