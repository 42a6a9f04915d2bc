//! Whole dependencies, read from all of their tokens.

ghost use Rattle.std.specs.Prelude.{◌≡◌, ℕ, ◌<◌, ◌^◌, List, length, option_map, map, IfOk, Some, Ok, Err};
ghost use Rattle.vc_syntax_terms.specs.Reading.{Gives, listed};
ghost use Rattle.vc_syntax_terms.specs.TermReading as terms;
ghost use Rattle.vc_syntax_terms.specs.ConditionReading as conditions;
ghost use Rattle.vc_syntax.specs.StatementReading as statements;
ghost use Rattle.vc_syntax.specs.ConstraintReading as constraints;
ghost use Rattle.vc_syntax.specs.DependencyReading as reads;
ghost use Rattle.vc_syntax.specs.DependencyGrammar.{IsDependency};
ghost use Rattle.vc_syntax.specs.DependencyTexts as texts;
ghost use Rattle.vc_syntax.specs.Spelled.{Spells, IsFault};
ghost use Rattle.vc_syntax_tokens.specs.declared.fault.Kind.{Kind};
ghost use Rattle.vc_syntax_tokens.specs.declared.fault.SyntaxKind.{SyntaxKind};
ghost use Rattle.vc_syntax_tree.specs.Trees as trees;
ghost use Rattle.vc_syntax_tree.specs.Trees.{term_of, condition_of, statement_of, constraint_of, dependency_of};
ghost use Rattle.vc_syntax_tokens.specs.declared.token.Sign.TheVariants as signs;

use crate::constraints::constraint;
use crate::statements::statements;
use std::alloc::Global;
use vc_syntax_terms::conditions::condition;
use vc_syntax_terms::reading::{ReadFault, sign_ahead};
use vc_syntax_terms::terms::sum;
use vc_syntax_tokens::fault::{Kind, SyntaxFault, SyntaxKind};
use vc_syntax_tokens::lexing::first_tokens;
use vc_syntax_tokens::limits::{is_too_deep, is_too_long};
use vc_syntax_tokens::token::{Sign, Token};
use vc_syntax_tree::{Condition, Constraint, Dependency, Statement, Term};
use vc_value::Listed;

// Whether nothing stands there, or a period and nothing more.
fn is_stop(tokens: &[Token]) -> bool
    ensures { result ≡ reads.is_stop tokens.now }
{
    match sign_ahead(Sign::Period, tokens) {
        Some(rest) => is_end(rest),
        None => is_end(tokens),
    }
}

fn is_end(tokens: &[Token]) -> bool
    ensures { result ≡ reads.is_end tokens.now }
{
    match tokens {
        [] => true,
        _ => false,
    }
}

fn whole_condition(alloc: Global, tokens: &[Token], left: u32) -> Result<Box<Condition>, ReadFault>
    ensures { Gives (λ b. condition_of b.value) result
        (reads.up_to reads.is_stop (conditions.condition left tokens.now)) }
{
    let (condition, rest) = condition(alloc, tokens, left)?;
    if is_stop(rest) {
        Ok(condition)
    } else {
        Err(ReadFault::Ungrammatical)
    }
}

fn whole_procedure(
    alloc: Global,
    tokens: &[Token],
    left: u32,
) -> Result<Listed<Statement>, ReadFault>
    ensures { Gives (map statement_of) result
        (reads.up_to reads.is_stop (listed signs.Comma (statements.statement left) tokens.now)) }
{
    let (statements, rest) = statements(alloc, tokens, left)?;
    if is_stop(rest) {
        Ok(statements)
    } else {
        Err(ReadFault::Ungrammatical)
    }
}

fn whole_constraint(alloc: Global, tokens: &[Token], left: u32) -> Result<Constraint, ReadFault>
    ensures { Gives constraint_of result (reads.up_to reads.is_end (constraints.constraint left tokens.now)) }
{
    let (constraint, rest) = constraint(alloc, tokens, left)?;
    if is_end(rest) {
        Ok(constraint)
    } else {
        Err(ReadFault::Ungrammatical)
    }
}

fn whole_term(alloc: Global, tokens: &[Token], left: u32) -> Result<Box<Term>, ReadFault>
    ensures { Gives (λ b. term_of b.value) result (reads.up_to reads.is_end (terms.sum left tokens.now)) }
{
    let (term, rest) = sum(alloc, tokens, left)?;
    if is_end(rest) {
        Ok(term)
    } else {
        Err(ReadFault::Ungrammatical)
    }
}

fn dependency_within(
    alloc: Global,
    tokens: &[Token],
    kind: Kind,
    left: u32,
) -> Result<Dependency, ReadFault>
    ensures { Gives dependency_of result (reads.dependency kind left tokens.now) }
{
    match kind {
        Kind::Precondition => Ok(Dependency::Precondition(whole_condition(alloc, tokens, left)?)),
        Kind::Selection => Ok(Dependency::Selection(whole_condition(alloc, tokens, left)?)),
        Kind::Procedure => Ok(Dependency::Procedure(whole_procedure(alloc, tokens, left)?)),
        Kind::Constraint => Ok(Dependency::Constraint(whole_constraint(alloc, tokens, left)?)),
        Kind::Term => Ok(Dependency::Term(whole_term(alloc, tokens, left)?)),
    }
}

/// The dependency of this kind that the tokens spell, all of them. They spell at most one.
pub fn dependency(alloc: Global, tokens: &[Token], kind: Kind) -> Result<Dependency, ReadFault>
    requires { length tokens.now < 2 ^ 32 }
    ensures found { IfOk result (λ d. IsDependency kind tokens.now (dependency_of d)) }
    ensures only { (tree : trees.Dependency) → IsDependency kind tokens.now tree
        → Gives dependency_of result (Some tree) }
{
    dependency_within(alloc, tokens, kind, tokens.len() as u32)
}

// The limit that the tokens pass first, if they pass one.
fn passed_limit(tokens: &[Token]) -> Option<SyntaxKind>
    ensures { result ≡ texts.passed_limit tokens.now }
{
    if is_too_long(tokens) {
        Some(SyntaxKind::TooLong)
    } else if is_too_deep(tokens) {
        Some(SyntaxKind::TooDeep)
    } else {
        None
    }
}

fn fault_of(fault: ReadFault) -> SyntaxFault
    ensures { result ≡ texts.fault_of fault }
{
    match fault {
        ReadFault::Ungrammatical => SyntaxFault::Bad {
            kind: SyntaxKind::NotADependency,
            at: 0,
        },
        ReadFault::OutOfMemory => SyntaxFault::OutOfMemory,
    }
}

fn judge(alloc: Global, tokens: &[Token], kind: Kind) -> Result<Dependency, SyntaxFault>
    ensures { texts.Answers dependency_of result (texts.judged kind tokens.now) }
{
    if let Some(limit) = passed_limit(tokens) {
        return Err(SyntaxFault::Bad { kind: limit, at: 0 });
    }
    match dependency_within(alloc, tokens, kind, tokens.len() as u32) {
        Ok(dependency) => Ok(dependency),
        Err(fault) => Err(fault_of(fault)),
    }
}

fn judge_term(alloc: Global, tokens: &[Token]) -> Result<Box<Term>, SyntaxFault>
    ensures { texts.Answers (λ term. trees.Counts (term_of term.value)) result
        (texts.judged Kind.Term tokens.now) }
{
    if let Some(limit) = passed_limit(tokens) {
        return Err(SyntaxFault::Bad { kind: limit, at: 0 });
    }
    match whole_term(alloc, tokens, tokens.len() as u32) {
        Ok(term) => Ok(term),
        Err(fault) => Err(fault_of(fault)),
    }
}

// What the text is as a dependency of this kind, by the reader of tokens.
fn read_judged(alloc: Global, text: &[u8], kind: Kind) -> Result<Dependency, SyntaxFault>
    requires { length text.now < 2 ^ 32 }
    ensures { texts.Answers dependency_of result (texts.dependency_in kind text.now) }
{
    let tokens = first_tokens(alloc, text)?;
    judge(alloc, tokens.as_slice(), kind)
}

// The same of a term.
fn read_judged_term(alloc: Global, text: &[u8]) -> Result<Box<Term>, SyntaxFault>
    requires { length text.now < 2 ^ 32 }
    ensures { texts.Answers (λ term. trees.Counts (term_of term.value)) result
        (texts.dependency_in Kind.Term text.now) }
{
    let all = first_tokens(alloc, text)?;
    judge_term(alloc, all.as_slice())
}

/// The dependency of this kind that the text spells. A fault tells the first bad token by its kind
/// and its first byte; else, at 0, too many tokens, too deep nesting, or that the tokens spell none.
pub fn read_dependency(alloc: Global, text: &[u8], kind: Kind) -> Result<Dependency, SyntaxFault>
    requires { length text.now < 2 ^ 32 }
    // What is read is spelled by the text.
    ensures found { IfOk result (λ d. Spells kind text.now (dependency_of d)) }
    // What the text spells is read, unless memory ran out.
    ensures only { (tree : trees.Dependency) → Spells kind text.now tree
        → texts.Answers dependency_of result (Ok tree) }
    // A fault that is told is the text's, and the text's fault is told, unless memory ran out.
    ensures told { (fault : SyntaxKind) (place : ℕ) → result ≡ Err (SyntaxFault.Bad fault place)
        → IsFault kind text.now fault place }
    ensures fault { (fault : SyntaxKind) (place : ℕ) → IsFault kind text.now fault place
        → texts.Answers dependency_of result (Err (SyntaxFault.Bad fault place)) }
{
    read_judged(alloc, text, kind)
}

/// The term that the text spells, as the dependency that is one. Faults are told as `read_dependency`
/// tells them.
pub fn read_term(alloc: Global, text: &[u8]) -> Result<Box<Term>, SyntaxFault>
    requires { length text.now < 2 ^ 32 }
    ensures found { IfOk result (λ term. Spells Kind.Term text.now (trees.Counts (term_of term.value))) }
    ensures only { (term : trees.Term) → Spells Kind.Term text.now (trees.Counts term)
        → texts.Answers (λ t. trees.Counts (term_of t.value)) result (Ok (trees.Counts term)) }
    ensures told { (fault : SyntaxKind) (place : ℕ) → result ≡ Err (SyntaxFault.Bad fault place)
        → IsFault Kind.Term text.now fault place }
    ensures fault { (fault : SyntaxKind) (place : ℕ) → IsFault Kind.Term text.now fault place
        → texts.Answers (λ t. trees.Counts (term_of t.value)) result (Err (SyntaxFault.Bad fault place)) }
{
    read_judged_term(alloc, text)
}

/// A text spells at most one dependency of a kind.
pub fn one_tree_is_spelled()
    ensures { (kind : Kind) (text : List ℕ) (one other : trees.Dependency) → Spells kind text one
        → Spells kind text other → one ≡ other }
{}
