//! Faults of range: numbers that may get too large to be computed. Sizes are in millionths.

ghost use Rattle.std.specs.Prelude.{◌≡◌, ◌+◌, ◌*◌, ◌/◌, ◌≤◌, ◌||◌, IfSome, unsigned_abs};
ghost use Rattle.std.specs.List.{list_any};
ghost use Rattle.vc_value.specs.Millionths as millionths;
ghost use Rattle.vc_syntax_tree.specs.Trees.{term_of};
ghost use Rattle.vc_types.specs.RangeFaults as faults;
ghost use Rattle.vc_types.specs.Settings.{meaning};
ghost use Rattle.vc_types_sorts.specs.Sizes.{bounded, combined_bound, applied_bound};
ghost use Rattle.vc_types_meanings.specs.Seen.{seen};
ghost use Rattle.vc_types_occurrences.specs.Seen.{terms_seen};

use vc_syntax_tree::{Function, NumberLeaf, Operand, Operator, Term};
use vc_types::Meaning;
use vc_types_meanings::Setting;
use vc_types_names::Names;

const ONE: u128 = 1_000_000;

const LIMIT: u128 = 999_999_999_999_999_999_999_999_999_999_000_000;

const SUM: u128 = 1_000_000_000_000_000_000_000_000_000;

// The size, unless it is too large.
fn within(size: u128) -> Option<u128>
    ensures bounded { result ≡ bounded (faults.is_too_large size) size }
    ensures within { IfSome result (λ n. n ≤ faults.size_limit) }
{
    if size > LIMIT { None } else { Some(size) }
}

fn product(first: u128, second: u128) -> Option<u128>
    requires first { first ≤ faults.size_limit }
    requires second { second ≤ faults.size_limit }
    ensures bounded { result ≡ bounded (faults.is_too_large (first * second) || faults.is_too_large
        (first * second / millionths.one + 1))
        (first * second / millionths.one + 1) }
    ensures within { IfSome result (λ n. n ≤ faults.size_limit) }
{
    match first.checked_mul(second) {
        Some(load) if load <= LIMIT => Some(load / ONE + 1),
        _ => None,
    }
}

fn quotient(size: u128) -> Option<u128>
    ensures bounded { result ≡ bounded (faults.is_too_large (millionths.one * size) || faults.is_too_large
        (millionths.one * size)) (millionths.one * size) }
    ensures within { IfSome result (λ n. n ≤ faults.size_limit) }
{
    match ONE.checked_mul(size) {
        Some(load) if load <= LIMIT => Some(load),
        _ => None,
    }
}

fn sum(first: u128, second: u128) -> Option<u128>
    requires first { first ≤ faults.size_limit }
    requires second { second ≤ faults.size_limit }
    ensures bounded { result ≡ bounded (faults.is_too_large (first + second) || faults.is_too_large (first + second))
        (first + second) }
    ensures within { IfSome result (λ n. n ≤ faults.size_limit) }
{
    within(first + second)
}

fn combine(operator: Operator, first: u128, second: u128) -> Option<u128>
    requires first { first ≤ faults.size_limit }
    requires second { second ≤ faults.size_limit }
    ensures bounded { result ≡ bounded (faults.is_too_large (faults.combined_load operator first second)
        || faults.is_too_large (faults.combined_size operator first second))
        (faults.combined_size operator first second) }
    ensures within { IfSome result (λ n. n ≤ faults.size_limit) }
{
    match operator {
        Operator::Plus => sum(first, second),
        Operator::Minus => sum(first, second),
        Operator::Times => product(first, second),
        Operator::Over => quotient(first),
    }
}

fn combined(operator: Operator, left: Option<u128>, right: Option<u128>) -> Option<u128>
    requires left { IfSome left (λ n. n ≤ faults.size_limit) }
    requires right { IfSome right (λ n. n ≤ faults.size_limit) }
    ensures bounded { result ≡ combined_bound operator left right }
    ensures within { IfSome result (λ n. n ≤ faults.size_limit) }
{
    match (left, right) {
        (Some(first), Some(second)) => combine(operator, first, second),
        _ => None,
    }
}

fn apply(function: Function, size: u128) -> Option<u128>
    requires { size ≤ faults.size_limit }
    ensures bounded { result ≡ bounded (faults.is_too_large (faults.applied_size function size))
        (faults.applied_size function size) }
    ensures within { IfSome result (λ n. n ≤ faults.size_limit) }
{
    match function {
        Function::Abs => within(size),
        Function::Sign => within(ONE),
        Function::Trunc => within(size),
        Function::Floor => within(size + ONE),
        Function::Ceil => within(size + ONE),
        Function::Frac => within(ONE),
    }
}

fn applied(function: Function, size: Option<u128>) -> Option<u128>
    requires { IfSome size (λ n. n ≤ faults.size_limit) }
    ensures bounded { result ≡ applied_bound function size }
    ensures within { IfSome result (λ n. n ≤ faults.size_limit) }
{
    match size {
        Some(size) => apply(function, size),
        None => None,
    }
}

fn size_meant(names: &Names, meaning: Meaning) -> u128
    ensures size { result ≡ faults.size_meant names.now.model.now meaning }
    ensures within { result ≤ faults.size_limit }
{
    match meaning {
        Meaning::Characteristic(characteristic) => u128::from(names.size_of(characteristic)),
        _ => 0,
    }
}

fn operand_bound(setting: &Setting, operand: &Operand) -> Option<u128>
    ensures bounded { result ≡ Some (faults.size_meant (seen setting.now).model
        (meaning (seen setting.now) operand.now)) }
    ensures within { IfSome result (λ n. n ≤ faults.size_limit) }
{
    Some(size_meant(setting.names(), setting.meaning(operand)))
}

fn number_bound(leaf: NumberLeaf) -> Option<u128>
    ensures bounded { result ≡ Some (unsigned_abs leaf.number.millionths) }
    ensures within { IfSome result (λ n. n ≤ faults.size_limit) }
{
    Some(u128::from(leaf.number.millionths.unsigned_abs()))
}

/// The size that the term's number has at most; none where a number on the way gets too large.
#[tactic(auto, using(crate::proofs::SizeLemmas::bounds))]
pub fn bound(setting: &Setting, term: &Term) -> Option<u128>
    ensures bounded { result ≡ bounded (faults.gets_too_large (seen setting.now) (term_of term.now))
        (faults.size_of (seen setting.now) (term_of term.now)) }
    ensures within { IfSome result (λ n. n ≤ faults.size_limit) }
{
    match term {
        Term::Number(leaf) => number_bound(*leaf),
        Term::Text(_) => Some(0),
        Term::Operand(operand) => operand_bound(setting, operand),
        Term::Negated(inner) => bound(setting, inner),
        Term::Combined(left, operator, right) => {
            combined(*operator, bound(setting, left), bound(setting, right))
        }
        Term::Applied(function, inner) => applied(*function, bound(setting, inner)),
        Term::SumOfParts(_) => Some(SUM),
        Term::CountOfParts => Some(SUM),
    }
}

fn gets_too_large(setting: &Setting, term: &Term) -> bool
    ensures { result ≡ faults.gets_too_large (seen setting.now) (term_of term.now) }
{
    bound(setting, term).is_none()
}

/// Whether a number may get too large in some term.
pub fn some_gets_too_large(setting: &Setting, terms: &[&Term]) -> bool
    ensures { result ≡ list_any (faults.gets_too_large (seen setting.now)) (terms_seen terms.now) }
{
    for term in terms {
        if gets_too_large(setting, *term) {
            return true;
        }
    }
    false
}
