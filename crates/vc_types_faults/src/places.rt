//! Faults of place: what may not be asked where the dependency stands.

ghost use Rattle.std.specs.Prelude.{◌≡◌, ◌∷◌, [], map, option_map, flat_map};
ghost use Rattle.std.specs.List.{list_any};
ghost use Rattle.vc_syntax_tree.specs.Trees.{binding_of, condition_of, restriction_of, table_call_of, term_of};
ghost use Rattle.vc_types.specs.NameFaults.{has_some};
ghost use Rattle.vc_types.specs.Occurrences.{condition_of_restriction, conditions_in, has_sum, if_there};
ghost use Rattle.vc_types.specs.Occurrences.{parted_in, specified_in};
ghost use Rattle.vc_types.specs.PlaceFaults as faults;
ghost use Rattle.vc_types.specs.Settings as settings;
ghost use Rattle.vc_types_meanings.specs.Borrowed.{tree_of};
ghost use Rattle.vc_types_occurrences.specs.Seen.{calls_seen, conditions_seen, terms_seen};

use vc_syntax_tree::{Binding, Condition, Restriction, TableCall, Term};
use vc_types::At;
use vc_types_meanings::Tree;
use vc_types_occurrences::terms::is_literal;

/// Whether a dependency that stands there is a constraint.
pub fn is_constraint(at: At) -> bool
    ensures { result ≡ settings.is_constraint at }
{
    matches!(at, At::Constraint)
}

/// Whether it stands at a line of a bill.
pub fn is_line(at: At) -> bool
    ensures { result ≡ settings.is_line at }
{
    matches!(at, At::Line { .. })
}

/// Whether `$SELF` is an instance there, whose parts can be summed.
pub fn has_instance(at: At) -> bool
    ensures { result ≡ settings.has_instance at }
{
    !is_constraint(at) && !is_line(at)
}

/// Whether the net asks there: in a constraint, or at a configurable line.
pub fn is_for_net(at: At) -> bool
    ensures { result ≡ faults.is_for_net at }
{
    match at {
        At::Constraint => true,
        At::Characteristic => false,
        At::Procedure => false,
        At::Line { configurable } => configurable,
        At::Operation => false,
    }
}

fn asks_specified(condition: &Condition) -> bool
    ensures { result ≡ has_some (specified_in (condition_of condition.now)) }
{
    match condition {
        Condition::Or(left, right) => asks_specified(left) || asks_specified(right),
        Condition::And(left, right) => asks_specified(left) || asks_specified(right),
        Condition::Not(inner) => asks_specified(inner),
        Condition::Relation(_) => false,
        Condition::Specified(_) => true,
        Condition::PartOf(_, _) => false,
    }
}

// SPECIFIED under NOT, however many.
fn denies_specified(condition: &Condition) -> bool
    ensures { result ≡ faults.denies_specified (condition_of condition.now) }
{
    match condition {
        Condition::Or(left, right) => denies_specified(left) || denies_specified(right),
        Condition::And(left, right) => denies_specified(left) || denies_specified(right),
        Condition::Not(denied) => asks_specified(denied),
        Condition::Relation(_) => false,
        Condition::Specified(_) => false,
        Condition::PartOf(_, _) => false,
    }
}

/// Whether some condition has SPECIFIED under NOT.
pub fn some_denies_specified(conditions: &[&Condition]) -> bool
    ensures { result ≡ list_any faults.denies_specified (conditions_seen conditions.now) }
{
    for condition in conditions {
        if denies_specified(*condition) {
            return true;
        }
    }
    false
}

/// Whether the dependency is a procedure.
pub fn is_procedure(tree: Tree) -> bool
    ensures { result ≡ faults.is_procedure (tree_of tree.entry) }
{
    matches!(tree, Tree::Procedure(_))
}

fn has_sum(term: &Term) -> bool
    ensures { result ≡ has_sum (term_of term.now) }
{
    match term {
        Term::Number(_) => false,
        Term::Text(_) => false,
        Term::Operand(_) => false,
        Term::Negated(inner) => has_sum(inner),
        Term::Combined(left, _, right) => has_sum(left) || has_sum(right),
        Term::Applied(_, inner) => has_sum(inner),
        Term::SumOfParts(_) => true,
        Term::CountOfParts => true,
    }
}

/// Whether a part sum stands in some term.
pub fn some_has_sum(terms: &[&Term]) -> bool
    ensures { result ≡ list_any has_sum (terms_seen terms.now) }
{
    for term in terms {
        if has_sum(*term) {
            return true;
        }
    }
    false
}

fn asks_part(condition: &Condition) -> bool
    ensures { result ≡ faults.asks_part (condition_of condition.now) }
{
    match condition {
        Condition::Or(left, right) => asks_part(left) || asks_part(right),
        Condition::And(left, right) => asks_part(left) || asks_part(right),
        Condition::Not(inner) => asks_part(inner),
        Condition::Relation(_) => false,
        Condition::Specified(_) => false,
        Condition::PartOf(_, _) => true,
    }
}

// PART_OF in one of the parts that AND joins, and not alone there.
fn hides_part(condition: &Condition) -> bool
    ensures { result ≡ list_any faults.hides_part (faults.joined_parts (condition_of condition.now)) }
{
    match condition {
        Condition::Or(_, _) => asks_part(condition),
        Condition::And(left, right) => hides_part(left) || hides_part(right),
        Condition::Not(_) => asks_part(condition),
        Condition::Relation(_) => false,
        Condition::Specified(_) => false,
        Condition::PartOf(_, _) => false,
    }
}

fn some_asks_part(conditions: &[&Condition]) -> bool
    ensures { result ≡ list_any faults.asks_part (conditions_seen conditions.now) }
{
    for condition in conditions {
        if asks_part(*condition) {
            return true;
        }
    }
    false
}

fn hides_part_if(condition: &Option<Box<Condition>>) -> bool
    ensures { result ≡ list_any faults.hides_part
        (flat_map faults.joined_parts (if_there (λ c. c ∷ [])
        (option_map (λ boxed. condition_of boxed.value) condition.now))) }
{
    match condition {
        Some(condition) => hides_part(condition),
        None => false,
    }
}

fn asks_part_if(condition: &Option<Box<Condition>>) -> bool
    ensures { result ≡ list_any faults.asks_part
        (if_there (λ c. c ∷ []) (option_map (λ boxed. condition_of boxed.value) condition.now)) }
{
    match condition {
        Some(condition) => asks_part(condition),
        None => false,
    }
}

fn some_restriction_asks_part(restrictions: &[Restriction]) -> bool
    ensures { result ≡ list_any faults.asks_part
        (flat_map condition_of_restriction (map restriction_of restrictions.now)) }
{
    for restriction in restrictions {
        if asks_part_if(&restriction.condition) {
            return true;
        }
    }
    false
}

/// PART_OF elsewhere than as CONDITION, or as one of the parts that AND joins at its top; of a
/// dependency that has these conditions.
pub fn part_of_place(tree: Tree, conditions: &[&Condition]) -> bool
    requires { conditions_seen conditions.now ≡ conditions_in (tree_of tree) }
    ensures { result ≡ faults.part_of_place (tree_of tree.entry) }
{
    match tree {
        Tree::Precondition(condition) => asks_part(condition),
        Tree::Selection(condition) => asks_part(condition),
        Tree::Procedure(_) => some_asks_part(conditions),
        Tree::Constraint(constraint) => {
            hides_part_if(&constraint.condition)
                || some_restriction_asks_part(constraint.restrictions.as_slice())
        }
        Tree::Term(_) => false,
    }
}

fn is_operand(term: &Term) -> bool
    ensures { result ≡ faults.is_operand (term_of term.now) }
{
    matches!(term, Term::Operand(_))
}

fn is_computed(binding: &Binding) -> bool
    ensures { result ≡ faults.is_computed (binding_of binding.now) }
{
    !is_literal(&binding.value) && !is_operand(&binding.value)
}

fn has_computed(call: &TableCall) -> bool
    ensures { result ≡ list_any faults.is_computed (table_call_of call.now).bindings }
{
    let bindings = call.bindings.as_slice();
    for binding in bindings {
        if is_computed(binding) {
            return true;
        }
    }
    false
}

/// Whether some call has a term that is neither a characteristic nor a literal.
pub fn some_has_computed(calls: &[&TableCall]) -> bool
    ensures { result ≡ list_any (λ call. list_any faults.is_computed call.bindings) (calls_seen calls.now) }
{
    for call in calls {
        if has_computed(*call) {
            return true;
        }
    }
    false
}
