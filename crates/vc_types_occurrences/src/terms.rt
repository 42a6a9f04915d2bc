//! What stands in relations, terms and calls of tables.

ghost use Rattle.std.specs.Prelude.{◌≡◌, ◌++◌, map, flat_map, OnOk};
ghost use Rattle.vc_syntax_tree.specs.Trees.{term_of, relation_of, binding_of, table_call_of};
ghost use Rattle.vc_types.specs.Occurrences as occurrences;
ghost use Rattle.vc_types_occurrences.specs.Seen.{relations_seen, calls_seen, terms_seen, leaves_seen, is_number};

use std::alloc::AllocError;
use vc_syntax_tree::{Binding, NameLeaf, Relation, Relator, TableCall, Term};
use vc_value::Listed;

/// Whether the term is a text, or a number with or without a minus.
pub fn is_literal(term: &Term) -> bool
    ensures { result ≡ occurrences.is_literal (term_of term.now) }
{
    match term {
        Term::Number(_) => true,
        Term::Text(_) => true,
        Term::Negated(inner) => is_number(inner),
        _ => false,
    }
}

fn is_number(term: &Term) -> bool
    ensures { result ≡ is_number (term_of term.now) }
{
    matches!(term, Term::Number(_))
}

/// Whether the relation holds of equal values, or of others.
pub fn is_equality(relator: Relator) -> bool
    ensures { result ≡ occurrences.is_equality relator }
{
    matches!(relator, Relator::Equal | Relator::Unequal)
}

fn put_sides<'a>(out: &mut Listed<&'a Term>, relation: &'a Relation) -> Result<(), AllocError>
    ensures { OnOk result (terms_seen out.new ≡ terms_seen out.old ++ occurrences.sides_of (relation_of relation.now)) }
{
    match relation {
        Relation::Compared(left, _, right) => {
            out.push(left)?;
            out.push(right)
        }
        Relation::Within(_, _) => Ok(()),
    }
}

/// Puts the sides of relations.
pub fn put_all_sides<'a>(
    out: &mut Listed<&'a Term>,
    relations: &[&'a Relation],
) -> Result<(), AllocError>
    ensures { OnOk result (terms_seen out.new ≡ terms_seen out.old
        ++ flat_map occurrences.sides_of (relations_seen relations.now)) }
{
    for relation in relations {
        put_sides(out, *relation)?;
    }
    Ok(())
}

fn put_values<'a>(out: &mut Listed<&'a Term>, bindings: &'a [Binding]) -> Result<(), AllocError>
    ensures { OnOk result (terms_seen out.new ≡ terms_seen out.old
        ++ map (λ binding. binding.value) (map binding_of bindings.now)) }
{
    for binding in bindings {
        out.push(&binding.value)?;
    }
    Ok(())
}

/// Puts what calls give columns.
pub fn put_call_values<'a>(
    out: &mut Listed<&'a Term>,
    calls: &[&'a TableCall],
) -> Result<(), AllocError>
    ensures { OnOk result (terms_seen out.new ≡ terms_seen out.old
        ++ flat_map occurrences.values_in (calls_seen calls.now)) }
{
    for call in calls {
        put_values(out, call.bindings.as_slice())?;
    }
    Ok(())
}

/// Puts terms.
pub fn put_terms<'a>(out: &mut Listed<&'a Term>, terms: &[&'a Term]) -> Result<(), AllocError>
    ensures { OnOk result (terms_seen out.new ≡ terms_seen out.old ++ terms_seen terms.now) }
{
    for term in terms {
        out.push(*term)?;
    }
    Ok(())
}

fn put_summed<'a>(out: &mut Listed<&'a NameLeaf>, term: &'a Term) -> Result<(), AllocError>
    ensures { OnOk result (leaves_seen out.new ≡ leaves_seen out.old ++ occurrences.summed_in (term_of term.now)) }
{
    match term {
        Term::Number(_) => Ok(()),
        Term::Text(_) => Ok(()),
        Term::Operand(_) => Ok(()),
        Term::Negated(inner) => put_summed(out, inner),
        Term::Combined(left, _, right) => {
            put_summed(out, left)?;
            put_summed(out, right)
        }
        Term::Applied(_, inner) => put_summed(out, inner),
        Term::SumOfParts(name) => out.push(name),
        Term::CountOfParts => Ok(()),
    }
}

/// Puts the characteristics of part sums.
pub fn put_all_summed<'a>(
    out: &mut Listed<&'a NameLeaf>,
    terms: &[&'a Term],
) -> Result<(), AllocError>
    ensures { OnOk result (leaves_seen out.new ≡ leaves_seen out.old
        ++ flat_map occurrences.summed_in (terms_seen terms.now)) }
{
    for term in terms {
        put_summed(out, *term)?;
    }
    Ok(())
}
