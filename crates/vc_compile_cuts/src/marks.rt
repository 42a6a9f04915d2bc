//! The numbers at which relations cut characteristics.

ghost use Rattle.std.specs.Prelude.{◌≡◌, ◌++◌, map, flat_map, option_to_list, slice_get, IfOk, OnOk};
ghost use Rattle.vc_value.specs.Millionths.{rounded};
ghost use Rattle.vc_syntax_tree.specs.Trees.{relation_of, term_of};
ghost use Rattle.vc_types_meanings.specs.Seen.{seen};
ghost use Rattle.vc_types_occurrences.specs.Seen.{relations_seen};
ghost use Rattle.vc_compile_plan.specs.Conditions.{number_of};
ghost use Rattle.vc_compile_plan.specs.Cuts as cuts;
ghost use Rattle.vc_compile_plan.specs.Terms.{lone_of, minus_literal, opposite};
ghost use Rattle.vc_compile_cuts.specs.Marks.{decimals_in_values, mark_seen, marks_on, marks_seen};

use std::alloc::{AllocError, Global};
use vc_model_parts::{Model, Values};
use vc_syntax_tree::{Item, Operand, Relation, Relator, SignedNumber, Term};
use vc_types::Referent;
use vc_types_meanings::Setting;
use vc_value::{Dec, Listed};
use vc_value_wide::Wide;

/// A number at which a characteristic is cut.
#[derive(Clone, Copy, Debug, PartialEq, Eq)]
pub struct Mark {
    /// The characteristic's number in the model.
    pub characteristic: u32,
    pub number: Dec,
}

fn of_referent(referent: Option<Referent>) -> Option<u32>
    ensures { result ≡ cuts.of_referent referent }
{
    match referent {
        None => None,
        Some(Referent::Object(_)) => None,
        Some(Referent::Value(characteristic)) => characteristic,
    }
}

/// The characteristic that an operand names, whatever object it is of.
pub fn characteristic_of(setting: &Setting, operand: &Operand) -> Option<u32>
    ensures { result ≡ cuts.characteristic_of (seen setting.now).model (seen setting.now).variables operand.now }
{
    match operand {
        Operand::Plain(leaf) => setting.names().characteristic(leaf.name.bytes()),
        Operand::Owned(_, leaf) => setting.names().characteristic(leaf.name.bytes()),
        Operand::Member(_, leaf) => setting.names().characteristic(leaf.name.bytes()),
        Operand::Variable(leaf) => of_referent(setting.referent(leaf)),
    }
}

// The number with the other sign. No text has a number that has none.
fn opposite(number: Dec) -> Result<Dec, AllocError>
    ensures { IfOk result (λ turned. turned ≡ opposite number) }
{
    match number.millionths.checked_neg() {
        Some(millionths) => Ok(Dec { millionths }),
        None => Err(AllocError),
    }
}

fn number_of(number: &SignedNumber) -> Result<Dec, AllocError>
    ensures { IfOk result (λ found. found ≡ number_of number.now) }
{
    if number.negative {
        opposite(number.leaf.number)
    } else {
        Ok(number.leaf.number)
    }
}

fn negative_literal(term: &Term) -> Result<Option<Dec>, AllocError>
    ensures { IfOk result (λ number. option_to_list number ≡ cuts.number_in (minus_literal (term_of term.now))) }
{
    match term {
        Term::Number(leaf) => Ok(Some(opposite(leaf.number)?)),
        _ => Ok(None),
    }
}

// The number that a whole term is, with or without a minus.
fn literal_number(term: &Term) -> Result<Option<Dec>, AllocError>
    ensures { IfOk result (λ number. option_to_list number ≡ cuts.literal_number (term_of term.now)) }
{
    match term {
        Term::Number(leaf) => Ok(Some(leaf.number)),
        Term::Negated(inner) => negative_literal(inner),
        _ => Ok(None),
    }
}

fn put_number(
    out: &mut Listed<Mark>,
    characteristic: Option<u32>,
    number: Option<Dec>,
) -> Result<(), AllocError>
    ensures { OnOk result (marks_seen out.new ≡ marks_seen out.old
        ++ cuts.marks_at characteristic (option_to_list number)) }
{
    match characteristic {
        None => Ok(()),
        Some(characteristic) => match number {
            None => Ok(()),
            Some(number) => out.push(Mark {
                characteristic,
                number,
            }),
        },
    }
}

// Puts the number as a cut of what the side of a relation names, if it is a lone operand.
fn put_beside(
    out: &mut Listed<Mark>,
    setting: &Setting,
    side: &Term,
    number: Option<Dec>,
) -> Result<(), AllocError>
    ensures { OnOk result (marks_seen out.new ≡ marks_seen out.old
        ++ cuts.marks_of (seen setting.now).model (seen setting.now).variables (lone_of (term_of side.now))
        (option_to_list number)) }
{
    match side {
        Term::Operand(operand) => put_number(out, characteristic_of(setting, operand), number),
        _ => Ok(()),
    }
}

fn put_item(out: &mut Listed<Mark>, characteristic: u32, item: &Item) -> Result<(), AllocError>
    ensures { OnOk result (marks_seen out.new ≡ marks_seen out.old
        ++ marks_on characteristic (cuts.item_numbers item.now)) }
{
    match item {
        Item::Text(_) => Ok(()),
        Item::Number(number) => {
            let number = number_of(number)?;
            out.push(Mark {
                characteristic,
                number,
            })
        }
        Item::Interval(low, high) => {
            let low = number_of(low)?;
            let high = number_of(high)?;
            out.push(Mark {
                characteristic,
                number: low,
            })?;
            out.push(Mark {
                characteristic,
                number: high,
            })
        }
    }
}

#[tactic(auto, using(crate::proofs::MarkLemmas::joins))]
fn put_items(out: &mut Listed<Mark>, characteristic: u32, items: &[Item]) -> Result<(), AllocError>
    ensures { OnOk result (marks_seen out.new ≡ marks_seen out.old
        ++ marks_on characteristic (flat_map cuts.item_numbers items.now)) }
{
    for item in items {
        put_item(out, characteristic, item)?;
    }
    Ok(())
}

fn put_listed(
    out: &mut Listed<Mark>,
    characteristic: Option<u32>,
    items: &[Item],
) -> Result<(), AllocError>
    ensures { OnOk result (marks_seen out.new ≡ marks_seen out.old
        ++ cuts.marks_at characteristic (flat_map cuts.item_numbers items.now)) }
{
    match characteristic {
        Some(characteristic) => put_items(out, characteristic, items),
        None => Ok(()),
    }
}

/// Puts what a relation puts beside a characteristic: the literal of a side, or all numbers that IN
/// names.
pub fn put_relation(
    out: &mut Listed<Mark>,
    setting: &Setting,
    relation: &Relation,
) -> Result<(), AllocError>
    ensures { OnOk result (marks_seen out.new ≡ marks_seen out.old
        ++ cuts.relation_marks (seen setting.now).model (seen setting.now).variables (relation_of relation.now)) }
{
    match relation {
        Relation::Compared(left, _, right) => {
            let at_right = literal_number(right)?;
            let at_left = literal_number(left)?;
            put_beside(out, setting, left, at_right)?;
            put_beside(out, setting, right, at_left)
        }
        Relation::Within(operand, items) => {
            put_listed(
                out,
                characteristic_of(setting, operand.get()),
                items.as_slice(),
            )
        }
    }
}

/// Puts the numbers of relations of conditions.
pub fn put_relations(
    out: &mut Listed<Mark>,
    setting: &Setting,
    relations: &[&Relation],
) -> Result<(), AllocError>
    ensures { OnOk result (marks_seen out.new ≡ marks_seen out.old
        ++ flat_map (cuts.relation_marks (seen setting.now).model (seen setting.now).variables)
        (relations_seen relations.now)) }
{
    for relation in relations {
        put_relation(out, setting, *relation)?;
    }
    Ok(())
}

fn decimals_in(values: &Values) -> u8
    ensures { result ≡ decimals_in_values values.now }
{
    match values {
        Values::Texts { .. } => 6,
        Values::Numbers { decimals, .. } => *decimals,
    }
}

fn decimals_of(model: &Model, characteristic: u32) -> u8
    ensures { result ≡ cuts.decimals_of (slice_get (model.now).characteristics characteristic) }
{
    let characteristics = model.characteristics.as_slice();
    match characteristics.get(characteristic as usize) {
        Some(characteristic) => decimals_in(&characteristic.values),
        None => 6,
    }
}

// The number with so many decimals, a half rounded away from zero. No text has a number that is too
// large for it.
fn rounded(decimals: u8, number: Dec) -> Result<Dec, AllocError>
    ensures { IfOk result (λ found. found.millionths ≡ rounded decimals number.millionths) }
{
    let wide = Wide::from(number).rounded(decimals.min(6));
    match i64::try_from(wide.millionths) {
        Ok(millionths) => Ok(Dec { millionths }),
        Err(_) => Err(AllocError),
    }
}

fn rounded_mark(model: &Model, mark: Mark) -> Result<Mark, AllocError>
    ensures { IfOk result (λ found. mark_seen found ≡ cuts.rounded_mark model.now (mark_seen mark)) }
{
    let decimals = decimals_of(model, mark.characteristic);
    let number = rounded(decimals, mark.number)?;
    Ok(Mark {
        characteristic: mark.characteristic,
        number,
    })
}

fn put_marks(out: &mut Listed<Mark>, marks: &[Mark]) -> Result<(), AllocError>
    ensures { OnOk result (marks_seen out.new ≡ marks_seen out.old ++ marks_seen marks.now) }
{
    for mark in marks {
        out.push(*mark)?;
    }
    Ok(())
}

fn put_rounded(out: &mut Listed<Mark>, model: &Model, marks: &[Mark]) -> Result<(), AllocError>
    ensures { OnOk result (marks_seen out.new ≡ marks_seen out.old
        ++ map (cuts.rounded_mark model.now) (marks_seen marks.now)) }
{
    for mark in marks {
        out.push(rounded_mark(model, *mark)?)?;
    }
    Ok(())
}

fn is_equation(relation: &Relation) -> bool
    ensures { result ≡ cuts.is_equation (relation_of relation.now) }
{
    match relation {
        Relation::Compared(_, relator, _) => match relator {
            Relator::Equal => true,
            Relator::Unequal => false,
            Relator::Less => false,
            Relator::LessEqual => false,
            Relator::Greater => false,
            Relator::GreaterEqual => false,
        },
        Relation::Within(_, _) => false,
    }
}

// Puts the numbers of a relation that a constraint demands; those of `=` rounded too.
fn put_restriction(
    alloc: Global,
    out: &mut Listed<Mark>,
    setting: &Setting,
    relation: &Relation,
) -> Result<(), AllocError>
    ensures { OnOk result (marks_seen out.new ≡ marks_seen out.old
        ++ cuts.restriction_marks (seen setting.now).model (seen setting.now).variables (relation_of relation.now)) }
{
    let mut marks = Listed::new(alloc);
    put_relation(&mut marks, setting, relation)?;
    put_marks(out, marks.as_slice())?;
    if is_equation(relation) {
        put_rounded(out, setting.names().model(), marks.as_slice())
    } else {
        Ok(())
    }
}

/// Puts the numbers of relations that a constraint demands.
pub fn put_restrictions(
    alloc: Global,
    out: &mut Listed<Mark>,
    setting: &Setting,
    relations: &[&Relation],
) -> Result<(), AllocError>
    ensures { OnOk result (marks_seen out.new ≡ marks_seen out.old
        ++ flat_map (cuts.restriction_marks (seen setting.now).model (seen setting.now).variables)
        (relations_seen relations.now)) }
{
    for relation in relations {
        put_restriction(alloc, out, setting, *relation)?;
    }
    Ok(())
}
