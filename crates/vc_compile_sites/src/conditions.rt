//! Conditions as the plan has them where they stand.

ghost use Rattle.std.specs.Prelude.{◌≡◌, ◌∷◌, ◌++◌, map, option_map, IfOk, OnOk, Some};
ghost use Rattle.vc_syntax_tree.specs.Trees.{term_of};
ghost use Rattle.vc_syntax_tree.specs.Trees as trees;
ghost use Rattle.vc_plan.specs.declared.conditions.Piece.TheVariants.{Stretch};
ghost use Rattle.vc_compile_plan.specs.Conditions as conditions;
ghost use Rattle.vc_compile_plan.specs.Terms as terms;
ghost use Rattle.vc_compile_plan.specs.Trees as plan;
ghost use Rattle.vc_compile_layout.specs.Standing.{layout_seen};
ghost use Rattle.vc_compile_sites.specs.Standing.{site_seen};

use crate::site::Site;
use crate::terms::{literal_of, lone_of, opposite, term_at};
use std::alloc::{AllocError, Global};
use vc_compile_layout::Layout;
use vc_plan::{Condition as PlanCondition, Piece, Relation as PlanRelation};
use vc_syntax_tree::{Condition, Item, Operand, Relation, Relator, SignedNumber, Term};
use vc_value::{Dec, Grain, Listed, Value};

/// The relation of a relator.
pub fn relation_of(relator: Relator) -> PlanRelation
    ensures { result ≡ conditions.relation_of relator }
{
    match relator {
        Relator::Equal => PlanRelation::Equal,
        Relator::Unequal => PlanRelation::Unequal,
        Relator::Less => PlanRelation::Less,
        Relator::LessEqual => PlanRelation::AtMost,
        Relator::Greater => PlanRelation::Greater,
        Relator::GreaterEqual => PlanRelation::AtLeast,
    }
}

fn number_of(number: SignedNumber) -> Result<Dec, AllocError>
    ensures { IfOk result (λ read. read ≡ conditions.number_of number) }
{
    if number.negative {
        opposite(number.leaf.number)
    } else {
        Ok(number.leaf.number)
    }
}

fn stretch(low: SignedNumber, high: SignedNumber) -> Result<Piece, AllocError>
    ensures { IfOk result (λ piece. piece
        ≡ Stretch (record { low = conditions.number_of low; high = conditions.number_of high })) }
{
    Ok(Piece::Stretch(Grain {
        low: number_of(low)?,
        high: number_of(high)?,
    }))
}

fn piece_of(layout: &Layout<'_, '_>, item: &Item) -> Result<Piece, AllocError>
    ensures { IfOk result (λ piece. piece ≡ conditions.piece_of (layout_seen layout.now).texts item.now) }
{
    match item {
        Item::Text(leaf) => Ok(Piece::OneText(layout.text_number(leaf.text.bytes()))),
        Item::Number(number) => stretch(*number, *number),
        Item::Interval(low, high) => stretch(*low, *high),
    }
}

/// What stands in a list behind IN, as pieces.
pub fn pieces_of(
    alloc: Global,
    layout: &Layout<'_, '_>,
    items: &[Item],
) -> Result<Listed<Piece>, AllocError>
    ensures { IfOk result (λ pieces. pieces ≡ map (conditions.piece_of (layout_seen layout.now).texts) items.now) }
{
    let mut pieces = Listed::new(alloc);
    for item in items {
        pieces.push(piece_of(layout, item)?)?;
    }
    Ok(pieces)
}

fn text_in(value: Option<Value>) -> u32
    ensures { result ≡ conditions.text_in value }
{
    match value {
        Some(Value::Text(text)) => text,
        _ => 0,
    }
}

fn text_in_piece(piece: Piece) -> u32
    ensures { result ≡ conditions.text_in_piece piece }
{
    match piece {
        Piece::OneText(text) => text,
        Piece::Stretch(_) => 0,
    }
}

fn negation(alloc: Global, condition: PlanCondition) -> Result<PlanCondition, AllocError>
    ensures { IfOk result (λ whole. plan.condition_of whole ≡ plan.Not (plan.condition_of condition)) }
{
    let condition = Box::new(alloc, condition)?;
    Ok(PlanCondition::Not(condition))
}

fn both(
    alloc: Global,
    left: PlanCondition,
    right: PlanCondition,
) -> Result<PlanCondition, AllocError>
    ensures { IfOk result (λ whole. plan.condition_of whole
        ≡ plan.And (plan.condition_of left) (plan.condition_of right)) }
{
    let left = Box::new(alloc, left)?;
    let right = Box::new(alloc, right)?;
    Ok(PlanCondition::And(left, right))
}

fn either(
    alloc: Global,
    left: PlanCondition,
    right: PlanCondition,
) -> Result<PlanCondition, AllocError>
    ensures { IfOk result (λ whole. plan.condition_of whole
        ≡ plan.Or (plan.condition_of left) (plan.condition_of right)) }
{
    let left = Box::new(alloc, left)?;
    let right = Box::new(alloc, right)?;
    Ok(PlanCondition::Or(left, right))
}

// A set against a text: `<>` is NOT of `=`.
fn set_against(
    alloc: Global,
    relator: Relator,
    set: u32,
    text: u32,
) -> Result<PlanCondition, AllocError>
    ensures { IfOk result (λ whole. plan.condition_of whole ≡ conditions.set_against relator (plan.Holds set text)) }
{
    let equality = PlanCondition::Holds { set, text };
    match relator {
        Relator::Unequal => negation(alloc, equality),
        _ => Ok(equality),
    }
}

// The condition, or that the set has one of the texts: the OR of equalities, which groups to the left.
fn or_each(
    alloc: Global,
    before: PlanCondition,
    set: u32,
    pieces: &[Piece],
) -> Result<PlanCondition, AllocError>
    ensures { IfOk result (λ whole. plan.condition_of whole
        ≡ conditions.or_each (plan.condition_of before) set (map conditions.text_in_piece pieces.now)) }
{
    let mut whole = before;
    for piece in pieces {
        let text = text_in_piece(*piece);
        whole = either(alloc, whole, PlanCondition::Holds { set, text })?;
    }
    Ok(whole)
}

// That the set has one of the texts.
fn holds_one(alloc: Global, set: u32, pieces: &[Piece]) -> Result<PlanCondition, AllocError>
    ensures { IfOk result (λ whole. plan.condition_of whole
        ≡ conditions.holds_one set (map conditions.text_in_piece pieces.now)) }
{
    match pieces {
        [] => Ok(PlanCondition::Always),
        [first, rest @ ..] => {
            let text = text_in_piece(*first);
            or_each(alloc, PlanCondition::Holds { set, text }, set, rest)
        }
    }
}

// A comparison of terms.
fn values_compared_at(
    alloc: Global,
    layout: &Layout<'_, '_>,
    site: &Site<'_, '_, '_, '_>,
    left: &Term,
    relator: Relator,
    right: &Term,
) -> Result<PlanCondition, AllocError>
    ensures { IfOk result (λ whole. plan.condition_of whole ≡ plan.Compared (conditions.relation_of relator)
        (terms.term_at (layout_seen layout.now) (site_seen site.now) (term_of left.now))
        (terms.term_at (layout_seen layout.now) (site_seen site.now) (term_of right.now))) }
{
    let left = term_at(alloc, layout, site, left)?;
    let right = term_at(alloc, layout, site, right)?;
    Ok(PlanCondition::Compared(relation_of(relator), left, right))
}

// A comparison whose left side is this operand alone: of a set, or of a value.
fn operand_compared_at(
    alloc: Global,
    layout: &Layout<'_, '_>,
    site: &Site<'_, '_, '_, '_>,
    operand: &Operand,
    left: &Term,
    relator: Relator,
    right: &Term,
) -> Result<PlanCondition, AllocError>
    ensures { IfOk result (λ whole. plan.condition_of whole ≡ conditions.compared_at (layout_seen layout.now)
        (site_seen site.now) (Some operand.now) (term_of left.now) relator (term_of right.now)) }
{
    if site.is_set_meant(operand) {
        let text = text_in(literal_of(layout, right)?);
        set_against(alloc, relator, site.set_meant(layout, operand), text)
    } else {
        values_compared_at(alloc, layout, site, left, relator, right)
    }
}

// That an operand is one of what a list has.
fn within_at(
    alloc: Global,
    layout: &Layout<'_, '_>,
    site: &Site<'_, '_, '_, '_>,
    operand: &Operand,
    items: &[Item],
) -> Result<PlanCondition, AllocError>
    ensures { IfOk result (λ whole. plan.condition_of whole ≡ conditions.relation_at (layout_seen layout.now)
        (site_seen site.now) (trees.Within operand.now items.now)) }
{
    let allowed = pieces_of(alloc, layout, items)?;
    if site.is_set_meant(operand) {
        holds_one(alloc, site.set_meant(layout, operand), allowed.as_slice())
    } else {
        Ok(PlanCondition::IsIn(site.var_meant(layout, operand), allowed))
    }
}

/// The relation as a condition of the plan at the site.
pub fn relation_at(
    alloc: Global,
    layout: &Layout<'_, '_>,
    site: &Site<'_, '_, '_, '_>,
    relation: &Relation,
) -> Result<PlanCondition, AllocError>
    ensures { IfOk result (λ whole. plan.condition_of whole ≡ conditions.relation_at (layout_seen layout.now)
        (site_seen site.now) (trees.relation_of relation.now)) }
{
    match relation {
        Relation::Compared(left, relator, right) => match lone_of(left) {
            Some(operand) => operand_compared_at(
                alloc, layout, site, operand, left, *relator, right,
            ),
            None => values_compared_at(alloc, layout, site, left, *relator, right),
        },
        Relation::Within(operand, items) => {
            within_at(alloc, layout, site, operand.get(), items.as_slice())
        }
    }
}

fn specified_at(
    layout: &Layout<'_, '_>,
    site: &Site<'_, '_, '_, '_>,
    operand: &Operand,
) -> PlanCondition
    ensures { plan.condition_of result ≡ conditions.specified_at (layout_seen layout.now) (site_seen site.now)
        operand.now }
{
    if site.is_set_meant(operand) {
        PlanCondition::Filled(site.set_meant(layout, operand))
    } else {
        PlanCondition::Specified(site.var_meant(layout, operand))
    }
}

/// The condition as the plan has it at the site. What PART_OF asks is met by the slots alone, so there it
/// is always true.
pub fn condition_at(
    alloc: Global,
    layout: &Layout<'_, '_>,
    site: &Site<'_, '_, '_, '_>,
    condition: &Condition,
) -> Result<PlanCondition, AllocError>
    ensures { IfOk result (λ whole. plan.condition_of whole ≡ conditions.condition_at (layout_seen layout.now)
        (site_seen site.now) (trees.condition_of condition.now)) }
{
    match condition {
        Condition::Or(left, right) => either(
            alloc,
            condition_at(alloc, layout, site, left)?,
            condition_at(alloc, layout, site, right)?,
        ),
        Condition::And(left, right) => both(
            alloc,
            condition_at(alloc, layout, site, left)?,
            condition_at(alloc, layout, site, right)?,
        ),
        Condition::Not(inner) => negation(alloc, condition_at(alloc, layout, site, inner)?),
        Condition::Relation(relation) => relation_at(alloc, layout, site, relation),
        Condition::Specified(operand) => Ok(specified_at(layout, site, operand)),
        Condition::PartOf(_, _) => Ok(PlanCondition::Always),
    }
}

/// The same of a condition that may be missing.
pub fn condition_if(
    alloc: Global,
    layout: &Layout<'_, '_>,
    site: &Site<'_, '_, '_, '_>,
    condition: &Option<Box<Condition>>,
) -> Result<Option<PlanCondition>, AllocError>
    ensures { IfOk result (λ asked. option_map plan.condition_of asked ≡ option_map
        (conditions.condition_at (layout_seen layout.now) (site_seen site.now))
        (option_map (λ boxed. trees.condition_of boxed.value) condition.now)) }
{
    match condition {
        Some(condition) => Ok(Some(condition_at(alloc, layout, site, condition)?)),
        None => Ok(None),
    }
}
