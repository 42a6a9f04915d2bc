//! What stands in a condition.

ghost use Rattle.std.specs.Prelude.{◌≡◌, ◌++◌, OnOk};
ghost use Rattle.vc_syntax_tree.specs.Trees.{condition_of};
ghost use Rattle.vc_types.specs.Occurrences.{relations_of, parted_in};
ghost use Rattle.vc_types_occurrences.specs.Seen.{relations_seen, leaves_seen};

use std::alloc::AllocError;
use vc_syntax_tree::{Condition, NameLeaf, Relation};
use vc_value::Listed;

/// Puts the relations of a condition.
pub fn put_relations<'a>(
    out: &mut Listed<&'a Relation>,
    condition: &'a Condition,
) -> Result<(), AllocError>
    ensures { OnOk result (relations_seen out.new ≡ relations_seen out.old ++ relations_of
        (condition_of condition.now)) }
{
    match condition {
        Condition::Or(left, right) => {
            put_relations(out, left)?;
            put_relations(out, right)
        }
        Condition::And(left, right) => {
            put_relations(out, left)?;
            put_relations(out, right)
        }
        Condition::Not(inner) => put_relations(out, inner),
        Condition::Relation(relation) => out.push(relation),
        Condition::Specified(_) => Ok(()),
        Condition::PartOf(_, _) => Ok(()),
    }
}

/// Puts the variables of each PART_OF of a condition.
pub fn put_parted<'a>(
    out: &mut Listed<&'a NameLeaf>,
    condition: &'a Condition,
) -> Result<(), AllocError>
    ensures { OnOk result (leaves_seen out.new ≡ leaves_seen out.old ++ parted_in (condition_of condition.now)) }
{
    match condition {
        Condition::Or(left, right) => {
            put_parted(out, left)?;
            put_parted(out, right)
        }
        Condition::And(left, right) => {
            put_parted(out, left)?;
            put_parted(out, right)
        }
        Condition::Not(inner) => put_parted(out, inner),
        Condition::Relation(_) => Ok(()),
        Condition::Specified(_) => Ok(()),
        Condition::PartOf(part, whole) => {
            out.push(part.get())?;
            out.push(whole)
        }
    }
}
