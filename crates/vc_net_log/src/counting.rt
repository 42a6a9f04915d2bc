//! How many grains of each variable are out.

ghost use Rattle.std.specs.Prelude.{◌≡◌, ◌+◌, ◌++◌, ◌^◌, ◌<◌, ℕ, List, length, slice_index_or};
ghost use Rattle.vc_plan.specs.declared.atoms.Atom.{Atom};
ghost use Rattle.vc_net_standing.specs.Standing.{atoms_of};
ghost use Rattle.vc_net_log.specs.Keeping.{IsCounted, lowered_at, raised_at};

use vc_net_standing::Fact;
use vc_plan::Atom;
use vc_value::Listed;

/// Counts an atom that comes.
pub fn count_one_more(atom: Atom, outs: &mut Listed<u32>)
    requires { (v : ℕ) → slice_index_or outs.old v 0 + 1 < 2 ^ 32 }
    ensures { outs.new ≡ raised_at atom outs.old }
{
    if let Atom::Out(var, _) = atom {
        let var = var as usize;
        if var < outs.len() {
            let count = outs.as_slice()[var];
            outs.set(var, count + 1);
        }
    }
}

// Counts an atom no more.
fn count_one_less(atom: Atom, outs: &mut Listed<u32>)
    ensures { outs.new ≡ lowered_at atom outs.old }
{
    if let Atom::Out(var, _) = atom {
        let var = var as usize;
        if var < outs.len() {
            let count = outs.as_slice()[var];
            outs.set(var, count.saturating_sub(1));
        }
    }
}

/// Counts facts no more.
pub fn count_less(facts: &[Fact], outs: &mut Listed<u32>)
    ensures counted { (others : List Atom) → IsCounted (others ++ atoms_of facts.now) outs.old
        → IsCounted others outs.new }
    ensures long { length outs.new ≡ length outs.old }
{
    let mut rest = facts;
    while let [fact, more @ ..] = rest {
        count_one_less(fact.atom, outs);
        rest = more;
    }
}
