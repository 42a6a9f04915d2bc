//! Premises in cells, as numbers of their places.

ghost use Rattle.std.specs.Prelude.{◌≡◌, ◌+◌, ◌^◌, ◌<◌, ◌≤◌, true, nat_lt, length, map, slice_index_or};
ghost use Rattle.std.specs.List.{list_all};
ghost use Rattle.vc_net_places.specs.Places.{place_in};
ghost use Rattle.vc_net_log.specs.Keeping.{cells_at, written};

use vc_net_places::{Cells, Places};
use vc_plan::Atom;
use vc_value::Listed;

/// Writes the places of the atoms into the cells, from the first on.
pub fn write_places(places: &Places, atoms: &[Atom], first: usize, cells: &mut Listed<u32>)
    requires room { first + length atoms.now ≤ length cells.old }
    requires few { length cells.old < 2 ^ 32 }
    requires small { list_all (λ atom. nat_lt (place_in places.now atom) (2 ^ 32)) atoms.now ≡ true }
    ensures { cells.new ≡ written first (map (place_in places.now) atoms.now) cells.old }
{
    let mut at = first;
    let mut rest = atoms;
    while let [atom, more @ ..] = rest {
        cells.set(at, places.place_of(*atom) as u32);
        at += 1;
        rest = more;
    }
}

/// The places of the premises that are kept at a place.
pub fn premises_at<'a>(
    cells: &Cells,
    counts: &[u32],
    premises: &'a [u32],
    place: usize,
) -> &'a [u32]
    requires begins { place < length cells.now }
    requires counts { place < length counts.now }
    requires inside { (slice_index_or cells.now place 0) + (slice_index_or counts.now place 0) ≤ length premises.now }
    ensures { result.now ≡ cells_at cells.now counts.now premises.now place }
{
    let begin = cells.begin(place);
    &premises[begin..begin + counts[place] as usize]
}
