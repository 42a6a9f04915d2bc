//! Lists of rules, to which a rule is put at several places, each time once.

ghost use Rattle.std.specs.Prelude.{◌≡◌, [], replicate, IfOk, OnOk};
ghost use Rattle.vc_net_readers.specs.Filing.{ends_with, filed_at, filed_at_all, put_once};

use std::alloc::{AllocError, Global};
use vc_value::Listed;

fn ends_with(list: &[u32], number: u32) -> bool
    ensures { result ≡ ends_with list.now number }
{
    match list.get(list.len().saturating_sub(1)) {
        Some(last) => *last == number,
        None => false,
    }
}

fn put_once(list: &mut Listed<u32>, number: u32) -> Result<(), AllocError>
    ensures { OnOk result (list.new ≡ put_once list.old number) }
{
    if ends_with(list.as_slice(), number) {
        Ok(())
    } else {
        list.push(number)
    }
}

/// Puts the rule last in the list at the place, unless it stands last there, or there is no such place.
pub fn file_at(lists: &mut Vec<Listed<u32>>, place: usize, rule: u32) -> Result<(), AllocError>
    ensures { OnOk result (lists.new.items ≡ filed_at lists.old.items place rule) }
{
    match lists.get_mut(place) {
        Some(list) => put_once(list, rule),
        None => Ok(()),
    }
}

/// The same at each of the places.
pub fn file_at_all(
    lists: &mut Vec<Listed<u32>>,
    places: &[u32],
    rule: u32,
) -> Result<(), AllocError>
    ensures { OnOk result (lists.new.items ≡ filed_at_all lists.old.items places.now rule) }
{
    let mut rest = places;
    while let [place, more @ ..] = rest {
        file_at(lists, *place as usize, rule)?;
        rest = more;
    }
    Ok(())
}

/// So many lists of none.
#[tactic(auto, using(vc_net_places::proofs::PlaceLaws::Things::replicate_next))]
pub fn empty_lists(alloc: Global, count: usize) -> Result<Vec<Listed<u32>>, AllocError>
    ensures { IfOk result (λ lists. lists.items ≡ replicate count []) }
{
    let mut lists = Vec::new(alloc);
    for place in 0..count {
        lists.push(Listed::new(alloc))?;
    }
    Ok(lists)
}
