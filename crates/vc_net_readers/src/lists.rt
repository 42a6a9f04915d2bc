//! Lists of numbers, one after another in one piece of memory: what a look-up reads lies close together, and a list
//! takes no memory of its own.

ghost use Rattle.std.specs.Prelude.{◌≡◌, ◌+◌, ◌-◌, ◌∷◌, ◌++◌, [], drop, length, take, OnOk};

use crate::touched::append_all;
use std::alloc::{AllocError, Global};
use std::marker::Model;
use vc_value::Listed;

/// Where a list begins among the numbers, and where it ends.
#[derive(Clone, Copy, Debug, PartialEq, Eq)]
pub struct Span {
    pub begin: usize,
    pub end: usize,
}

/// Lists of numbers, one after another. All memory is taken at `new`.
#[derive(Debug, Drop)]
pub struct Lists {
    spans: Listed<Span>,
    numbers: Listed<u32>,
}

impl Model for Lists {
    ghost use Rattle.std.specs.Prelude.{ℕ, List, map};
    ghost use Rattle.vc_net_readers.specs.Lists.{numbers_in};

    ghost Value = { List (List ℕ) };

    ghost view = { λ l. map (numbers_in l.numbers) l.spans };
}

impl Lists {
    ghost use Rattle.std.specs.Prelude.{◌≡◌, IfOk};
    ghost use Rattle.vc_net_readers.specs.Filing.{list_at};

    /// These lists.
    pub fn new(alloc: Global, lists: &[Listed<u32>]) -> Result<Lists, AllocError>
        ensures { IfOk result (λ all. all ≡ lists.now) }
    {
        let mut spans = Listed::from_vec(Vec::with_capacity(alloc, lists.len())?);
        let mut numbers = Listed::new(alloc);
        let mut rest = lists;
        while let [list, more @ ..] = rest {
            push_list(list.as_slice(), &mut spans, &mut numbers)?;
            rest = more;
        }
        Ok(Lists { spans, numbers })
    }

    /// The list of this number; none where there is no such list.
    #[tactic(auto, using(crate::proofs::ListLemmas::list_told))]
    pub fn at(&self, place: usize) -> &[u32]
        ensures { result.now ≡ list_at self.now place }
    {
        match self.spans.as_slice().get(place) {
            Some(span) => between(self.numbers.as_slice(), span.begin, span.end),
            None => &[],
        }
    }
}

// Puts a list after the others.
#[tactic(auto, using(crate::proofs::ListLemmas::length_joined))]
fn push_list(
    list: &[u32],
    spans: &mut Listed<Span>,
    numbers: &mut Listed<u32>,
) -> Result<(), AllocError>
    ensures spans { OnOk result (spans.new ≡ spans.old
        ++ record { begin = length numbers.old; end = length numbers.old + length list.now } ∷ []) }
    ensures numbers { OnOk result (numbers.new ≡ numbers.old ++ list.now) }
{
    let begin = numbers.len();
    append_all(list, numbers)?;
    let end = numbers.len();
    spans.push(Span { begin, end })
}

// The numbers from the first place on, before the second one.
fn between(numbers: &[u32], begin: usize, end: usize) -> &[u32]
    ensures { result.now ≡ take (end - begin) (drop begin numbers.now) }
{
    first_of(from_place(numbers, begin), end.saturating_sub(begin))
}

#[tactic(auto, using(std::proofs::lemmas::List::drop_all))]
fn from_place(numbers: &[u32], place: usize) -> &[u32]
    ensures { result.now ≡ drop place numbers.now }
{
    if place <= numbers.len() {
        &numbers[place..]
    } else {
        &[]
    }
}

#[tactic(auto, using(std::proofs::lemmas::List::take_all))]
fn first_of(numbers: &[u32], count: usize) -> &[u32]
    ensures { result.now ≡ take count numbers.now }
{
    if count <= numbers.len() {
        &numbers[..count]
    } else {
        numbers
    }
}
