//! The steps of a log as data.

ghost use Rattle.std.specs.Prelude.{◌≡◌, ◌<◌, length, map, IfOk};
ghost use Rattle.vc_net_places.specs.Places.{place_in};
ghost use Rattle.vc_net_standing.specs.Standing.{places_of};
ghost use Rattle.vc_net_log.specs.Keeping.{AreCells, log_kept, number_at, step_kept};

use crate::cells::premises_at;
use std::alloc::{AllocError, Global};
use vc_net_places::Cells;
use vc_net_standing::{Fact, Standing};
use vc_plan::Step;
use vc_value::Listed;

/// The number of the step that concludes what is at the place, counted from 1; 0 where none does.
pub fn number_at(standing: &Standing, place: usize) -> u32
    ensures { result ≡ number_at (places_of standing.now.index standing.now.facts) place }
{
    match standing.number_by_place(place) {
        Some(number) => number as u32 + 1,
        None => 0,
    }
}

// The numbers of the steps that conclude what is at the places.
fn numbers_at(alloc: Global, standing: &Standing, places: &[u32]) -> Result<Listed<u32>, AllocError>
    ensures { IfOk result (λ numbers. numbers
        ≡ map (number_at (places_of standing.now.index standing.now.facts)) places.now) }
{
    let mut numbers = Listed::new(alloc);
    let mut rest = places;
    while let [place, more @ ..] = rest {
        numbers.push(number_at(standing, *place as usize))?;
        rest = more;
    }
    Ok(numbers)
}

// The step that concludes the fact.
fn step_of(
    alloc: Global,
    standing: &Standing,
    cells: &Cells,
    counts: &[u32],
    premises: &[u32],
    fact: Fact,
) -> Result<Step, AllocError>
    requires kept { AreCells standing.now cells.now counts.now premises.now }
    requires place { place_in standing.now.index fact.atom < length standing.now.index.things }
    ensures { IfOk result (λ step. step ≡ step_kept standing.now cells.now counts.now premises.now fact) }
{
    let place = standing.places().place_of(fact.atom);
    let premises = premises_at(cells, counts, premises, place);
    Ok(Step {
        conclusion: fact.atom,
        origin: fact.origin,
        premises: numbers_at(alloc, standing, premises)?,
    })
}

/// The steps that conclude the facts.
pub fn steps_of(
    alloc: Global,
    standing: &Standing,
    cells: &Cells,
    counts: &[u32],
    premises: &[u32],
) -> Result<Listed<Step>, AllocError>
    requires { AreCells standing.now cells.now counts.now premises.now }
    ensures { IfOk result (λ steps. steps ≡ (log_kept standing.now cells.now counts.now premises.now).steps) }
{
    let mut steps = Listed::new(alloc);
    let mut rest = standing.facts();
    while let [fact, more @ ..] = rest {
        let step = step_of(alloc, standing, cells, counts, premises, *fact)?;
        steps.push(step)?;
        rest = more;
    }
    Ok(steps)
}
