//! Numbers that are told apart as far as the cells of a plan are counted.

ghost use Rattle.std.specs.Prelude.{◌≡◌, ◌+◌};
ghost use Rattle.vc_plan.specs.Bounds.{only_if};
ghost use Rattle.vc_net_places.specs.Cells.{total};
ghost use Rattle.vc_net_bounds.specs.Capping.{capped};

/// The most cells that a plan may need.
pub const MOST_CELLS: u32 = 500_000;

/// The number; one more than the most cells where it is greater than they are.
pub fn capped(number: usize) -> u32
    ensures { result ≡ capped number }
{
    number.min(500_001) as u32
}

/// The sum, as far as it is told.
pub fn capped_sum(first: u32, second: u32) -> u32
    ensures { result ≡ capped (first + second) }
{
    first.saturating_add(second).min(500_001)
}

/// One more where it is counted, as far as that is told.
pub fn capped_count(counts: bool, count: u32) -> u32
    ensures { result ≡ capped (count + only_if counts 1) }
{
    if counts {
        capped_sum(count, 1)
    } else {
        capped_sum(count, 0)
    }
}

/// All of the numbers together, as far as that is told.
#[tactic(auto, using(crate::proofs::CappingLemmas::sum_next, crate::proofs::CappingLemmas::sum_done))]
pub fn capped_total(numbers: &[u32]) -> u32
    ensures { result ≡ capped (total numbers.now) }
{
    let mut sum = 0;
    let mut rest = numbers;
    while let [number, more @ ..] = rest {
        sum = capped_sum(sum, *number);
        rest = more;
    }
    sum
}
