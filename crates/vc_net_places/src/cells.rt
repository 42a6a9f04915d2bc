//! The cells of places: where the premises of what stands at a place are kept.

use std::alloc::{AllocError, Global};
use std::marker::Model;
use vc_value::Listed;

/// Where the cells of each place begin, one after another in the order of the places, and where the last end. All
/// memory is taken at `new`.
#[derive(Debug, Drop)]
pub struct Cells {
    begins: Listed<u32>,
}

impl Model for Cells {
    ghost use Rattle.std.specs.Prelude.{List, ℕ};

    ghost Value = { List ℕ };

    ghost view = { λ c. c.begins };
}

impl Cells {
    ghost use Rattle.std.specs.Prelude.{◌≡◌, ◌^◌, ◌<◌, length, slice_get, IfOk, Some};
    ghost use Rattle.vc_net_places.specs.Cells.{begins_from, total};

    /// The cells of places of which each needs so many.
    pub fn new(alloc: Global, bounds: &[u32]) -> Result<Cells, AllocError>
        requires { total bounds.now < 2 ^ 32 }
        ensures { IfOk result (λ cells. cells ≡ begins_from 0 bounds.now) }
    {
        let mut begins = Listed::new(alloc);
        let mut end = 0;
        let mut rest = bounds;
        while let [bound, more @ ..] = rest {
            begins.push(end)?;
            end += *bound;
            rest = more;
        }
        begins.push(end)?;
        Ok(Cells { begins })
    }

    /// Where the cells of the place begin; of the number after the last place, where all end.
    pub fn begin(&self, place: usize) -> usize
        requires { place < length self.now }
        ensures { slice_get self.now place ≡ Some result }
    {
        self.begins.as_slice()[place] as usize
    }
}
