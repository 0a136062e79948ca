// The totals that the lines of a file state.
ghost use Rattle.std.specs.Prelude.{◌≡◌, ◌+◌, ◌<◌, ◌≤◌, ◌^◌, [], List, IfOk};
ghost use Rattle.cg_text.specs.Readings.{Reading};
ghost use Rattle.callgrind_reader.specs.Costs.{AreAmounts};
ghost use Rattle.callgrind_reader.specs.Totals.{first_stated};

use crate::totals::Sums;
use cg_text::ListVec;
use std::alloc::{AllocError, Global};

/// A key whose lines state totals.
#[derive(Clone, Copy)]
pub enum StatedKey {
    Totals,
    Summary,
}

/// Sums over the lines of each of these keys.
#[derive(Drop)]
pub struct Stated {
    pub(crate) totals: Sums,
    pub(crate) summary: Sums,
}

impl Stated {
    ghost use Rattle.callgrind_reader.specs.Stated.{StatedIs, AddsLine, stated_lines};

    /// No line is added yet.
    pub fn new(alloc: Global) -> Result<Stated, AllocError>
        ensures stated { IfOk result (λ s. StatedIs s []) }
        ensures lines { IfOk result (λ s. stated_lines s ≡ 0) }
    {
        Ok(Stated {
            totals: Sums::new(alloc)?,
            summary: Sums::new(alloc)?,
        })
    }

    /// Adds the amounts of a line.
    pub fn add(&mut self, key: StatedKey, amounts: &[u64])
        requires small { AreAmounts amounts.now }
        requires few { stated_lines self.old < 2 ^ 63 }
        ensures stated { AddsLine key amounts.now self.old self.new }
        ensures lines { stated_lines self.new ≡ stated_lines self.old + 1 }
    {
        match key {
            StatedKey::Totals => self.totals.add(amounts),
            StatedKey::Summary => self.summary.add(amounts),
        }
    }

    /// The first columns of what the lines state, by the first key that has lines.
    pub fn first(&self, alloc: Global, count: usize) -> Result<Option<ListVec<u128>>, AllocError>
        requires { count ≤ 64 }
        ensures { IfOk result (λ stated. (back : List Reading) → StatedIs self.now back → stated ≡ first_stated count back) }
    {
        if let Some(totals) = self.totals.first(alloc, count)? {
            return Ok(Some(totals));
        }
        self.summary.first(alloc, count)
    }
}
