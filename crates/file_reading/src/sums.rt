// A sink that adds up the self costs of a file, by event.
ghost use Rattle.std.specs.Prelude.{◌≡◌, ◌*◌, ◌≤◌, ◌^◌, All, None, []};

use profile_records::{CallCost, SelfCost, Sink, add_costs};
use std::alloc::{AllocError, Global};

/// The sums of the self costs so far, by column.
#[derive(Drop)]
pub struct CostSums {
    sums: Vec<u128>,
    last: u64,
    width: Option<u64>,
    ghost small: { All (λ s. s ≤ last * 2 ^ 63) sums.items },
}

impl CostSums {
    /// Nothing was added.
    pub fn new(alloc: Global) -> CostSums
        ensures sums { result.sums.items ≡ [] }
        ensures last { result.last ≡ 0 }
        ensures width { result.width ≡ None }
    {
        CostSums {
            sums: Vec::new(alloc),
            last: 0,
            width: None,
        }
    }

    /// The sums, of which one that is absent is 0.
    pub fn as_slice(&self) -> &[u128]
        ensures { result.now ≡ self.now.sums.items }
    {
        self.sums.as_slice()
    }
}

impl Sink for CostSums {
    ghost use Rattle.std.specs.Prelude.{ℕ, List};
    ghost use Rattle.file_reading.specs.Sums.{add_record, knows_none};

    ghost Meaning = { List ℕ };

    ghost meaning = { λ s. s.sums.items };

    ghost step = { add_record };

    ghost last = { λ s. s.last };

    ghost width = { λ s. s.width };

    ghost known = { knows_none };

    fn self_cost(&mut self, r: SelfCost<'_>) -> Result<(), AllocError> {
        add_costs(&mut self.sums, r.costs)?;
        self.last = r.at;
        self.width = Some(r.costs.len() as u64);
        Ok(())
    }

    fn call(&mut self, r: CallCost<'_>) -> Result<(), AllocError> {
        self.last = r.at;
        self.width = Some(r.costs.len() as u64);
        Ok(())
    }
}
