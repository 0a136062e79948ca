// What rows cost, added up by the numbers of their names.
ghost use Rattle.std.specs.Prelude.{◌≡◌, ◌+◌, ◌<◌, OnOk, OnErr, []};
ghost use Rattle.cost_rows.specs.KeySums.{sum_end};
ghost use Rattle.selected_runs.specs.Sums.{numbers_total, with_number};

use crate::part_sums::PartSums;
use crate::parts::part_of_row;
use cost_rows::{CellRow, Key};
use std::alloc::{AllocError, Global};
use std::marker::Model;

/// What rows cost, added up by the parts of their places that a key tells, with names by their numbers:
/// contracts see the key, and a sum above 0 for each part, in the order of the numbers, the line and the
/// thread.
#[derive(Drop)]
pub struct NumberSums {
    pub(crate) key: Key,
    pub(crate) sums: PartSums,
    pub(crate) total: u128,
    ghost is_total: { total ≡ numbers_total sums },
    ghost small: { total < sum_end },
}

impl Model for NumberSums {
    ghost use Rattle.selected_runs.specs.Sums.{SumsByNumber};

    ghost Value = { SumsByNumber };

    ghost view = { λ a. record { key = a.key; sums = a.sums } };
}

impl NumberSums {
    /// No row was added. Takes no memory.
    pub fn new(alloc: Global, key: Key) -> NumberSums
        ensures key { result.key ≡ key }
        ensures sums { result.sums ≡ [] }
    {
        NumberSums {
            key,
            sums: PartSums::new(alloc),
            total: 0,
        }
    }

    /// What rows are added up by.
    pub fn key(&self) -> Key
        ensures { result ≡ self.now.key }
    {
        self.key
    }

    /// The sum of all costs that were added.
    pub fn total(&self) -> u128
        ensures value { result ≡ numbers_total self.now.sums }
        ensures small { result < sum_end }
    {
        self.total
    }

    /// Adds a row's cost to the sum of the part of its place that the key tells; a cost of 0 adds nothing. A
    /// refusal leaves the sums as they were.
    pub fn add(&mut self, row: &CellRow<u32>) -> Result<(), AllocError>
        requires small { numbers_total self.old.sums + row.now.cost < sum_end }
        ensures ok { OnOk result (self.new ≡ with_number self.old row.now) }
        ensures total { OnOk result (numbers_total self.new.sums ≡ numbers_total self.old.sums + row.now.cost) }
        ensures err { OnErr result (self.new ≡ self.old) }
    {
        if row.cost == 0 {
            return Ok(());
        }
        self.sums.add(&part_of_row(self.key, row), row.cost)?;
        self.total += row.cost;
        Ok(())
    }
}
