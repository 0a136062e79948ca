// Rows of many files, added up by key.
ghost use Rattle.std.specs.Prelude.{◌≡◌, ◌+◌, ◌<◌, OnOk, OnErr, [], length};
ghost use Rattle.std.specs.List.Sorted.{IsStrictlySortedBy};
ghost use Rattle.std.specs.Map.{keys_of};
ghost use Rattle.cost_rows.specs.Keys.{named_cmp, plain_sums};
ghost use Rattle.cost_rows.specs.KeySums.{with_row, total_of, rows_of, sum_end};
ghost use Rattle.cost_rows.specs.Plain.{plain_cell};

use crate::keys::{Key, Part};
use crate::merging::merge_cost;
use crate::rows::CellRow;
use crate::sum_rows::SumRows;
use std::alloc::{AllocError, Global};
use std::collections::BTreeMap;
use std::marker::Model;

/// Sums of reports stay below this: those of all files that a store can hold do.
pub const SUM_END: u128 = 1 << 112;

/// Rows of many files, added up by a key: contracts see the key, and a sum above 0 for each part of
/// a place that it tells, in the order of the names' bytes and the line. An ordered map holds the sums: no file
/// can choose names that collide.
#[derive(Drop)]
pub struct Merged {
    alloc: Global,
    key: Key,
    sums: BTreeMap<Part, u128>,
    total: u128,
    ghost is_total: { total ≡ total_of (plain_sums sums.entries) },
    ghost small: { total < sum_end },
}

impl Model for Merged {
    ghost use Rattle.cost_rows.specs.Keys.{plain_sums};
    ghost use Rattle.cost_rows.specs.KeySums.{Sums};

    ghost Value = { Sums };

    ghost view = { λ a. record { key = a.key; sums = plain_sums a.sums.entries } };
}

impl Merged {
    /// No row was added. Takes no memory.
    pub fn new(alloc: Global, key: Key) -> Merged
        ensures key { result.key ≡ key }
        ensures sums { result.sums ≡ [] }
    {
        Merged {
            alloc,
            key,
            sums: BTreeMap::new(alloc),
            total: 0,
        }
    }

    /// What rows are added up by.
    pub fn key(&self) -> Key
        ensures { result ≡ self.now.key }
    {
        self.key
    }

    /// How many sums there are.
    pub fn len(&self) -> usize
        ensures { result ≡ length self.now.sums }
    {
        self.sums.len()
    }

    /// The sum of all costs that were added.
    pub fn total(&self) -> u128
        ensures value { result ≡ total_of self.now.sums }
        ensures small { result < sum_end }
    {
        self.total
    }

    /// Adds a row's cost to the sum of the part of its place that the key tells; a cost of 0 adds
    /// nothing. A refusal leaves the sums as they were.
    pub fn add(&mut self, row: &CellRow<&[u8]>) -> Result<(), AllocError>
        requires small { total_of self.old.sums + row.now.cost < sum_end }
        ensures ok { OnOk result (self.new ≡ with_row self.old (plain_cell row.now)) }
        ensures total { OnOk result (total_of self.new.sums ≡ total_of self.old.sums + row.now.cost) }
        ensures err { OnErr result (self.new ≡ self.old) }
    {
        if row.cost == 0 {
            return Ok(());
        }
        let part = self.key.part(row).to_part(self.alloc)?;
        merge_cost(&mut self.sums, part, row.cost)?;
        self.total += row.cost;
        Ok(())
    }

    /// The sums as rows of event 0, by key, in the order of their parts: the parts outside the key are
    /// `???` and line 0. Takes no memory.
    pub fn rows(&self) -> SumRows<'_>
        ensures rows { result ≡ rows_of self.now.sums }
        ensures order { IsStrictlySortedBy named_cmp (keys_of self.now.sums) }
    {
        SumRows {
            entries: self.sums.iter(),
        }
    }
}
