// Rows whose names are lent, added up by key.
ghost use Rattle.std.specs.Prelude.{◌≡◌, ◌+◌, ◌<◌, [], OnOk, OnErr, length};
ghost use Rattle.cost_rows.specs.KeySums.{total_of, with_row, sum_end};
ghost use Rattle.cost_rows.specs.Plain.{plain_cell};
ghost use Rattle.cost_rows.specs.Keys.{lent_place};
ghost use Rattle.cost_reports.specs.InStep.{IsInOrder};
ghost use Rattle.cost_reports.specs.Rows.{lent_sums};

use cost_rows::{CellRow, Key, LentPlace, merge_cost};
use std::alloc::{AllocError, Global};
use std::collections::BTreeMap;
use std::collections::btree_map::Iter;
use std::marker::Model;

/// Rows whose names are lent, added up by a key: contracts see the key, and a sum above 0 for each part of a place that
/// it tells, in the order of the names' bytes, the line and the thread. A sum takes the same memory whatever its names.
#[derive(Drop)]
pub struct LentSums<'n> {
    key: Key,
    sums: BTreeMap<LentPlace<'n>, u128>,
    total: u128,
    ghost is_total: { total ≡ total_of (lent_sums sums.entries) },
    ghost small: { total < sum_end },
}

impl<'n> Model for LentSums<'n> {
    ghost use Rattle.cost_rows.specs.KeySums.{Sums};
    ghost use Rattle.cost_reports.specs.Rows.{lent_sums};

    ghost Value = { Sums };

    ghost view = { λ a. record { key = a.key; sums = lent_sums a.sums.entries } };
}

impl<'n> LentSums<'n> {
    /// No row was added. Takes no memory.
    pub fn new(alloc: Global, key: Key) -> LentSums<'n>
        ensures key { result.key ≡ key }
        ensures sums { result.sums ≡ [] }
    {
        LentSums {
            key,
            sums: BTreeMap::new(alloc),
            total: 0,
        }
    }

    /// What rows are added up by.
    pub fn key(&self) -> Key
        ensures { result ≡ self.now.key }
    {
        self.key
    }

    /// How many sums there are.
    pub fn len(&self) -> usize
        ensures { result ≡ length self.now.sums }
    {
        self.sums.len()
    }

    /// The sum of all costs that were added.
    pub fn total(&self) -> u128
        ensures value { result ≡ total_of self.now.sums }
        ensures small { result < sum_end }
    {
        self.total
    }

    /// Adds a row's cost to the sum of the part of its place that the key tells; a cost of 0 adds nothing. A refusal
    /// leaves the sums as they were.
    pub fn add(&mut self, row: &CellRow<&'n [u8]>) -> Result<(), AllocError>
        requires small { total_of self.old.sums + row.now.cost < sum_end }
        ensures ok { OnOk result (self.new ≡ with_row self.old (plain_cell row.now)) }
        ensures total { OnOk result (total_of self.new.sums ≡ total_of self.old.sums + row.now.cost) }
        ensures err { OnErr result (self.new ≡ self.old) }
    {
        if row.cost == 0 {
            return Ok(());
        }
        merge_cost(&mut self.sums, self.key.part(row), row.cost)?;
        self.total += row.cost;
        Ok(())
    }

    /// The parts with their sums, in order. Takes no memory.
    pub fn iter(&self) -> Iter<'_, LentPlace<'n>, u128>
        ensures sums { lent_sums result ≡ self.now.sums }
        ensures order { IsInOrder self.now.sums }
    {
        self.sums.iter()
    }
}
