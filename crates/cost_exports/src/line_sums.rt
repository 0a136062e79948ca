// What the lines of one file cost.
ghost use Rattle.std.specs.Prelude.{◌≡◌, ◌+◌, ◌<◌, ◌^◌, OnOk, OnErr, IfOk};
ghost use Rattle.std.specs.Ordering.{nat_cmp};
ghost use Rattle.cost_rows.specs.Plain.{plain_cell};
ghost use Rattle.cost_rows.specs.KeySums.{sum_end};
ghost use Rattle.report_texts.specs.Amounts.{amount_of, with_amount};
ghost use Rattle.report_texts.specs.Annotations.{cost_at, no_lines, with_line};

use cost_rows::{CellRow, merge_cost};
use std::alloc::{AllocError, Global};
use std::collections::BTreeMap;
use std::marker::Model;

/// Adds a cost to that of its line; one of 0 adds nothing. A refusal leaves the costs as they were.
fn add_cost(sums: &mut BTreeMap<u64, u128>, line: u64, cost: u128) -> Result<(), AllocError>
    requires small { amount_of sums.old.entries + cost < 2 ^ 128 }
    ensures ok { OnOk result (sums.new.entries ≡ with_amount nat_cmp sums.old.entries line cost) }
    ensures total { OnOk result (amount_of sums.new.entries ≡ amount_of sums.old.entries + cost) }
    ensures err { OnErr result (sums.new.entries ≡ sums.old.entries) }
{
    if cost == 0 {
        return Ok(());
    }
    merge_cost(sums, line, cost)
}

/// What the lines of one file cost, added up row by row: contracts see the file, whether a row of it
/// came, and a cost above 0 for each line, in order.
#[derive(Drop)]
pub struct LineSums {
    file: Vec<u8>,
    known: bool,
    sums: BTreeMap<u64, u128>,
    total: u128,
    ghost is_total: { total ≡ amount_of sums.entries },
    ghost small: { total < sum_end },
}

impl Model for LineSums {
    ghost use Rattle.report_texts.specs.Annotations.{FileCosts};

    ghost Value = { FileCosts };

    ghost view = { λ a. record { file = a.file.items; known = a.known; costs = a.sums.entries } };
}

impl LineSums {
    /// Of a file of this name; no row was added.
    pub fn new(alloc: Global, file: &[u8]) -> Result<LineSums, AllocError>
        ensures { IfOk result (λ sums. sums ≡ no_lines file.now) }
    {
        Ok(LineSums {
            file: file.to_vec(alloc)?,
            known: false,
            sums: BTreeMap::new(alloc),
            total: 0,
        })
    }

    /// The file.
    pub fn file(&self) -> &[u8]
        ensures { result.now ≡ self.now.file }
    {
        self.file.as_slice()
    }

    /// Whether a row of the file was added, of whatever cost.
    pub fn is_known(&self) -> bool
        ensures { result ≡ self.now.known }
    {
        self.known
    }

    /// What all lines cost.
    pub fn total(&self) -> u128
        ensures value { result ≡ amount_of self.now.costs }
        ensures small { result < sum_end }
    {
        self.total
    }

    /// What a line cost.
    pub(crate) fn cost_at(&self, line: u64) -> u128
        ensures { result ≡ cost_at line self.now.costs }
    {
        let _ordered = self.sums.len();
        self.sums.get(&line).copied().unwrap_or(0)
    }

    /// Adds a row, if it is of the file: its cost to that of its line. A row of cost 0, as one of another
    /// event, tells that the file is known. A refusal leaves the sums as they were.
    pub fn add(&mut self, row: &CellRow<&[u8]>) -> Result<(), AllocError>
        requires small { amount_of self.old.costs + row.now.cost < sum_end }
        ensures ok { OnOk result (self.new ≡ with_line self.old (plain_cell row.now)) }
        ensures err { OnErr result (self.new ≡ self.old) }
    {
        if row.file != self.file.as_slice() {
            return Ok(());
        }
        add_cost(&mut self.sums, row.line, row.cost)?;
        self.total += row.cost;
        self.known = true;
        Ok(())
    }
}
