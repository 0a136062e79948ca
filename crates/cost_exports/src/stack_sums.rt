// Stacks with their counts.
ghost use Rattle.std.specs.Prelude.{◌≡◌, ◌+◌, ◌<◌, ◌^◌, [], OnOk, OnErr};
ghost use Rattle.cost_rows.specs.Plain.{plain_stack};
ghost use Rattle.cost_rows.specs.Stacks.{bytes_cmp, by_bytes};
ghost use Rattle.cost_rows.specs.KeySums.{sum_end};
ghost use Rattle.report_texts.specs.Amounts.{amount_of, with_amount};
ghost use Rattle.report_texts.specs.Folded.{with_stack};

use cost_rows::{StackRow, merge_cost};
use std::alloc::{AllocError, Global};
use std::collections::BTreeMap;
use std::collections::btree_map::Iter;
use std::marker::Model;

/// Adds a count to that of a stack; one of 0 adds nothing. A refusal leaves the counts as they were.
fn add_count(
    alloc: Global,
    sums: &mut BTreeMap<Vec<u8>, u128>,
    stack: &[u8],
    count: u128,
) -> Result<(), AllocError>
    requires small { amount_of (by_bytes sums.old.entries) + count < 2 ^ 128 }
    ensures ok { OnOk result (by_bytes sums.new.entries ≡ with_amount bytes_cmp (by_bytes sums.old.entries) stack.now count) }
    ensures total { OnOk result (amount_of (by_bytes sums.new.entries) ≡ amount_of (by_bytes sums.old.entries) + count) }
    ensures err { OnErr result (sums.new.entries ≡ sums.old.entries) }
{
    if count == 0 {
        return Ok(());
    }
    merge_cost(sums, stack.to_vec(alloc)?, count)
}

/// Stacks with their counts, added up row by row: contracts see a count above 0 for each stack, in the
/// order of their bytes.
#[derive(Drop)]
pub struct StackSums {
    alloc: Global,
    sums: BTreeMap<Vec<u8>, u128>,
    total: u128,
    ghost is_total: { total ≡ amount_of (by_bytes sums.entries) },
    ghost small: { total < sum_end },
}

impl Model for StackSums {
    ghost use Rattle.std.specs.Prelude.{ℕ, List};
    ghost use Rattle.cost_rows.specs.Stacks.{by_bytes};

    ghost Value = { List (List ℕ × ℕ) };

    ghost view = { λ a. by_bytes a.sums.entries };
}

impl StackSums {
    /// No row was added. Takes no memory.
    pub fn new(alloc: Global) -> StackSums
        ensures { result ≡ [] }
    {
        StackSums {
            alloc,
            sums: BTreeMap::new(alloc),
            total: 0,
        }
    }

    /// What all stacks count.
    pub fn total(&self) -> u128
        ensures value { result ≡ amount_of self.now }
        ensures small { result < sum_end }
    {
        self.total
    }

    /// Adds a row's count to that of its stack; a count of 0 adds nothing. A refusal leaves the sums as
    /// they were.
    pub fn add(&mut self, row: &StackRow<&[u8]>) -> Result<(), AllocError>
        requires small { amount_of self.old + row.now.count < sum_end }
        ensures ok { OnOk result (self.new ≡ with_stack self.old (plain_stack row.now)) }
        ensures err { OnErr result (self.new ≡ self.old) }
    {
        add_count(self.alloc, &mut self.sums, row.stack, row.count)?;
        self.total += row.count;
        Ok(())
    }

    /// The stacks with their counts, in order. Takes no memory.
    pub(crate) fn iter(&self) -> Iter<'_, Vec<u8>, u128>
        ensures { by_bytes result ≡ self.now }
    {
        self.sums.iter()
    }
}
