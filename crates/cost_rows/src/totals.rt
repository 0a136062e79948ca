// The sums over all rows of a file, by column.
ghost use Rattle.std.specs.Prelude.{◌≡◌, ℕ, ◌+◌, ◌<◌, ◌^◌, IfOk, length, slice_index};
ghost use Rattle.cost_rows.specs.Totals.{column_total, AreColumns};

use crate::sum_map::SumIter;
use std::alloc::{AllocError, Global};

/// Adds sums to the totals of their columns; a column that has no sum stays.
fn add_sums(totals: &mut [u128], sums: &[u128])
    requires { (k : ℕ) → k < length totals.old → slice_index totals.old k + slice_index sums.now k < 2 ^ 128 }
    ensures { (k : ℕ) → k < length totals.old → slice_index totals.new k ≡ slice_index totals.old k + slice_index sums.now k }
{
    for k in 0..totals.len() {
        if k < sums.len() {
            totals[k] += sums[k];
        }
    }
}

/// Adds the sums of all keys to the totals of their columns.
fn add_all<K>(totals: &mut [u128], entries: SumIter<'_, K>)
    requires { (k : ℕ) → k < length totals.old → slice_index totals.old k + column_total (λ sums. sums) k entries < 2 ^ 128 }
    ensures { (k : ℕ) → k < length totals.old → slice_index totals.new k ≡ slice_index totals.old k + column_total (λ sums. sums) k entries.entry }
{
    for (_, sums) in entries {
        add_sums(totals, sums);
    }
}

/// The totals of so many columns over all keys.
pub(crate) fn total_columns<K>(
    alloc: Global,
    entries: SumIter<'_, K>,
    columns: usize,
) -> Result<Vec<u128>, AllocError>
    requires { (k : ℕ) → column_total (λ sums. sums) k entries < 2 ^ 128 }
    ensures { IfOk result (λ totals. AreColumns columns (λ k. column_total (λ sums. sums) k entries.entry) totals.items) }
{
    let mut totals = vec![in alloc; 0u128; columns]?;
    add_all(&mut totals, entries);
    Ok(totals)
}
