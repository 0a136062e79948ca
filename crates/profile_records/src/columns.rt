// Rows of costs are added up, column by column.
ghost use Rattle.std.specs.Prelude.{◌≡◌, ◌≤◌, OnOk, OnErr, length, vec_len};
ghost use Rattle.profile_records.specs.Columns.{added, AreLow, HaveRoom};

use std::alloc::AllocError;

/// Gives each cost a sum: the columns that have none yet begin with 0.
fn widen(sums: &mut Vec<u128>, costs: &[u64]) -> Result<(), AllocError>
    ensures wide { OnOk result (length costs.now ≤ vec_len sums.new) }
    ensures sums { OnOk result (added sums.new.items costs.now ≡ added sums.old.items costs.now) }
    ensures small { HaveRoom sums.old.items → HaveRoom sums.new.items }
    ensures err { OnErr result (sums.new.items ≡ sums.old.items) }
{
    if sums.len() < costs.len() {
        sums.resize(costs.len(), 0)?;
    }
    Ok(())
}

/// Adds a row of costs to the sums of its columns, of which each has one.
fn add_to_columns(sums: &mut [u128], costs: &[u64])
    requires wide { length costs.now ≤ length sums.old }
    requires small { HaveRoom sums.old }
    requires low { AreLow costs.now }
    ensures { sums.new ≡ added sums.old costs.now }
{
    for (k, cost) in costs.iter().enumerate() {
        sums[k] += u128::from(*cost);
    }
}

/// Adds a row of costs to sums by column, where a column that is absent counts 0. A refusal leaves the
/// sums as they were.
#[inline]
pub fn add_costs(sums: &mut Vec<u128>, costs: &[u64]) -> Result<(), AllocError>
    requires small { HaveRoom sums.old.items }
    requires low { AreLow costs.now }
    ensures ok { OnOk result (sums.new.items ≡ added sums.old.items costs.now) }
    ensures err { OnErr result (sums.new.items ≡ sums.old.items) }
{
    widen(sums, costs)?;
    add_to_columns(sums, costs);
    Ok(())
}
