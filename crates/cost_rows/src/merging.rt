// Costs merged into the sums of their keys.
ghost use Rattle.std.specs.Prelude.{◌≡◌, ◌+◌, ◌<◌, ◌^◌, OnOk, OnErr};
ghost use Rattle.cost_rows.specs.Merging.{merge, sum_of_all};
ghost use Rattle.cost_rows.specs.Stacks.{counts_added};

use std::alloc::AllocError;
use std::collections::BTreeMap;

/// Merges a cost into the sum of a key. A refusal leaves the sums as they were.
pub fn merge_cost<K: Ord + Drop>(
    sums: &mut BTreeMap<K, u128>,
    key: K,
    cost: u128,
) -> Result<(), AllocError>
    requires small { sum_of_all sums.old.entries + cost < 2 ^ 128 }
    ensures ok { OnOk result (sums.new.entries ≡ merge K.cmp counts_added sums.old.entries key cost) }
    ensures err { OnErr result (sums.new.entries ≡ sums.old.entries) }
{
    match sums.get_mut(&key) {
        Some(sum) => *sum += cost,
        None => {
            sums.insert(key, cost)?;
        }
    }
    Ok(())
}
