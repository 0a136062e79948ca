// Sums of calls.
ghost use Rattle.std.specs.Prelude.{◌≡◌, ◌<◌, ◌^◌, ℕ, OnOk, OnErr, IfOk, All, []};
ghost use Rattle.std.specs.Map.{values_of};
ghost use Rattle.cost_rows.specs.ByNumber.{numbered_calls};
ghost use Rattle.cost_rows.specs.Calls.{AreSmall, calls_added, calls_from};
ghost use Rattle.cost_rows.specs.Merging.{merge};
ghost use Rattle.cost_rows.specs.Places.{call_cmp};
ghost use Rattle.cost_rows.specs.Totals.{AreColumns, call_total, count_total};

use crate::numbered::{CallsByPlace, NumberedCalls};
use crate::places::Call;
use crate::sum_map::SumMap;
use crate::totals::total_columns;
use std::alloc::{AllocError, Global};
use std::marker::Model;

/// Sums of calls, which contracts see as a list of calls, each with how many there were and what they
/// cost by column, in order. The number of calls is held as the first of their sums.
#[derive(Drop)]
pub(crate) struct CallSums {
    sums: SumMap<Call>,
    /// Room for a number of calls and their costs.
    amount: Vec<u64>,
}

impl Model for CallSums {
    ghost use Rattle.std.specs.Prelude.{List};
    ghost use Rattle.cost_rows.specs.Calls.{Calls, calls_in};
    ghost use Rattle.cost_rows.specs.declared.places.Call.{Call};

    ghost Value = { List (Call × Calls) };

    ghost view = { λ a. calls_in a.sums };
}

/// The number of calls, and their costs.
pub(crate) fn count_and_costs(sums: &[u128]) -> (u128, &[u128])
    ensures count { result.0 ≡ (calls_from sums.now).count }
    ensures costs { result.1.now ≡ (calls_from sums.now).costs }
{
    match sums.split_first() {
        Some((count, costs)) => (*count, costs),
        None => (0, &[]),
    }
}

impl CallSums {
    /// There are no calls. Takes no memory.
    pub(crate) fn new(alloc: Global) -> CallSums
        ensures { result ≡ [] }
    {
        CallSums {
            sums: SumMap::new(alloc),
            amount: Vec::new(alloc),
        }
    }

    /// Merges so many calls and their costs. A refusal leaves the sums as they were.
    pub(crate) fn merge(&mut self, call: Call, count: u64, costs: &[u64]) -> Result<(), AllocError>
        requires { All AreSmall (values_of self.old) }
        ensures ok { OnOk result (self.new ≡ merge call_cmp calls_added self.old call (record { count = count; costs = costs.now })) }
        ensures err { OnErr result (self.new ≡ self.old) }
    {
        self.amount.clear();
        self.amount.push(count)?;
        self.amount.extend_from_slice(costs)?;
        self.sums.merge(call, self.amount.as_slice())
    }

    /// The sums, one after another, as they are held. Takes no memory.
    pub(crate) fn by_place(&self) -> CallsByPlace<'_>
        ensures { result ≡ self.now }
    {
        CallsByPlace {
            rest: self.sums.iter(),
        }
    }

    /// The sums, one after another, with names by their numbers. Takes no memory.
    pub(crate) fn iter(&self) -> NumberedCalls<'_>
        ensures { result ≡ numbered_calls self.now }
    {
        NumberedCalls {
            rest: self.sums.iter(),
        }
    }

    /// How many calls there were, and what they cost by column, of so many columns.
    pub(crate) fn totals(
        &self,
        alloc: Global,
        events: usize,
    ) -> Result<(u128, Vec<u128>), AllocError>
        requires counts { count_total self.now < 2 ^ 128 }
        requires costs { (k : ℕ) → call_total k self.now < 2 ^ 128 }
        ensures count { IfOk result (λ t. t.0 ≡ count_total self.now) }
        ensures costs { IfOk result (λ t. AreColumns events (λ k. call_total k self.now) t.1.items) }
    {
        let Some(columns) = events.checked_add(1) else {
            return Err(AllocError);
        };
        let mut costs = total_columns(alloc, self.sums.iter(), columns)?;
        let count = costs.remove(0);
        Ok((count, costs))
    }
}
