// Pairs of numbers, added up by place.
ghost use Rattle.std.specs.Prelude.{◌≡◌, ◌+◌, ◌<◌, ◌^◌, [], OnOk, OnErr, length};
ghost use Rattle.std.specs.BTreeMap.{IsUnchanged};
ghost use Rattle.cost_rows.specs.Keys.{lent_place};
ghost use Rattle.report_texts.specs.Pairs.{pairs_with, pairs_added, pair_total, firsts_of, seconds_of, AreBelow};
ghost use Rattle.cost_reports.specs.Rows.{lent_pairs};

use crate::pairs::plus;
use cost_rows::LentPlace;
use report_texts::Pair;
use std::alloc::{AllocError, Global};
use std::collections::BTreeMap;
use std::collections::btree_map::Iter;
use std::marker::Model;

/// Merges a pair into the sums of its place. A refusal leaves the sums as they were.
fn merge_pair<'n>(
    sums: &mut BTreeMap<LentPlace<'n>, Pair>,
    place: LentPlace<'n>,
    pair: Pair,
) -> Result<(), AllocError>
    requires first { firsts_of (lent_pairs sums.old.entries) + pair.first < 2 ^ 128 }
    requires second { seconds_of (lent_pairs sums.old.entries) + pair.second < 2 ^ 128 }
    ensures ok { OnOk result (lent_pairs sums.new.entries ≡ pairs_with (lent_place place.entry) pair (lent_pairs sums.old.entries)) }
    ensures total { OnOk result (pair_total (lent_pairs sums.new.entries) ≡ pairs_added (pair_total (lent_pairs sums.old.entries)) pair) }
    ensures err { OnErr result (IsUnchanged sums.old sums.new) }
{
    match sums.get_mut(&place) {
        Some(sum) => *sum = plus(*sum, pair),
        None => {
            sums.insert(place, pair)?;
        }
    }
    Ok(())
}

/// Pairs of numbers, added up by place: contracts see a pair for each place, in the order of places.
/// An ordered map holds the sums: no file can choose names that collide.
#[derive(Drop)]
pub(crate) struct PairSums<'n> {
    sums: BTreeMap<LentPlace<'n>, Pair>,
    total: Pair,
    ghost is_total: { total ≡ pair_total (lent_pairs sums.entries) },
    ghost small: { AreBelow total.first total.second },
}

impl<'n> Model for PairSums<'n> {
    ghost use Rattle.std.specs.Prelude.{List};
    ghost use Rattle.cost_rows.specs.Sums.{Spot};
    ghost use Rattle.report_texts.specs.declared.pairs.Pair.{Pair};
    ghost use Rattle.cost_reports.specs.Rows.{lent_pairs};

    ghost Value = { List (Spot × Pair) };

    ghost view = { λ a. lent_pairs a.sums.entries };
}

impl<'n> PairSums<'n> {
    /// Nothing was added. Takes no memory.
    pub(crate) fn new(alloc: Global) -> PairSums<'n>
        ensures { result ≡ [] }
    {
        PairSums {
            sums: BTreeMap::new(alloc),
            total: Pair {
                first: 0,
                second: 0,
            },
        }
    }

    /// How many places have sums.
    pub(crate) fn len(&self) -> usize
        ensures { result ≡ length self.now }
    {
        self.sums.len()
    }

    /// The sums over all places.
    pub(crate) fn total(&self) -> Pair
        ensures value { result ≡ pair_total self.now }
        ensures small { AreBelow result.first result.second }
    {
        self.total
    }

    /// Adds a pair to the sums of its place. A refusal leaves the sums as they were.
    pub(crate) fn add(&mut self, place: LentPlace<'n>, pair: Pair) -> Result<(), AllocError>
        requires small { AreBelow (firsts_of self.old + pair.first) (seconds_of self.old + pair.second) }
        ensures ok { OnOk result (self.new ≡ pairs_with (lent_place place.entry) pair self.old) }
        ensures total { OnOk result (pair_total self.new ≡ pairs_added (pair_total self.old) pair) }
        ensures err { OnErr result (self.new ≡ self.old) }
    {
        merge_pair(&mut self.sums, place, pair)?;
        self.total = plus(self.total, pair);
        Ok(())
    }

    /// The places with their sums, in order. Takes no memory.
    pub(crate) fn iter(&self) -> Iter<'_, LentPlace<'n>, Pair>
        ensures { lent_pairs result ≡ self.now }
    {
        self.sums.iter()
    }
}
