// Sums by key, all in one list.
ghost use Rattle.std.specs.Prelude.{◌≡◌, OnOk, OnErr, All, []};
ghost use Rattle.std.specs.BTreeMap.{is_at};
ghost use Rattle.std.specs.Map.{lookup, values_of};
ghost use Rattle.profile_records.specs.Columns.{added, HaveRoom};
ghost use Rattle.cost_rows.specs.Merging.{merge};
ghost use Rattle.cost_rows.specs.Stretches.{IsHeldAt};

use crate::stretches::{Stretch, put_behind, raise_at};
use std::alloc::{AllocError, Global};
use std::cmp::Ordering;
use std::collections::BTreeMap;
use std::collections::btree_map::Iter;
use std::marker::Model;

/// Sums by column for each key, which contracts see as a list of keys with their sums, in order. All
/// sums stand in one list, where each key has a stretch: what a key costs besides its sums is 8 bytes.
#[derive(Drop)]
pub(crate) struct SumMap<K: Ord> {
    stretches: BTreeMap<K, Stretch>,
    sums: Vec<u128>,
    /// The key to which costs came last, and its stretch: mostly the next costs are for it, too.
    recent: Option<(K, Stretch)>,
}

impl<K: Ord> Model for SumMap<K> {
    ghost use Rattle.std.specs.Prelude.{ℕ, List, length};
    ghost use Rattle.cost_rows.specs.Own.{valued};
    ghost use Rattle.cost_rows.specs.Stretches.{sums_at, HaveSums, IsHeldAt};

    ghost Value = { List (K × List ℕ) };

    ghost view = { λ a. valued (sums_at a.sums.items) a.stretches.entries };

    ghost invariant = { λ a. HaveSums a.stretches.entries (length a.sums.items) × IsHeldAt K.cmp a.stretches.entries a.recent };
}

/// The stretch of a key, if it has one: at once where it is the key of before.
fn find<K: Ord>(
    stretches: &BTreeMap<K, Stretch>,
    recent: &Option<(K, Stretch)>,
    key: &K,
) -> Option<Stretch>
    requires { IsHeldAt K.cmp stretches.now.entries recent.now }
    ensures { result ≡ lookup (is_at (K.cmp key.now)) stretches.now.entries }
{
    if let Some((before, stretch)) = recent {
        if key.cmp(before) == Ordering::Equal {
            return Some(*stretch);
        }
    }
    stretches.get(key).copied()
}

impl<K: Ord + Drop> SumMap<K> {
    /// No key has sums. Takes no memory.
    pub(crate) fn new(alloc: Global) -> SumMap<K>
        ensures { result ≡ [] }
    {
        SumMap {
            stretches: BTreeMap::new(alloc),
            sums: Vec::new(alloc),
            recent: None,
        }
    }

    /// Merges costs into the sums of a key: where these have fewer columns, they move behind all
    /// others. A refusal leaves the sums as they were.
    pub(crate) fn merge(&mut self, key: K, costs: &[u64]) -> Result<(), AllocError>
        requires { All HaveRoom (values_of self.old) }
        ensures ok { OnOk result (self.new ≡ merge K.cmp added self.old key costs.now) }
        ensures err { OnErr result (self.new ≡ self.old) }
    {
        let _in_order = self.stretches.len();
        let found = find(&self.stretches, &self.recent, &key);
        let held = found.unwrap_or(Stretch::empty());
        if found.is_some() && costs.len() <= held.len() {
            raise_at(self.sums.as_mut_slice(), held, costs);
            self.recent = Some((key, held));
            return Ok(());
        }
        self.recent = None;
        let stretch = put_behind(&mut self.sums, held, costs)?;
        self.stretches.insert(key, stretch)?;
        Ok(())
    }

    /// The keys with their sums, in order. Takes no memory.
    pub(crate) fn iter(&self) -> SumIter<'_, K>
        ensures { result ≡ self.now }
    {
        SumIter {
            entries: self.stretches.iter(),
            sums: self.sums.as_slice(),
        }
    }
}

/// Keys with their sums, one after another, which contracts see as the list of what is left.
#[derive(Drop)]
pub(crate) struct SumIter<'a, K> {
    entries: Iter<'a, K, Stretch>,
    sums: &'a [u128],
}

impl<'a, K> Model for SumIter<'a, K> {
    ghost use Rattle.std.specs.Prelude.{ℕ, List};
    ghost use Rattle.cost_rows.specs.Own.{valued};
    ghost use Rattle.cost_rows.specs.Stretches.{sums_at};

    ghost Value = { List (K × List ℕ) };

    ghost view = { λ a. valued (sums_at a.sums.now) a.entries };
}

impl<'a, K> Iterator for SumIter<'a, K> {
    ghost use Rattle.std.specs.Iterator.{YieldsFirstBy, item_count};

    type Item = (&'a K, &'a [u128]);

    ghost next_gives = { YieldsFirstBy (λ e. (e.0.now, e.1.now)) (λ s. s) };

    ghost remaining = { item_count (λ s. s) };

    fn next(&mut self) -> Option<(&'a K, &'a [u128])> {
        let (key, stretch) = self.entries.next()?;
        Some((key, stretch.of(self.sums)))
    }
}
