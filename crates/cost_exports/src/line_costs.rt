// What the lines of a place cost by the names of events.
ghost use Rattle.std.specs.Prelude.{◌≡◌, ◌+◌, ◌<◌, ◌^◌, [], OnOk, OnErr};
ghost use Rattle.cost_rows.specs.Merging.{merge};
ghost use Rattle.cost_rows.specs.Stacks.{counts_added};
ghost use Rattle.report_texts.specs.Amounts.{amount_of};
ghost use Rattle.cost_exports.specs.Views.{held_line, held_lines, line_cmp};

use crate::cells::HeldLine;
use cost_rows::merge_cost;
use std::alloc::{AllocError, Global};
use std::collections::BTreeMap;
use std::collections::btree_map::Iter;
use std::marker::Model;

/// What the lines of some names cost by events: contracts see a cost for each line and event, in order.
#[derive(Drop)]
pub(crate) struct LineCosts {
    costs: BTreeMap<HeldLine, u128>,
}

impl Model for LineCosts {
    ghost use Rattle.std.specs.Prelude.{ℕ, List};
    ghost use Rattle.cost_exports.specs.Views.{LineEvent, held_lines};

    ghost Value = { List (LineEvent × ℕ) };

    ghost view = { λ a. held_lines a.costs.entries };
}

impl LineCosts {
    /// No line costs anything. Takes no memory.
    pub(crate) fn new(alloc: Global) -> LineCosts
        ensures { result ≡ [] }
    {
        LineCosts {
            costs: BTreeMap::new(alloc),
        }
    }

    /// Adds a cost to that of a line and an event. A refusal leaves the costs as they were.
    pub(crate) fn add(&mut self, line: &HeldLine, cost: u128) -> Result<(), AllocError>
        requires small { amount_of self.old + cost < 2 ^ 128 }
        ensures ok { OnOk result (self.new ≡ merge line_cmp counts_added self.old (held_line line.now) cost) }
        ensures err { OnErr result (self.new ≡ self.old) }
    {
        merge_cost(&mut self.costs, line.share()?, cost)
    }

    /// The costs, in order. Takes no memory.
    pub(crate) fn iter(&self) -> Iter<'_, HeldLine, u128>
        ensures { held_lines result ≡ self.now }
    {
        self.costs.iter()
    }
}
