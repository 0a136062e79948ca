// Whether lines name runs that are held.
ghost use Rattle.std.specs.Prelude.{◌≡◌, ◌&&◌, true, IfSome, OnOk};
ghost use Rattle.std.specs.List.{list_all};
ghost use Rattle.std.specs.List.Sorted.{IsNonDecreasing};
ghost use Rattle.plain_tables.specs.Tables.{Tables};
ghost use Rattle.run_lists.specs.HeldRuns.{NameHeldRuns, is_one_of, is_none_or_one_of, name_some};
ghost use Rattle.run_lists.specs.Listed.{AreListed};
ghost use Rattle.run_stores.specs.Calls.{AnswersOrMemory};

use crate::groups::numbers_rise;
use crate::listed::{ListedGroup, RunLists};
use crate::numbers::{is_among, numbers_of};
use crate::run_lines::OfRun;
use plain_tables::StoreError;
use std::alloc::Global;

/// Whether a run is one of these, which do not fall and of which the run of the line before is one: mostly it
/// is that run.
fn is_of_runs(run: u32, last: Option<u32>, runs: &[u32]) -> bool
    requires { IsNonDecreasing runs.now → IfSome last (λ run. is_one_of runs.now run ≡ true) }
    ensures { IsNonDecreasing runs.now → result ≡ is_one_of runs.now run }
{
    last == Some(run) || is_among(runs, run)
}

/// Whether each line is of one of these runs, which do not fall.
fn are_of_runs<L: OfRun>(lines: &[L], runs: &[u32]) -> bool
    ensures { IsNonDecreasing runs.now → result ≡ list_all (λ line. is_one_of runs.now (L.run_of line)) lines.now }
{
    let mut last: Option<u32> = None;
    for line in lines {
        let run = line.run();
        if !is_of_runs(run, last, runs) {
            return false;
        }
        last = Some(run);
    }
    true
}

/// Whether each baseline is one of these runs, which do not fall.
fn are_baselines_of(groups: &[ListedGroup], runs: &[u32]) -> bool
    ensures { IsNonDecreasing runs.now → result ≡ list_all (λ group. is_none_or_one_of runs.now group.baseline) groups.now }
{
    for group in groups {
        if let Some(run) = group.baseline
            && !is_among(runs, run)
        {
            return false;
        }
    }
    true
}

/// Whether all lines name some of these runs, which do not fall.
fn name_runs(lists: &RunLists, runs: &[u32]) -> bool
    ensures { IsNonDecreasing runs.now → result ≡ name_some runs.now lists.now }
{
    are_of_runs(lists.events.all(), runs)
        && are_of_runs(lists.derived.all(), runs)
        && are_of_runs(lists.coefs.all(), runs)
        && are_of_runs(&lists.members, runs)
        && are_baselines_of(&lists.groups, runs)
}

impl RunLists {
    /// Looks whether runs rise, and each line of a run, each member and each baseline names one that is listed. `Store`
    /// where it is not so, as where one of what is said twice is damaged; `Memory`.
    pub fn check_runs(&self, alloc: Global) -> Result<(), StoreError>
        ensures held { (t : Tables) → AreListed t self.now → OnOk result (NameHeldRuns t) }
        ensures refused { (t : Tables) → AreListed t self.now → NameHeldRuns t → AnswersOrMemory result }
    {
        let runs = numbers_of(alloc, &self.runs)?;
        if numbers_rise(&runs) && name_runs(self, &runs) {
            Ok(())
        } else {
            Err(StoreError::Store)
        }
    }
}
