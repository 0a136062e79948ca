// The runs that are held, and the numbers of runs: of all, and of the members of a group.
ghost use Rattle.std.specs.Prelude.{◌≡◌, ◌==◌, bytes_eq, string_bytes, map, filter, IfOk};
ghost use Rattle.std.specs.List.{list_any};
ghost use Rattle.std.specs.List.Sorted.{IsNonDecreasing};
ghost use Rattle.plain_tables.specs.Tables.{Tables};
ghost use Rattle.run_stores.specs.Calls.{AnswersOrMemory};
ghost use Rattle.run_stores.specs.BookEntries.{held_run};
ghost use Rattle.run_stores.specs.Entries.{entry_run};
ghost use Rattle.run_stores.specs.Lookups.{members_in_tables, numbers_in_tables};
ghost use Rattle.run_lists.specs.Listed.{AreListed};

use crate::listed::{ListedMember, ListedRun, RunLists};
use cg_text::ListVec;
use plain_tables::StoreError;
use run_stores::RunEntry;
use std::alloc::{AllocError, Global};

/// A copy of an entry.
fn copy_of(entry: &RunEntry) -> Result<RunEntry, AllocError>
    ensures same { IfOk result (λ copy. entry_run copy ≡ entry_run entry.now) }
{
    let label = entry.label.clone()?;
    Ok(RunEntry {
        number: entry.number,
        kind: entry.kind,
        digest: entry.digest,
        label,
    })
}

/// The numbers of runs.
pub(crate) fn numbers_of(alloc: Global, runs: &[ListedRun]) -> Result<Vec<u32>, AllocError>
    ensures read { IfOk result (λ numbers. numbers.items ≡ map (λ r. r.entry.number) runs.now) }
{
    runs.iter().map(|line| line.entry.number).collect(alloc)
}

/// The runs of the members of a group.
fn runs_of(alloc: Global, members: &[ListedMember], name: &str) -> Result<Vec<u32>, AllocError>
    ensures read { IfOk result (λ runs. runs.items ≡ map (λ m. m.run) (filter (λ m. bytes_eq (string_bytes m.group) name.now) members.now)) }
{
    members
        .iter()
        .filter(|member| member.group.as_str() == name)
        .map(|member| member.run)
        .collect(alloc)
}

/// Whether a number is among those that are sorted.
pub(crate) fn is_among(sorted: &[u32], number: u32) -> bool
    ensures found { IsNonDecreasing sorted.now → result ≡ list_any (λ n. n == number) sorted.now }
{
    sorted.binary_search(&number).is_ok()
}

impl RunLists {
    /// The runs that are held, in the order of their numbers.
    pub fn runs(&self, alloc: Global) -> Result<Vec<RunEntry>, StoreError>
        ensures told { (t : Tables) → AreListed t self.now → IfOk result (λ entries. map entry_run entries.items ≡ map held_run t.runs) }
        ensures refused { AnswersOrMemory result }
    {
        let mut entries = Vec::new(alloc);
        for line in &self.runs {
            let entry = copy_of(&line.entry)?;
            if entries.push(entry).is_err() {
                return Err(StoreError::Memory);
            }
        }
        Ok(entries)
    }

    /// The numbers of all runs, rising.
    pub fn run_numbers(&self, alloc: Global) -> Result<ListVec<u32>, StoreError>
        ensures told { (t : Tables) → AreListed t self.now → IfOk result (λ numbers. numbers ≡ numbers_in_tables t) }
        ensures refused { AnswersOrMemory result }
    {
        let numbers = numbers_of(alloc, &self.runs)?;
        Ok(ListVec::from_vec(numbers))
    }

    /// The numbers of the runs that are in a group, rising: none where there is no such group.
    pub fn members_of(&self, alloc: Global, name: &str) -> Result<ListVec<u32>, StoreError>
        ensures told { (t : Tables) → AreListed t self.now → IfOk result (λ numbers. numbers ≡ members_in_tables name.now t) }
        ensures refused { AnswersOrMemory result }
    {
        let mut members = runs_of(alloc, &self.members, name)?;
        members.sort_unstable();
        let mut numbers = ListVec::new(alloc);
        for line in &self.runs {
            let number = line.entry.number;
            if is_among(&members, number) && numbers.push(number).is_err() {
                return Err(StoreError::Memory);
            }
        }
        Ok(numbers)
    }
}
