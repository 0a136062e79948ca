// What is asked of one run, one group or one digest.
ghost use Rattle.std.specs.Prelude.{◌≡◌, false, length, IfErr, IfOk};
ghost use Rattle.plain_tables.specs.Changes.{has_group, has_run};
ghost use Rattle.plain_tables.specs.Tables.{Tables};
ghost use Rattle.run_stores.specs.Lookups.{IsBaselineOf, IsKindOf, IsRunOf};
ghost use Rattle.run_lists.specs.Listed.{AreListed};

use crate::listed::RunLists;
use plain_tables::StoreError;
use profile_records::Kind;

impl RunLists {
    /// Whether a run is held.
    pub fn has_run(&self, run: u32) -> bool
        ensures told { (t : Tables) → AreListed t self.now → result ≡ has_run t run }
    {
        self.runs.iter().any(|line| line.entry.number == run)
    }

    /// Whether a group is held.
    pub fn has_group(&self, name: &str) -> bool
        ensures told { (t : Tables) → AreListed t self.now → result ≡ has_group t name.now }
    {
        self.groups.iter().any(|line| line.name.as_str() == name)
    }

    /// How many runs are held.
    pub fn run_count(&self) -> u64
        ensures told { (t : Tables) → AreListed t self.now → result ≡ length t.runs }
    {
        self.runs.len() as u64
    }

    /// How many groups are held.
    pub fn group_count(&self) -> u64
        ensures told { (t : Tables) → AreListed t self.now → result ≡ length t.groups }
    {
        self.groups.len() as u64
    }

    /// The number that the next run gets.
    pub fn next_run(&self) -> u32
        ensures told { (t : Tables) → AreListed t self.now → result ≡ t.next }
    {
        self.next
    }

    /// The run that has a digest, if one is held.
    pub fn run_of_digest(&self, digest: &[u8]) -> Option<u32>
        ensures told { (t : Tables) → AreListed t self.now → IsRunOf digest.now t result }
    {
        for line in &self.runs {
            if line.entry.digest.as_slice() == digest {
                return Some(line.entry.number);
            }
        }
        None
    }

    /// The kind of a run. `Store` where no such run is held.
    pub fn kind_of(&self, run: u32) -> Result<Kind, StoreError>
        ensures told { (t : Tables) → AreListed t self.now → IfOk result (λ answer. IsKindOf run t answer) }
        ensures none { (t : Tables) → AreListed t self.now → IfErr result (λ _. has_run t run ≡ false) }
    {
        for line in &self.runs {
            if line.entry.number == run {
                return Ok(line.entry.kind);
            }
        }
        Err(StoreError::Store)
    }

    /// The baseline of a group, if it has one. `Store` where no such group is held.
    pub fn baseline_of(&self, name: &str) -> Result<Option<u32>, StoreError>
        ensures told { (t : Tables) → AreListed t self.now → IfOk result (λ answer. IsBaselineOf name.now t answer) }
        ensures none { (t : Tables) → AreListed t self.now → IfErr result (λ _. has_group t name.now ≡ false) }
    {
        for line in &self.groups {
            if line.name.as_str() == name {
                return Ok(line.baseline);
            }
        }
        Err(StoreError::Store)
    }
}
