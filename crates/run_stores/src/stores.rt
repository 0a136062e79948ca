// The calls of a store of runs.
ghost use Rattle.std.specs.Prelude.{◌≡◌, ◌↔◌, true, length, map, fold, IfOk};
ghost use Rattle.std.specs.List.{AllAdjacentBelow, AllByRecursion};
ghost use Rattle.std.specs.Result.{is_ok};
ghost use Rattle.run_stores.specs.Book.{stacks_held, IsHeld};
ghost use Rattle.run_stores.specs.BookEntries.{held_run};
ghost use Rattle.run_stores.specs.HeldHeads.{HasHead, IsHeadIn};
ghost use Rattle.run_stores.specs.Totals.{IsHeldIn, TotalsFit};
ghost use Rattle.plain_tables.specs.Changes.{has_group, has_run, joined, with_baseline, with_group, without_group, without_member, without_run};
ghost use Rattle.plain_tables.specs.Labels.{IsGroupName};
ghost use Rattle.plain_tables.specs.RunRows.{calls_in, cells_in};
ghost use Rattle.run_stores.specs.Calls.{Asks, AsksIfOpen, Changes, ChangesIf, KeepsShut, Serves, ServesIf, ServesIfOrMemory, ServesOrFails, ServesOrMemory, Told};
ghost use Rattle.run_stores.specs.Entries.{AreGroups, HasGroups, IsBefore, entry_run};
ghost use Rattle.run_stores.specs.Lookups.{IsBaselineOf, IsKindOf, IsRunOf, members_in_tables, numbers_in_tables};
ghost use Rattle.run_stores.specs.Names.{AreAmong, AreNarrow, IsNumberOf};
ghost use Rattle.run_stores.specs.SelfSums.{AreSelfSums, HaveSelfSums, events_of_run};
ghost use Rattle.run_stores.specs.Runs.{with_summed};
ghost use Rattle.run_stores.specs.Walks.{CallsFoldTo, CellsFoldTo};

use crate::entries::{GroupEntry, RunEntry};
use crate::names::NameTable;
use crate::sinks::{CallSink, CellSink, StackRowSink};
use crate::states::StoreState;
use crate::summed::SummedFile;
use cg_formulas::FileHead;
use cg_text::ListVec;
use cost_rows::FileTotals;
use plain_tables::StoreError;
use profile_records::Kind;
use std::alloc::Global;

/// A store of runs. `Memory` where a growth is refused, and `Store` where what keeps the store fails or holds
/// what is out of form: each call may answer them.
pub trait RunStore: StoreState {
    ghost use Rattle.plain_tables.specs.Tables.{Tables};

    /// The names that are held.
    type Names: NameTable + Drop;

    // ---- what is held

    /// Whether a run is held.
    fn has_run(&mut self, run: u32) -> Result<bool, StoreError>
        ensures told { Told Self.StoreState result self.old self.new (λ t is. is ≡ has_run t run) }
        ensures asks { Asks Self.StoreState (is_ok result) self.old self.new }
        ensures serves { Serves Self.StoreState result self.old };

    /// Whether a group is held.
    fn has_group(&mut self, name: &str) -> Result<bool, StoreError>
        ensures told { Told Self.StoreState result self.old self.new (λ t is. is ≡ has_group t name.now) }
        ensures asks { Asks Self.StoreState (is_ok result) self.old self.new }
        ensures serves { Serves Self.StoreState result self.old };

    /// How many runs are held.
    fn run_count(&mut self) -> Result<u64, StoreError>
        ensures told { Told Self.StoreState result self.old self.new (λ t n. n ≡ length t.runs) }
        ensures asks { Asks Self.StoreState (is_ok result) self.old self.new }
        ensures serves { Serves Self.StoreState result self.old };

    /// How many groups are held.
    fn group_count(&mut self) -> Result<u64, StoreError>
        ensures told { Told Self.StoreState result self.old self.new (λ t n. n ≡ length t.groups) }
        ensures asks { Asks Self.StoreState (is_ok result) self.old self.new }
        ensures serves { Serves Self.StoreState result self.old };

    /// The number that the next run gets.
    fn next_run(&mut self) -> Result<u32, StoreError>
        ensures told { Told Self.StoreState result self.old self.new (λ t n. n ≡ t.next) }
        ensures asks { Asks Self.StoreState (is_ok result) self.old self.new }
        ensures serves { Serves Self.StoreState result self.old };

    /// The run that has a digest, if one is held.
    fn run_of_digest(&mut self, digest: &[u8]) -> Result<Option<u32>, StoreError>
        ensures told { Told Self.StoreState result self.old self.new (IsRunOf digest.now) }
        ensures asks { Asks Self.StoreState (is_ok result) self.old self.new }
        ensures serves { Serves Self.StoreState result self.old };

    /// The runs that are held, in the order of their numbers.
    fn runs(&mut self, alloc: Global) -> Result<Vec<RunEntry>, StoreError>
        ensures told { Told Self.StoreState result self.old self.new (λ t entries. map entry_run entries.items ≡ map held_run t.runs) }
        ensures asks { Asks Self.StoreState (is_ok result) self.old self.new }
        ensures serves { ServesOrMemory Self.StoreState result self.old };

    /// The groups with their members, by name.
    fn groups(&mut self, alloc: Global) -> Result<Vec<GroupEntry>, StoreError>
        ensures told { Told Self.StoreState result self.old self.new (λ t entries. AreGroups t entries.items) }
        ensures rising { IfOk result (λ entries. AllAdjacentBelow IsBefore entries.items (length entries.items)) }
        ensures asks { Asks Self.StoreState (is_ok result) self.old self.new }
        ensures serves { ServesIfOrMemory Self.StoreState result self.old HasGroups };

    /// The numbers of all runs, rising.
    fn run_numbers(&mut self, alloc: Global) -> Result<ListVec<u32>, StoreError>
        ensures told { Told Self.StoreState result self.old self.new (λ t numbers. numbers ≡ numbers_in_tables t) }
        ensures asks { Asks Self.StoreState (is_ok result) self.old self.new }
        ensures serves { ServesOrMemory Self.StoreState result self.old };

    /// The numbers of the runs that are in a group, rising: none where there is no such group.
    fn members_of(&mut self, alloc: Global, name: &str) -> Result<ListVec<u32>, StoreError>
        ensures told { Told Self.StoreState result self.old self.new (λ t numbers. numbers ≡ members_in_tables name.now t) }
        ensures asks { Asks Self.StoreState (is_ok result) self.old self.new }
        ensures serves { ServesOrMemory Self.StoreState result self.old };

    /// The kind of a run. `Store` where no such run is held.
    fn kind_of(&mut self, run: u32) -> Result<Kind, StoreError>
        ensures told { Told Self.StoreState result self.old self.new (IsKindOf run) }
        ensures asks { Asks Self.StoreState (is_ok result) self.old self.new }
        ensures serves { ServesIf Self.StoreState result self.old (λ t. has_run t run ≡ true) };

    /// The baseline of a group, if it has one. `Store` where no such group is held.
    fn baseline_of(&mut self, name: &str) -> Result<Option<u32>, StoreError>
        ensures told { Told Self.StoreState result self.old self.new (IsBaselineOf name.now) }
        ensures asks { Asks Self.StoreState (is_ok result) self.old self.new }
        ensures serves { ServesIf Self.StoreState result self.old (λ t. has_group t name.now ≡ true) };

    // ---- sums

    /// For each of these event names the sum of its self costs and of the costs of its calls, over all
    /// runs that are held and have it, and the number of calls of all runs. `Store` where a sum is
    /// 2^112 or more.
    fn totals_of(&mut self, alloc: Global, events: &[ListVec<u8>]) -> Result<FileTotals, StoreError>
        ensures told { Told Self.StoreState result self.old self.new (λ t. IsHeldIn t events.now) }
        ensures columns { IfOk result (λ totals. (length totals.self_cost ≡ length events.now) × (length totals.call_cost ≡ length events.now)) }
        ensures asks { Asks Self.StoreState (is_ok result) self.old self.new }
        ensures serves { ServesIfOrMemory Self.StoreState result self.old (λ t. TotalsFit t events.now) };

    /// The sums of a run's self costs, one for each event, in the order of their places: none where no
    /// such run is held.
    fn sums_of(&mut self, alloc: Global, run: u32) -> Result<ListVec<u128>, StoreError>
        ensures told { Told Self.StoreState result self.old self.new (λ t. AreSelfSums (events_of_run run t)) }
        ensures asks { Asks Self.StoreState (is_ok result) self.old self.new }
        ensures serves { ServesIfOrMemory Self.StoreState result self.old (λ t. HaveSelfSums (events_of_run run t)) };

    // ---- one run

    /// What the file of a run that is held says of itself: its events, its derived events with their
    /// coefficients, and the totals that it states. `Store` where no such run is held, or where its
    /// rows are no head.
    fn head_of(&mut self, alloc: Global, run: u32) -> Result<FileHead, StoreError>
        ensures told { Told Self.StoreState result self.old self.new (λ t. IsHeadIn run t) }
        ensures asks { Asks Self.StoreState (is_ok result) self.old self.new }
        ensures serves { ServesIfOrMemory Self.StoreState result self.old (HasHead run) };

    /// The names that are held, for any number of rows and sums.
    fn names_of(&mut self, alloc: Global) -> Result<Self::Names, StoreError>
        ensures told { Told Self.StoreState result self.old self.new (λ t names. Self.Names.name_rows names ≡ t.names) }
        ensures asks { Asks Self.StoreState (is_ok result) self.old self.new }
        ensures serves { ServesOrFails Self.StoreState result self.old self.new (λ t. AreNarrow t.names) };

    /// The names of some numbers, where they are held: others may come with them.
    fn names_among(&mut self, alloc: Global, numbers: &[u32]) -> Result<Self::Names, StoreError>
        ensures told { Told Self.StoreState result self.old self.new (λ t names. AreAmong numbers.now t.names (Self.Names.name_rows names)) }
        ensures asks { Asks Self.StoreState (is_ok result) self.old self.new }
        ensures serves { ServesOrFails Self.StoreState result self.old self.new (λ t. AreNarrow t.names) };

    /// The number of a name, if it is held.
    fn number_of(&mut self, alloc: Global, name: &[u8]) -> Result<Option<u32>, StoreError>
        ensures told { Told Self.StoreState result self.old self.new (λ t number. IsNumberOf t.names name.now number) }
        ensures asks { Asks Self.StoreState (is_ok result) self.old self.new }
        ensures serves { ServesOrFails Self.StoreState result self.old self.new (λ t. AreNarrow t.names) };

    /// Whether all of some numbers have a name that is held.
    fn holds_names(&mut self, alloc: Global, numbers: &[u32]) -> Result<bool, StoreError>
        ensures told { Told Self.StoreState result self.old self.new (λ t are. (are ≡ true) ↔ AllByRecursion (IsHeld t.names) numbers.now) }
        ensures asks { Asks Self.StoreState (is_ok result) self.old self.new }
        ensures serves { ServesOrFails Self.StoreState result self.old self.new (λ t. AreNarrow t.names) };

    /// Hands on the cells of a run, with so many events and the numbers of names. What took them all is
    /// handed back. `Store` also for a cell of none of the events; and the errors of the taker.
    fn each_cell<T: CellSink + Drop>(
        &mut self,
        run: u32,
        events: usize,
        sink: T,
    ) -> Result<T, StoreError>
        ensures told { Told Self.StoreState result self.old self.new (λ t taken.
            CellsFoldTo events T.step (T.meaning sink) (T.meaning taken) (cells_in run t)) }
        ensures asks { AsksIfOpen Self.StoreState (is_ok result) self.old self.new };

    /// Hands on the calls of a run, row by row, as `each_cell` its cells. `Store` also where the parts of
    /// a row are out of form.
    fn each_call<T: CallSink + Drop>(
        &mut self,
        alloc: Global,
        run: u32,
        events: usize,
        sink: T,
    ) -> Result<T, StoreError>
        ensures told { Told Self.StoreState result self.old self.new (λ t taken.
            CallsFoldTo events T.step (T.meaning sink) (T.meaning taken) (calls_in run t)) }
        ensures asks { AsksIfOpen Self.StoreState (is_ok result) self.old self.new };

    /// Hands on the stacks of a run, as `each_cell` its cells.
    fn each_stack<T: StackRowSink + Drop>(&mut self, run: u32, sink: T) -> Result<T, StoreError>
        ensures told { Told Self.StoreState result self.old self.new (λ t taken. T.meaning taken ≡ fold T.step (T.meaning sink) (stacks_held run t)) }
        ensures asks { AsksIfOpen Self.StoreState (is_ok result) self.old self.new };

    // ---- changes

    /// Inserts a file as the run of a number, which no run had before (`next_run`): what its head says and the
    /// sums of its rows. `digest` is the SHA-256 of the file, `label` a text in form (`is_label`). `Store`
    /// also for a digest that is held, a sum of a column or a number of calls above 2^63-1, and a head that
    /// states a total for some events alone.
    fn put_run(
        &mut self,
        alloc: Global,
        number: u32,
        kind: Kind,
        digest: &[u8; 32],
        label: &str,
        file: &SummedFile<'_>,
    ) -> Result<(), StoreError>
        ensures changes { ChangesIf Self.StoreState (is_ok result) (λ t. t.next ≡ number)
            (with_summed number kind digest.now label.now file.now) self.old self.new }
        ensures shut { KeepsShut Self.StoreState self.old self.new };

    /// Drops a run that is held, with all its rows. Groups lose it as a member and as a baseline;
    /// its number is not used again, and names stay.
    fn drop_run(&mut self, run: u32) -> Result<(), StoreError>
        ensures changes { ChangesIf Self.StoreState (is_ok result) (λ t. has_run t run ≡ true) (without_run run) self.old self.new }
        ensures shut { KeepsShut Self.StoreState self.old self.new };

    /// Makes a group with no member and no baseline. The name is in form (`is_group_name`).
    fn put_group(&mut self, name: &str) -> Result<(), StoreError>
        requires { IsGroupName name.now }
        ensures changes { Changes Self.StoreState (is_ok result) (with_group name.now) self.old self.new }
        ensures shut { KeepsShut Self.StoreState self.old self.new };

    /// Drops a group that is held, with its members; the runs stay.
    fn drop_group(&mut self, name: &str) -> Result<(), StoreError>
        ensures changes { ChangesIf Self.StoreState (is_ok result) (λ t. has_group t name.now ≡ true) (without_group name.now) self.old self.new }
        ensures shut { KeepsShut Self.StoreState self.old self.new };

    /// Takes a run into a group, where it may be already.
    fn join(&mut self, name: &str, run: u32) -> Result<(), StoreError>
        ensures changes { Changes Self.StoreState (is_ok result) (joined name.now run) self.old self.new }
        ensures shut { KeepsShut Self.StoreState self.old self.new };

    /// Takes a run out of a group.
    fn leave(&mut self, name: &str, run: u32) -> Result<(), StoreError>
        ensures changes { Changes Self.StoreState (is_ok result) (without_member name.now run) self.old self.new }
        ensures shut { KeepsShut Self.StoreState self.old self.new };

    /// Makes a run the baseline of a group, in place of an older one.
    fn set_baseline(&mut self, name: &str, run: u32) -> Result<(), StoreError>
        ensures changes { Changes Self.StoreState (is_ok result) (with_baseline name.now run) self.old self.new }
        ensures shut { KeepsShut Self.StoreState self.old self.new };

    /// What stands survives a crash.
    ghost survives: { (t : Tables) (store : Self) (left : Self.Left) → Self.represents t store → Self.may_leave store left → Self.holds t left };
}
