// A store of runs over the pages of its file.
ghost use Rattle.std.specs.Prelude.{◌≡◌, length, IsTrue, Ok, IfErr, IfOk, OnOk};
ghost use Rattle.sqlite_wal.specs.Files.{outcomes, seen_image};
ghost use Rattle.sqlite_wal.specs.Reads.{AreClean};
ghost use Rattle.page_files.specs.Files.{page_size, IsUsable, may_leave as files_may_leave};
ghost use Rattle.sqlite_pool.specs.Stored.{AddsNothing};
ghost use Rattle.plain_tables.specs.Tables.{Tables};
ghost use Rattle.profile_records.specs.declared.kinds.Kind.{Kind as RunKind};
ghost use Rattle.run_stores.specs.Lookups.{IsKindOf};
ghost use Rattle.run_lists.specs.Listed.{AreListed};
ghost use Rattle.run_lists.specs.RowSums.{calls_of_run, cells_of_run, stacks_of_run};
ghost use Rattle.page_runs.specs.Finished.{Commits, Finishes};
ghost use Rattle.page_runs.specs.PartSums.{IsRunTable};
ghost use Rattle.page_lists.specs.Entries.{entries_in, AreOpened, HasSchema};
ghost use Rattle.page_lists.specs.Sizes.{IsSizeOf};
ghost use Rattle.page_runs.specs.States.{IsFaithful, ReadsImage, RepresentsImage, state_of};
ghost use Rattle.run_stores.specs.Calls.{Asks};
ghost use Rattle.std.specs.Result.{is_ok};

use crate::handed::{CopiedStacks, GatheredLines, each_kept};
use crate::hints::RunHints;
use crate::kept::KeptCells;
use crate::run_rows::{RunTable, each_line};
use cg_formulas::FileHead;
use cg_text::ListVec;
use cost_rows::FileTotals;
use page_files::PageFile;
use page_lists::{
    head_of, holds_names, names_among, names_under, open_file, open_store, read_lists,
};
use page_places::{StoreRoots, error_of, find_name};
use plain_tables::StoreError;
use profile_records::Kind;
use run_lists::{CallLines, CellLines, HeldNames, RunLists, StackLines, is_name};
use run_stores::{
    CallSink, CellSink, GroupEntry, RunEntry, RunStore, StackRowSink, StoreState, SummedFile,
};
use sqlite_disk::{Disk, Files};
use sqlite_pager::Options;
use std::alloc::Global;
use std::mem;

/// A store of runs in the pages of its file. Its small tables are held; the rows of runs and the names are read from
/// the pages when they are asked for. A change is written into the pages in one transaction.
#[derive(Drop)]
pub struct PageRuns<D: Disk> {
    pub(crate) file: PageFile<D>,
    pub(crate) alloc: Global,
    pub(crate) roots: StoreRoots,
    pub(crate) lists: RunLists,
    /// Whether no index and no trigger of others stands on the tables.
    is_alone: bool,
    /// Where the rows of runs began. Nothing rests on it.
    pub(crate) hints: RunHints,
    /// The cells of some runs, as they stand in the pages.
    pub(crate) kept_cells: KeptCells,
}

impl<D: Disk + Drop> PageRuns<D> {
    /// Opens the store in the files of a database, which are closed at an error. Of the rows of runs and of the names
    /// nothing is read. So many cells of small runs are kept in memory once they were asked for: none at 0.
    ///
    /// # Errors
    /// `Memory`; `Store` where it is none that is read so: where a table has other columns or keys than ours, where its
    /// version is another, or where what is read of it is damaged or out of form, or cannot be read. Its database tells
    /// then what it is. No clause can say that memory was refused; but the functions that find other tables, a text that
    /// makes no table, or another version say that these are no cause of `Memory`.
    pub fn open(
        alloc: Global,
        files: Files<D>,
        options: Options,
        cells_to_keep: usize,
    ) -> Result<PageRuns<D>, StoreError>
        requires log { IsTrue (D.Disk.is_usable files.log) }
        requires db { IsTrue (D.Disk.is_usable files.db) }
        ensures honest { IfOk result (λ store. IsFaithful store → AreClean D.Disk files.log files.db) }
        ensures size { IfOk result (λ store. IsFaithful store → IsSizeOf (seen_image D.Disk files.log files.db) (page_size store.file)) }
        ensures represents { IfOk result (λ store. IsFaithful store → RepresentsImage (seen_image D.Disk files.log files.db) store) }
        ensures reads { IfOk result (λ store. IsFaithful store → ReadsImage (seen_image D.Disk files.log files.db) store) }
        ensures tables { IfOk result (λ store. IsFaithful store → HasSchema store.file → AreOpened (entries_in store.file) store.is_alone) }
        ensures crash { IfOk result (λ store. AddsNothing (page_size store.file) (outcomes D.Disk files.log files.db) (files_may_leave store.file)) }
        ensures keeps { IfOk result (λ store. store.kept_cells.limit ≡ cells_to_keep) }
    {
        let opened = open_file(alloc, files, options)?;
        let (file, roots, lists, is_alone) = open_store(alloc, opened)?;
        Ok(PageRuns {
            file,
            alloc,
            roots,
            lists,
            is_alone,
            hints: RunHints::new(alloc),
            kept_cells: KeptCells::new(alloc, cells_to_keep),
        })
    }
}

impl<D: Disk> PageRuns<D> {
    /// `Store` where its files have failed for good: each call fails then.
    fn if_usable(&self) -> Result<(), StoreError>
        ensures usable { OnOk result (IsUsable self.now.file) }
        ensures shut { IfErr result (λ _. ¬ (IsUsable self.now.file)) }
    {
        match self.file.if_usable() {
            Ok(()) => Ok(()),
            Err(error) => Err(error_of(error)),
        }
    }

    /// Where the cells of a run are, and what they have to sum to, event by event.
    fn cells_of(&self, run: u32) -> Result<RunTable, StoreError>
        ensures { (t : Tables) → AreListed t self.now.lists → IfOk result (IsRunTable t self.now.roots.cells run (cells_of_run run t)) }
    {
        Ok(RunTable {
            root: self.roots.cells,
            run,
            sums: self.lists.cell_sums_of(self.alloc, run)?,
            runs: self.lists.run_count(),
        })
    }

    /// Where the calls of a run are, and what their parts have to sum to.
    fn calls_of(&self, run: u32) -> Result<RunTable, StoreError>
        ensures { (t : Tables) → AreListed t self.now.lists → IfOk result (IsRunTable t self.now.roots.calls run (calls_of_run run t)) }
    {
        Ok(RunTable {
            root: self.roots.calls,
            run,
            sums: self.lists.call_sums_of(self.alloc, run)?,
            runs: self.lists.run_count(),
        })
    }

    /// Where the stacks of a run are, and what their counts have to sum to.
    fn stacks_of(&self, run: u32) -> Result<RunTable, StoreError>
        ensures { (t : Tables) → AreListed t self.now.lists
            → IfOk result (λ table. (kind : RunKind) × IsKindOf run t kind × IsRunTable t self.now.roots.stacks run (stacks_of_run kind run t) table) }
    {
        let sums = self.lists.stack_sums_of(self.alloc, run)?;
        Ok(RunTable {
            root: self.roots.stacks,
            run,
            sums,
            runs: self.lists.run_count(),
        })
    }

    /// Ends a change that was written into the file, or failed: it is committed, with the small tables read anew, or
    /// all that was written is forgotten. `Store` and `Memory`, also those of the writing.
    fn finish(&mut self, written: Result<(), StoreError>) -> Result<(), StoreError>
        ensures { Finishes written result self.old self.new }
    {
        match written {
            Ok(()) => self.conclude(),
            Err(error) => {
                self.file.undo();
                Err(error)
            }
        }
    }

    /// Reads the small tables anew and commits what was written, or forgets it.
    fn conclude(&mut self) -> Result<(), StoreError>
        ensures { Finishes (Ok tt) result self.old self.new }
    {
        match read_lists(&mut self.file, self.alloc, &self.roots) {
            Ok(lists) => self.commit(lists),
            Err(error) => {
                self.file.undo();
                Err(error)
            }
        }
    }

    /// Commits what was written into the file, with these lists of the small tables.
    fn commit(&mut self, lists: RunLists) -> Result<(), StoreError>
        ensures { Commits lists result self.old self.new }
    {
        match self.file.commit() {
            Ok(()) => {
                drop(mem::replace(&mut self.lists, lists));
                // Those of runs that are gone would take the places of others.
                drop(mem::replace(&mut self.hints, RunHints::new(self.alloc)));
                self.kept_cells.forget();
                Ok(())
            }
            Err(error) => {
                drop(lists);
                Err(error_of(error))
            }
        }
    }

    /// Copies what is committed from the log into the database file. Errors: `Store`, and `Memory`.
    pub fn checkpoint(&mut self) -> Result<(), StoreError>
        ensures { Asks state_of (is_ok result) self.old self.new }
    {
        match self.file.checkpoint() {
            Ok(()) => Ok(()),
            Err(error) => Err(error_of(error)),
        }
    }

    /// Whether no other program has put an index or a trigger on the tables: a change of the pages would pass it by, so
    /// such a store is only to be read. That `open` looks for them no clause says.
    pub fn may_be_changed(&self) -> bool
        ensures { result ≡ self.now.is_alone }
    {
        self.is_alone
    }

    /// Hands the opened file back.
    pub fn into_file(self) -> PageFile<D>
        ensures { result ≡ self.file }
    {
        let PageRuns {
            file,
            alloc: _,
            roots: _,
            lists: _,
            is_alone: _,
            hints: _,
            kept_cells: _,
        } = self;
        file
    }
}

impl<D: Disk> StoreState for PageRuns<D> {
    ghost use Rattle.sqlite_pool.specs.Pool as pools;
    ghost use Rattle.prof_store.proofs.Sound.{sound_of};
    ghost use Rattle.page_lists.proofs.NamesTold.{apart_told};
    ghost use Rattle.page_runs.specs.States.{HoldsTables, IsFaithful, IsSettled, Kept as KeptPages, Left, ReadsAs, Represents, faults, kept, may_leave};

    ghost Kept = { KeptPages };

    ghost kept = { kept };

    ghost is_settled = { IsSettled };

    ghost Left = { Left };

    ghost holds = { HoldsTables };

    ghost may_leave = { may_leave };

    ghost represents = { Represents };

    ghost reads_as = { ReadsAs };

    ghost is_faithful = { IsFaithful };

    ghost is_usable = { λ store. (pools.state store.file.pool).is_ready };

    ghost faults = { faults };

    ghost is_full = { λ store. pools.IsFull store.file.pool };

    ghost usable = { λ t s represents. represents.reads.usable };

    ghost said = { λ t s represents. represents.reads };

    ghost readable = { λ t s reads. reads.usable };

    ghost apart = { λ t s reads. apart_told t reads.shows.db reads.shows.says.says };

    ghost sound = { λ t s represents. sound_of t represents.db represents.holds };

    ghost left_sound = { λ t left holds. sound_of t holds.db holds.holds };
}

impl<D: Disk> RunStore for PageRuns<D> {
    type Names = HeldNames;

    fn has_run(&mut self, run: u32) -> Result<bool, StoreError> {
        self.if_usable()?;
        Ok(self.lists.has_run(run))
    }

    fn has_group(&mut self, name: &str) -> Result<bool, StoreError> {
        self.if_usable()?;
        Ok(self.lists.has_group(name))
    }

    fn run_count(&mut self) -> Result<u64, StoreError> {
        self.if_usable()?;
        Ok(self.lists.run_count())
    }

    fn group_count(&mut self) -> Result<u64, StoreError> {
        self.if_usable()?;
        Ok(self.lists.group_count())
    }

    fn next_run(&mut self) -> Result<u32, StoreError> {
        self.if_usable()?;
        Ok(self.lists.next_run())
    }

    fn run_of_digest(&mut self, digest: &[u8]) -> Result<Option<u32>, StoreError> {
        self.if_usable()?;
        Ok(self.lists.run_of_digest(digest))
    }

    fn runs(&mut self, alloc: Global) -> Result<Vec<RunEntry>, StoreError> {
        self.if_usable()?;
        self.lists.runs(alloc)
    }

    fn groups(&mut self, alloc: Global) -> Result<Vec<GroupEntry>, StoreError> {
        self.if_usable()?;
        self.lists.groups(alloc)
    }

    fn run_numbers(&mut self, alloc: Global) -> Result<ListVec<u32>, StoreError> {
        self.if_usable()?;
        self.lists.run_numbers(alloc)
    }

    fn members_of(&mut self, alloc: Global, name: &str) -> Result<ListVec<u32>, StoreError> {
        self.if_usable()?;
        self.lists.members_of(alloc, name)
    }

    fn kind_of(&mut self, run: u32) -> Result<Kind, StoreError> {
        self.if_usable()?;
        self.lists.kind_of(run)
    }

    fn baseline_of(&mut self, name: &str) -> Result<Option<u32>, StoreError> {
        self.if_usable()?;
        self.lists.baseline_of(name)
    }

    fn totals_of(
        &mut self,
        alloc: Global,
        events: &[ListVec<u8>],
    ) -> Result<FileTotals, StoreError> {
        self.if_usable()?;
        self.lists.totals_of(alloc, events)
    }

    fn sums_of(&mut self, alloc: Global, run: u32) -> Result<ListVec<u128>, StoreError> {
        self.if_usable()?;
        self.lists.sums_of(alloc, run)
    }

    fn head_of(&mut self, alloc: Global, run: u32) -> Result<FileHead, StoreError> {
        self.if_usable()?;
        head_of(alloc, &self.lists, run)
    }

    fn names_of(&mut self, alloc: Global) -> Result<HeldNames, StoreError> {
        let answer = names_under(&mut self.file, alloc, self.roots.names)?;
        self.if_usable()?;
        Ok(answer)
    }

    fn names_among(&mut self, alloc: Global, numbers: &[u32]) -> Result<HeldNames, StoreError> {
        let answer = names_among(&mut self.file, alloc, self.roots.names, numbers)?;
        self.if_usable()?;
        Ok(answer)
    }

    fn number_of(&mut self, alloc: Global, name: &[u8]) -> Result<Option<u32>, StoreError> {
        is_name(name);
        find_name(&mut self.file, alloc, self.roots.name_bytes, name)
    }

    fn holds_names(&mut self, alloc: Global, numbers: &[u32]) -> Result<bool, StoreError> {
        let answer = holds_names(&mut self.file, alloc, self.roots.names, numbers)?;
        self.if_usable()?;
        Ok(answer)
    }

    fn each_cell<T: CellSink + Drop>(
        &mut self,
        run: u32,
        events: usize,
        sink: T,
    ) -> Result<T, StoreError> {
        if let Some(cells) = self.kept_cells.cells_of(run) {
            self.if_usable()?;
            return each_kept(cells, events, sink);
        }
        let table = self.cells_of(run)?;
        let sink = GatheredLines {
            lines: CellLines::new(events, sink),
            gathered: self.kept_cells.begin(),
        };
        let taken = each_line(
            &mut self.file,
            self.alloc,
            table,
            &mut self.hints.cells,
            sink,
        )?;
        self.if_usable()?;
        self.kept_cells.keep(run, taken.gathered);
        Ok(taken.lines.finish())
    }

    fn each_call<T: CallSink + Drop>(
        &mut self,
        alloc: Global,
        run: u32,
        events: usize,
        sink: T,
    ) -> Result<T, StoreError> {
        let table = self.calls_of(run)?;
        let sink = CallLines::new(alloc, events, sink);
        let taken = each_line(&mut self.file, alloc, table, &mut self.hints.calls, sink)?;
        self.if_usable()?;
        taken.finish()
    }

    fn each_stack<T: StackRowSink + Drop>(&mut self, run: u32, sink: T) -> Result<T, StoreError> {
        let table = self.stacks_of(run)?;
        let sink = CopiedStacks {
            alloc: self.alloc,
            lines: StackLines::new(sink),
        };
        let taken = each_line(
            &mut self.file,
            self.alloc,
            table,
            &mut self.hints.stacks,
            sink,
        )?;
        self.if_usable()?;
        Ok(taken.lines.finish())
    }

    fn put_run(
        &mut self,
        alloc: Global,
        number: u32,
        kind: Kind,
        digest: &[u8; 32],
        label: &str,
        file: &SummedFile<'_>,
    ) -> Result<(), StoreError> {
        let (pages, lists) = (&mut self.file, &self.lists);
        let written = page_imports::put_run(pages, alloc, lists, number, kind, digest, label, file);
        self.finish(written)
    }

    fn drop_run(&mut self, run: u32) -> Result<(), StoreError> {
        let written = page_changes::drop_run(&mut self.file, self.alloc, &self.lists, run);
        self.finish(written)
    }

    fn put_group(&mut self, name: &str) -> Result<(), StoreError> {
        let (file, roots, lists) = (&mut self.file, &self.roots, &self.lists);
        let written = page_changes::put_group(file, self.alloc, roots, lists, name);
        self.finish(written)
    }

    fn drop_group(&mut self, name: &str) -> Result<(), StoreError> {
        let (file, roots, lists) = (&mut self.file, &self.roots, &self.lists);
        let written = page_changes::drop_group(file, self.alloc, roots, lists, name);
        self.finish(written)
    }

    fn join(&mut self, name: &str, run: u32) -> Result<(), StoreError> {
        let (file, roots, lists) = (&mut self.file, &self.roots, &self.lists);
        let written = page_changes::join(file, self.alloc, roots, lists, name, run);
        self.finish(written)
    }

    fn leave(&mut self, name: &str, run: u32) -> Result<(), StoreError> {
        let (file, roots, lists) = (&mut self.file, &self.roots, &self.lists);
        let written = page_changes::leave(file, self.alloc, roots, lists, name, run);
        self.finish(written)
    }

    fn set_baseline(&mut self, name: &str, run: u32) -> Result<(), StoreError> {
        let (file, roots, lists) = (&mut self.file, &self.roots, &self.lists);
        let written = page_changes::set_baseline(file, self.alloc, roots, lists, name, run);
        self.finish(written)
    }

    ghost use Rattle.page_runs.specs.States.{survives};

    ghost survives = { survives };
}
