// The rows of a run in one of its tables, handed on one at a time.
ghost use Rattle.std.specs.Prelude.{◌≡◌, [], List, IfOk};
ghost use Rattle.sqlite_value.specs.Order.{Row};
ghost use Rattle.page_files.specs.Files.{IsFaithful, OnlyReads};
ghost use Rattle.page_runs.specs.PartSums.{SumTo};
ghost use Rattle.page_lists.specs.Shown.{ShowsRows};
ghost use Rattle.page_lists.specs.Walks.{AreOfRun, InOrder};

use crate::hints::Hints;
use crate::part_sums::{is_nothing, take_off};
use crate::places::begin_of;
use page_files::PageFile;
use page_lists::number_in;
use page_places::error_of_walk;
use page_rows::RowSink;
use plain_tables::StoreError;
use sqlite_disk::Disk;
use sqlite_record::fields::Fields;
use std::alloc::Global;

/// What a line adds to a sum of its run.
#[derive(Clone, Copy)]
pub(crate) struct Added {
    /// The part of the sums in which it counts.
    pub part: u32,
    pub amount: u64,
}

/// Takes the lines of a run in one of the tables whose rows are lines of runs, one at a time.
pub(crate) trait LineSink {
    ghost use Rattle.std.specs.Prelude.{◌≡◌, ◌++◌, ◌∷◌, [], ℕ, List, IfOk};
    ghost use Rattle.sqlite_record.specs.Fields.{fields_left};
    ghost use Rattle.sqlite_value.specs.Order.{Row};
    ghost use Rattle.prof_store.specs.Tables.{number};

    /// A line of the table.
    ghost Line: { Type 0 };

    /// The columns of a row that says this.
    ghost columns: { Line → Row };

    /// The part of a run's sums in which it counts.
    ghost part: { Line → ℕ };

    /// What it adds to the sum of its part.
    ghost amount: { Line → ℕ };

    /// What it can begin with.
    ghost Start: { Type 0 };

    /// It began with this, and has taken these lines.
    ghost Has: { Start → List Line → Self → Type 0 };

    /// Takes the line of a run that a record says in its values behind the run, and answers what it adds. An error ends
    /// the walk.
    fn take(&mut self, run: u32, fields: Fields<'_>) -> Result<Added, StoreError>
        ensures { IfOk result (λ added. (start : Start) (lines : List Line) → Has start lines self.old
            → (line : Line) × (columns line ≡ number run ∷ fields_left fields.entry) × (part line ≡ added.part) × (amount line ≡ added.amount)
            × Has start (lines ++ line ∷ []) self.new) };
}

/// A run in one of these tables.
#[derive(Drop)]
pub(crate) struct RunTable {
    /// The root of the table.
    pub root: u32,
    pub run: u32,
    /// What the amounts of its lines sum to, part by part, as the small tables say.
    pub sums: Vec<u64>,
    /// How many runs are held.
    pub runs: u64,
}

/// Takes the rows of a run, up to the first of a later one, and takes their amounts off the sums of their parts.
#[derive(Drop)]
struct RunRows<T: Drop> {
    run: u32,
    sink: T,
    /// What the rows that are not taken yet have to sum to, part by part.
    left: Vec<u64>,
    /// The rowid behind the last row that it took.
    behind: i64,
    /// The later run at whose first row it ended.
    next: Option<u32>,
}

impl<T: LineSink + Drop> RowSink for RunRows<T> {
    ghost use Rattle.std.specs.Prelude.{◌≡◌, ◌<◌, ◌++◌, ◌∷◌, [], ℕ, List, ⊤};
    ghost use Rattle.sqlite_value.specs.Order.{Row};
    ghost use Rattle.page_runs.specs.PartSums.{LeaveOf};
    ghost use Rattle.page_lists.specs.Walks.{AreOfRun, run_in};

    type Refusal = StoreError;

    ghost Start = { ℕ × List ℕ × T.Start };

    ghost Has = { λ start rows s. (s.run ≡ start.0) × ((lines : List T.Line) × AreOfRun T.columns start.0 rows lines
        × LeaveOf T.part T.amount lines start.1 s.left.items × T.Has start.2 lines s.sink) };

    ghost Ends = { λ start rows s. (front : List Row) × (last : Row) × (rows ≡ front ++ last ∷ []) × (start.0 < run_in last)
        × ((lines : List T.Line) × AreOfRun T.columns start.0 front lines × LeaveOf T.part T.amount lines start.1 s.left.items × T.Has start.2 lines s.sink) };

    ghost Refuses = { λ _ _. ⊤ };

    fn take(&mut self, rowid: i64, payload: &[u8]) -> Result<bool, StoreError> {
        let mut fields = Fields::new(payload);
        let run = number_in(&mut fields)?;
        if run > self.run {
            self.next = Some(run);
            return Ok(false);
        }
        self.behind = rowid.saturating_add(1);
        if run == self.run {
            let added = self.sink.take(run, fields)?;
            take_off(&mut self.left, added.part, added.amount)?;
        }
        Ok(true)
    }
}

/// Hands the lines of a run on, in a table whose rows stand in the order of the runs. What took them is handed back.
/// Where the run begins is looked for at its hint first, and kept as one; so is where the next run does. Errors:
/// `Memory`; `Store` for pages that cannot be read, for rows out of form, and where the lines of a part do not sum to
/// what the small tables say, as where some lie behind those of a later run; and those of the taker.
pub(crate) fn each_line<D: Disk, T: LineSink + Drop>(
    file: &mut PageFile<D>,
    alloc: Global,
    table: RunTable,
    hints: &mut Hints,
    sink: T,
) -> Result<T, StoreError>
    ensures handed { IsFaithful file.new → (rows : List Row) → ShowsRows file.old table.root rows → InOrder rows
        → (start : T.Start) → T.Has start [] sink
        → IfOk result (λ taken. (lines : List T.Line) × AreOfRun T.columns table.run rows lines
        × SumTo T.part T.amount lines table.sums.items × T.Has start lines taken) }
    ensures reads { OnlyReads file.old file.new }
{
    let RunTable {
        root,
        run,
        sums,
        runs,
    } = table;
    let hint = hints.begin_of(run);
    let from = begin_of(file, alloc, root, run, hint)?;
    hints.keep(run, from, runs);
    let mut rows = RunRows {
        run,
        sink,
        left: sums,
        behind: from,
        next: None,
    };
    match file.walk(alloc, root, from, &mut rows) {
        Ok(()) if is_nothing(&rows.left) => {
            hints.keep_found(rows.next, rows.behind, runs);
            Ok(rows.sink)
        }
        Ok(()) => Err(StoreError::Store),
        Err(error) => Err(error_of_walk(error)),
    }
}
