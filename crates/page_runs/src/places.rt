// Where the rows of a run begin.
ghost use Rattle.std.specs.Prelude.{◌≡◌, ◌<◌, ◌≤◌, ◌^◌, ◌+ℤ◌, ℕ, ℤ, pos, FitsSigned, List, Some, IfOk, IfSome};
ghost use Rattle.std.specs.Int.{w64};
ghost use Rattle.sqlite_value.specs.Order.{Row};
ghost use Rattle.page_files.specs.Files.{IsFaithful, OnlyReads};
ghost use Rattle.page_rows.specs.Rows.{from_rowid};
ghost use Rattle.page_lists.specs.Shown.{ShowsRows};
ghost use Rattle.page_lists.specs.Walks.{AllEarlier, InOrder, IsFirstOf};

use page_files::PageFile;
use page_lists::number_in;
use page_places::{error_of, error_of_walk};
use page_rows::RowSink;
use plain_tables::StoreError;
use sqlite_disk::Disk;
use sqlite_record::fields::Fields;
use std::alloc::Global;

/// Takes the rowid and the run of one row.
#[derive(Drop)]
struct First {
    found: Option<(i64, u32)>,
}

impl RowSink for First {
    ghost use Rattle.std.specs.Prelude.{◌≡◌, ℤ, ℕ, [], Some, None, ⊤};
    ghost use Rattle.page_lists.specs.Walks.{IsFirstOf};

    type Refusal = StoreError;

    ghost Start = { Unit {0} };

    ghost Has = { λ _ rows s. (rows ≡ []) × (s.found ≡ None) };

    ghost Ends = { λ _ rows s. (place : ℤ × ℕ) × (s.found ≡ Some place) × IsFirstOf rows (Some place) };

    ghost Refuses = { λ _ _. ⊤ };

    fn take(&mut self, rowid: i64, payload: &[u8]) -> Result<bool, StoreError> {
        let run = number_in(&mut Fields::new(payload))?;
        self.found = Some((rowid, run));
        Ok(false)
    }
}

/// The rowid and the run of the first row from a rowid on, if there is one.
fn first_from<D: Disk>(
    file: &mut PageFile<D>,
    alloc: Global,
    root: u32,
    from: i64,
) -> Result<Option<(i64, u32)>, StoreError>
    ensures found { IsFaithful file.new → (rows : List Row) → ShowsRows file.old root rows
        → IfOk result (IsFirstOf (from_rowid from rows)) }
    ensures reads { OnlyReads file.old file.new }
{
    let mut first = First { found: None };
    match file.walk(alloc, root, from, &mut first) {
        Ok(()) => Ok(first.found),
        Err(error) => Err(error_of_walk(error)),
    }
}

/// The rowid behind a row, where it is of an earlier run.
fn behind_earlier(found: Option<(i64, u32)>, run: u32) -> Option<i64>
    ensures fits { IfSome result (FitsSigned w64) }
    ensures behind { IfSome result (λ next. (id : ℤ) × (of : ℕ) × (found ≡ Some (id, of)) × (of < run) × (next ≡ id +ℤ pos 1)) }
{
    let (rowid, of) = found?;
    if of < run && rowid < i64::MAX {
        Some(rowid + 1)
    } else {
        None
    }
}

/// The number above the last rowid of a table, or 0 where there is none from 0 on.
fn above_last<D: Disk>(file: &mut PageFile<D>, alloc: Global, root: u32) -> Result<u64, StoreError>
    ensures fits { IfOk result (λ above. above ≤ 2 ^ 63) }
    ensures reads { OnlyReads file.old file.new }
{
    match file.last_rowid(alloc, root) {
        Ok(Some(last)) => match u64::try_from(last) {
            Ok(last) => Ok(last + 1),
            Err(_) => Ok(0),
        },
        Ok(None) => Ok(0),
        Err(error) => Err(error_of(error)),
    }
}

/// A rowid before which no row is of this run or a later one. It is found by halves, since the rows stand in the
/// order of the runs: as imports write them.
fn place_of<D: Disk>(
    file: &mut PageFile<D>,
    alloc: Global,
    root: u32,
    run: u32,
) -> Result<i64, StoreError>
    ensures earlier { IsFaithful file.new → (rows : List Row) → ShowsRows file.old root rows → InOrder rows
        → IfOk result (λ from. AllEarlier run from rows) }
    ensures fits { IfOk result (FitsSigned w64) }
    ensures reads { OnlyReads file.old file.new }
{
    let mut from = i64::MIN;
    let mut low: u64 = 0;
    let mut high = above_last(file, alloc, root)?;
    'halves: for _ in 0..64 {
        if low >= high {
            return Ok(from);
        }
        let at = low + (high - low) / 2;
        let found = first_from(file, alloc, root, at as i64)?;
        match behind_earlier(found, run) {
            Some(next) => {
                from = next;
                low = at + 1;
            }
            None => high = at,
        }
    }
    Ok(from)
}

/// The rowid at which a run is thought to begin, or a later one, if no row before it is of this run or a later one.
fn proved_place<D: Disk>(
    file: &mut PageFile<D>,
    alloc: Global,
    root: u32,
    run: u32,
    hint: i64,
) -> Result<Option<i64>, StoreError>
    ensures earlier { IsFaithful file.new → (rows : List Row) → ShowsRows file.old root rows → InOrder rows
        → IfOk result (λ found. IfSome found (λ from. AllEarlier run from rows)) }
    ensures fits { IfOk result (λ found. IfSome found (FitsSigned w64)) }
    ensures reads { OnlyReads file.old file.new }
{
    let Some(before) = hint.checked_sub(1) else {
        return Ok(Some(i64::MIN));
    };
    let found = first_from(file, alloc, root, before)?;
    Ok(behind_earlier(found, run))
}

/// A rowid before which no row is of this run or a later one: the hint, if that is right.
pub(crate) fn begin_of<D: Disk>(
    file: &mut PageFile<D>,
    alloc: Global,
    root: u32,
    run: u32,
    hint: Option<i64>,
) -> Result<i64, StoreError>
    ensures earlier { IsFaithful file.new → (rows : List Row) → ShowsRows file.old root rows → InOrder rows
        → IfOk result (λ from. AllEarlier run from rows) }
    ensures fits { IfOk result (FitsSigned w64) }
    ensures reads { OnlyReads file.old file.new }
{
    match hint {
        Some(hint) => match proved_place(file, alloc, root, run, hint)? {
            Some(from) => Ok(from),
            None => place_of(file, alloc, root, run),
        },
        None => place_of(file, alloc, root, run),
    }
}
