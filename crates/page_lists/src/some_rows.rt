// The rows of a table whose rowids are among some numbers, read into a list.
ghost use Rattle.std.specs.Prelude.{◌≡◌, ◌≤◌, ◌<◌, ◌-◌, ◌++◌, List, length, map, filter, slice_index, IfOk};
ghost use Rattle.std.specs.List.Sorted.{IsNonDecreasing};
ghost use Rattle.sqlite_value.specs.Order.{Row};
ghost use Rattle.page_files.specs.Files.{IsFaithful, OnlyReads};
ghost use Rattle.page_lists.specs.Among.{IsPassedTo, is_among};
ghost use Rattle.page_lists.specs.Refusals.{ServesRows};
ghost use Rattle.page_lists.specs.Shown.{ShowsRows};

use crate::records::FromRecord;
use page_files::PageFile;
use page_places::error_of_walk;
use page_rows::RowSink;
use plain_tables::StoreError;
use sqlite_disk::Disk;
use std::alloc::Global;

/// How far a number may lie above the one before for both to be read in one walk. A descent of the tree reads a few
/// pages, which hold about as many names as this: a longer way over names that are not asked for costs more.
const NEAR: u32 = 400;

/// The place of the first number from a place on, of numbers that rise, that is not below a rowid: or their end.
fn passed_to(numbers: &[u32], from: usize, rowid: i64) -> usize
    ensures { IsPassedTo numbers.now from rowid result }
{
    let mut at = from;
    'numbers: while at < numbers.len() && i64::from(numbers[at]) < rowid {
        at += 1;
    }
    at
}

/// Takes the rows whose rowids are among some numbers, which rise, up to the row of the last.
#[derive(Drop)]
struct Among<'n, L> {
    alloc: Global,
    numbers: &'n [u32],
    /// The place of the first number to which the rows have not come.
    at: usize,
    lines: Vec<L>,
}

impl<L: FromRecord + Drop> RowSink for Among<'_, L> {
    ghost use Rattle.std.specs.Prelude.{◌≡◌, ℕ, List, length};
    ghost use Rattle.std.specs.List.Sorted.{IsNonDecreasing};
    ghost use Rattle.sqlite_value.specs.Order.{Row};
    ghost use Rattle.page_lists.specs.Among.{HasTaken, Rise};
    ghost use Rattle.page_lists.specs.Refusals.{RefusesRow};

    type Refusal = StoreError;

    ghost Start = { List ℕ × List Row };

    ghost Has = { λ start rows s. (s.numbers.now ≡ start.0)
        × (IsNonDecreasing start.0 → Rise rows → HasTaken L.columns L.seen start.0 start.1 rows s.at s.lines.items) };

    ghost Ends = { λ start rows s. IsNonDecreasing start.0 → Rise rows → HasTaken L.columns L.seen start.0 start.1 rows (length start.0) s.lines.items };

    ghost Refuses = { RefusesRow L.IsRead };

    fn take(&mut self, rowid: i64, payload: &[u8]) -> Result<bool, StoreError> {
        let at = passed_to(self.numbers, self.at, rowid);
        self.at = at;
        match self.numbers.get(at) {
            None => Ok(false),
            Some(number) if i64::from(*number) == rowid => {
                let line = L::from_record(self.alloc, rowid, payload)?;
                if self.lines.push(line).is_err() {
                    return Err(StoreError::Memory);
                }
                self.at = at + 1;
                Ok(self.at < self.numbers.len())
            }
            Some(_) => Ok(true),
        }
    }
}

/// Adds the rows of numbers that rise to lines, in one walk.
fn with_group<D: Disk, L: FromRecord + Drop>(
    file: &mut PageFile<D>,
    alloc: Global,
    root: u32,
    group: &[u32],
    lines: Vec<L>,
) -> Result<Vec<L>, StoreError>
    ensures read { IsNonDecreasing group.now → IsFaithful file.new → (rows : List Row) → ShowsRows file.old root rows
        → IfOk result (λ more. map L.columns more.items ≡ map L.columns lines.items ++ map L.seen (filter (is_among group.now) rows)) }
    ensures serves { ServesRows file.old file.new L.IsRead root result }
    ensures reads { OnlyReads file.old file.new }
{
    let Some(first) = group.first() else {
        return Ok(lines);
    };
    let mut among = Among {
        alloc,
        numbers: group,
        at: 0,
        lines,
    };
    match file.walk(alloc, root, i64::from(*first), &mut among) {
        Ok(()) => Ok(among.lines),
        Err(error) => Err(error_of_walk(error)),
    }
}

/// The end of the group of numbers that begins at a place: the next is far above the last of them.
fn end_of_group(sorted: &[u32], from: usize) -> usize
    requires { from < length sorted.now }
    ensures onward { from < result }
    ensures within { result ≤ length sorted.now }
    ensures far { result < length sorted.now → slice_index sorted.now (result - 1) < slice_index sorted.now result }
{
    let mut end = from + 1;
    'near: while end < sorted.len() && sorted[end].saturating_sub(sorted[end - 1]) <= NEAR {
        end += 1;
    }
    end
}

/// The rows of numbers that rise: a walk for each group of them, so that the rows between groups are not read.
fn rows_of_sorted<D: Disk, L: FromRecord + Drop>(
    file: &mut PageFile<D>,
    alloc: Global,
    root: u32,
    sorted: &[u32],
) -> Result<Vec<L>, StoreError>
    ensures read { IsNonDecreasing sorted.now → IsFaithful file.new → (rows : List Row) → ShowsRows file.old root rows
        → IfOk result (λ lines. map L.columns lines.items ≡ map L.seen (filter (is_among sorted.now) rows)) }
    ensures serves { ServesRows file.old file.new L.IsRead root result }
    ensures reads { OnlyReads file.old file.new }
{
    let mut lines = Vec::new(alloc);
    let mut at = 0;
    'groups: while at < sorted.len() {
        let end = end_of_group(sorted, at);
        lines = with_group(file, alloc, root, &sorted[at..end], lines)?;
        at = end;
    }
    Ok(lines)
}

/// Reads the rows of the table under a root page whose rowids are among some numbers, in the order of their rowids.
/// Rows that lie far from these are not read. `Memory`; `Store` where a page cannot be read or a row that is read is
/// out of form.
pub(crate) fn rows_among<D: Disk, L: FromRecord + Drop>(
    file: &mut PageFile<D>,
    alloc: Global,
    root: u32,
    numbers: &[u32],
) -> Result<Vec<L>, StoreError>
    ensures read { IsFaithful file.new → (rows : List Row) → ShowsRows file.old root rows
        → IfOk result (λ lines. map L.columns lines.items ≡ map L.seen (filter (is_among numbers.now) rows)) }
    ensures serves { ServesRows file.old file.new L.IsRead root result }
    ensures reads { OnlyReads file.old file.new }
{
    let Ok(mut sorted) = numbers.to_vec(alloc) else {
        return Err(StoreError::Memory);
    };
    sorted.sort_unstable();
    rows_of_sorted(file, alloc, root, &sorted)
}
