// A file is put in as a run.
ghost use Rattle.std.specs.Prelude.{◌≡◌, ◌<◌, ◌++◌, ◌^◌, false, IfErr, IsTrue, OnOk};
ghost use Rattle.std.specs.List.{list_any};
ghost use Rattle.cost_rows.specs.Rows.{content_of};
ghost use Rattle.cost_rows.specs.Totals.{count_total};
ghost use Rattle.page_files.specs.Files.{LeavesUsable};
ghost use Rattle.plain_tables.specs.Tables.{Tables};
ghost use Rattle.run_stores.specs.Heads.{IsComplete};
ghost use Rattle.page_imports.specs.Sums.{AllFit};
ghost use Rattle.run_lists.specs.Listed.{AreListed};
ghost use Rattle.run_stores.specs.BookRuns.{filed};
ghost use Rattle.run_stores.specs.Runs.{with_summed};
ghost use Rattle.page_imports.specs.Causes.{CanImport, FailsWithout};
ghost use Rattle.page_imports.specs.Imports.{Imports, IsNew, reaches};
ghost use Rattle.page_imports.specs.Steps.{Begins};

use crate::head_lines::head_rows;
use crate::heads::put_head;
use crate::rows::put_rows;
use page_files::PageFile;
use page_places::{StoreRoots, find_roots};
use plain_tables::StoreError;
use prof_store::{RunRow, column_int_of, number_of_kind};
use profile_records::Kind;
use run_lists::RunLists;
use run_stores::SummedFile;
use sqlite_disk::Disk;
use std::alloc::Global;

/// Whether a run has this number or a greater one.
fn is_reached(lists: &RunLists, number: u32) -> bool
    ensures { result ≡ list_any (reaches number) lists.now.runs.items }
{
    lists.runs.iter().any(|line| line.entry.number >= number)
}

/// Whether a run of this number and digest would be the next one.
fn is_next(lists: &RunLists, number: u32, digest: &[u8; 32]) -> bool
    ensures told { (t : Tables) → AreListed t lists.now → IsTrue result → IsNew number digest.now t }
    ensures refused { (t : Tables) → AreListed t lists.now → result ≡ false → ¬ (IsNew number digest.now t) }
{
    lists.next_run() == number && lists.run_of_digest(digest).is_none()
}

/// Begins to put a file in as a run, as `put_run`, where it is the next one: puts what the run says of itself behind the
/// others, and nothing of its rows. Gives the roots of the tables.
fn put_beginning<D: Disk>(
    file: &mut PageFile<D>,
    alloc: Global,
    number: u32,
    kind: Kind,
    digest: &[u8; 32],
    label: &str,
    summed: &SummedFile<'_>,
) -> Result<StoreRoots, StoreError>
    ensures done { Begins file.old file.new (filed number kind digest.now label.now summed.now.head.now (content_of summed.now.rows.now))
        (CanImport number kind digest.now label.now summed.now) result }
    ensures complete { OnOk result (IsComplete summed.now.head.now) }
    ensures fits { OnOk result (AllFit summed.now.head.now (content_of summed.now.rows.now)) }
    ensures counted { OnOk result (count_total (content_of summed.now.rows.now).calls < 2 ^ 63) }
    ensures leaves { LeavesUsable file.old file.new result }
{
    let roots = find_roots(file, alloc)?;
    let Some(call_count) = column_int_of(summed.totals.call_count) else {
        return Err(StoreError::Store);
    };
    let run = RunRow {
        number,
        kind: number_of_kind(kind),
        digest,
        label,
        call_count,
    };
    let lines = head_rows(alloc, number, summed.head, &summed.totals)?;
    put_head(file, alloc, &roots, &run, &lines)?;
    Ok(roots)
}

/// Puts a file in as the run of the next number. `digest` is the SHA-256 of the file, `label` a text in form
/// (`is_label`). `Store` where the number is not the next one, or not above those of all runs; a run has the digest,
/// a sum of a column or a number of calls is above 2^63-1, the head states a total for some events alone, the file
/// failed, or it is at a limit; `Memory`. After an error call `PageFile::undo`.
pub fn put_run<D: Disk>(
    file: &mut PageFile<D>,
    alloc: Global,
    lists: &RunLists,
    number: u32,
    kind: Kind,
    digest: &[u8; 32],
    label: &str,
    summed: &SummedFile<'_>,
) -> Result<(), StoreError>
    ensures done { Imports file.old file.new lists.now (with_summed number kind digest.now label.now summed.now) result }
    ensures failed { IfErr result (FailsWithout file.old file.new lists.now (CanImport number kind digest.now label.now summed.now)) }
    ensures is_new { (t : Tables) → AreListed t lists.now → OnOk result (IsNew number digest.now t) }
    ensures complete { OnOk result (IsComplete summed.now.head.now) }
    ensures fits { OnOk result (AllFit summed.now.head.now (content_of summed.now.rows.now)) }
    ensures counted { OnOk result (count_total (content_of summed.now.rows.now).calls < 2 ^ 63) }
    ensures leaves { LeavesUsable file.old file.new result }
{
    // Where another program set the next number back, no run is written over.
    if is_reached(lists, number) || !is_next(lists, number, digest) {
        return Err(StoreError::Store);
    }
    let roots = put_beginning(file, alloc, number, kind, digest, label, summed)?;
    put_rows(file, alloc, &roots, number, summed.rows)
}
