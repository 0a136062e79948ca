// All rows of a table, read into a list.
ghost use Rattle.std.specs.Prelude.{◌≡◌, ℕ, List, map, IfOk, OnOk};
ghost use Rattle.sqlite_value.specs.Order.{Row};
ghost use Rattle.page_files.specs.Files.{IsFaithful, IsUsable, OnlyReads};
ghost use Rattle.page_lists.specs.Refusals.{ServesRows};
ghost use Rattle.page_lists.specs.Shown.{ShowsRows};

use crate::records::FromRecord;
use page_files::PageFile;
use page_places::error_of_walk;
use page_rows::RowSink;
use plain_tables::StoreError;
use sqlite_disk::Disk;
use std::alloc::Global;

/// Takes all rows of a table.
#[derive(Drop)]
struct Lines<L> {
    alloc: Global,
    lines: Vec<L>,
}

impl<L: FromRecord + Drop> RowSink for Lines<L> {
    ghost use Rattle.std.specs.Prelude.{◌≡◌, map};
    ghost use Rattle.page_lists.specs.Refusals.{RefusesRow};

    type Refusal = StoreError;

    ghost Start = { Unit {0} };

    ghost Has = { λ _ rows s. map L.columns s.lines.items ≡ map L.seen rows };

    ghost Ends = { λ _ _ _. ⊥ };

    ghost Refuses = { RefusesRow L.IsRead };

    fn take(&mut self, rowid: i64, payload: &[u8]) -> Result<bool, StoreError> {
        let line = L::from_record(self.alloc, rowid, payload)?;
        match self.lines.push(line) {
            Ok(()) => Ok(true),
            Err(_) => Err(StoreError::Memory),
        }
    }
}

/// Reads all rows of the table under a root page, in the order of their rowids. `Store` where a page cannot be
/// read or a row is out of form.
pub(crate) fn all_rows<D: Disk, L: FromRecord + Drop>(
    file: &mut PageFile<D>,
    alloc: Global,
    root: u32,
) -> Result<Vec<L>, StoreError>
    ensures read { IsFaithful file.new → (rows : List Row) → ShowsRows file.old root rows
        → IfOk result (λ lines. map L.columns lines.items ≡ map L.seen rows) }
    ensures serves { ServesRows file.old file.new L.IsRead root result }
    ensures usable { OnOk result (IsUsable file.new) }
    ensures reads { OnlyReads file.old file.new }
{
    let mut lines = Lines {
        alloc,
        lines: Vec::new(alloc),
    };
    match file.walk(alloc, root, i64::MIN, &mut lines) {
        Ok(()) => Ok(lines.lines),
        Err(error) => Err(error_of_walk(error)),
    }
}
