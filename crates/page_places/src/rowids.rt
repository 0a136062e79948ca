// Rowids that are free.
ghost use Rattle.std.specs.Prelude.{◌≡◌, OnOk, MatchResult};
ghost use Rattle.sqlite_rules.specs.Edit.{next_rowid};
ghost use Rattle.sqlite_value.specs.declared.value.Value.TheVariants.{Int};
ghost use Rattle.page_files.specs.Files.{IsUsable, OnlyReads};
ghost use Rattle.page_places.specs.Causes.{FailsToNumber};
ghost use Rattle.page_places.specs.Changes.{AreBelow, AtRows};

use crate::errors::RowError;
use crate::places::Place;
use page_files::PageFile;
use sqlite_disk::Disk;
use std::alloc::Global;

/// The rowid above that of the last row of a table, which is 1 where the table is empty.
///
/// # Errors
/// `Pages`, as `PageFile::last_rowid`; `NoRowid`.
pub fn free_rowid<D: Disk>(
    file: &mut PageFile<D>,
    alloc: Global,
    place: &Place<'_>,
) -> Result<i64, RowError>
    ensures done { AtRows file.old file.new place.now
        (λ rows. MatchResult result (λ id. (id ≡ next_rowid rows) × AreBelow (Int id) rows) (FailsToNumber file.old file.new rows)) }
    ensures reads { OnlyReads file.old file.new }
    ensures usable { OnOk result (IsUsable file.new) }
{
    let Some(last) = file.last_rowid(alloc, place.root)? else {
        return Ok(1);
    };
    if last == i64::MAX {
        return Err(RowError::NoRowid);
    }
    Ok(last + 1)
}
