// The memberships of a run.
ghost use Rattle.std.specs.Prelude.{⊤};
ghost use Rattle.page_files.specs.Files.{LeavesUsable};
ghost use Rattle.page_changes.specs.Changes.{MakesWithin};
ghost use Rattle.page_changes.specs.Removed.{Anything, without_memberships};

use page_files::PageFile;
use page_places::{StoreRoots, error_of_row};
use plain_tables::StoreError;
use row_writes::{RowTest, erase_where};
use sqlite_disk::Disk;
use sqlite_record::fields::Fields;
use sqlite_value::order::compare;
use sqlite_value::value::ValueRef;
use std::alloc::Global;

/// Takes the rows whose second column is a run: the members that it is, or the groups whose baseline it is.
#[derive(Clone, Copy, Debug)]
pub(crate) struct OfRun(pub u32);

impl RowTest for OfRun {
    ghost use Rattle.page_changes.specs.Removed.{is_second};

    ghost takes = { λ it. is_second it.0 };

    fn test(&self, _rowid: i64, payload: &[u8]) -> bool {
        let mut fields = Fields::new(payload);
        let Some(_) = fields.next() else {
            return false;
        };
        let Some(value) = fields.next() else {
            return false;
        };
        compare(value, ValueRef::Int(i64::from(self.0))).is_eq()
    }
}

/// Takes a run out of each group. It walks over the table of members.
pub(crate) fn drop_members<D: Disk>(
    file: &mut PageFile<D>,
    alloc: Global,
    roots: &StoreRoots,
    run: u32,
) -> Result<(), StoreError>
    ensures done { MakesWithin file.old file.new roots.now Anything (without_memberships run) (λ _ _. ⊤) result }
    ensures leaves { LeavesUsable file.old file.new result }
{
    match erase_where(file, alloc, &roots.member_table().place(), &OfRun(run)) {
        Ok(()) => Ok(()),
        Err(error) => Err(error_of_row(error)),
    }
}
