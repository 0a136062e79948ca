// The number of a name, found by the index of names (specs/Names.antt).
ghost use Rattle.std.specs.Prelude.{◌≡◌, ◌∷◌, [], IfOk, IfErr, OnOk};
ghost use Rattle.sqlite_record.specs.Record.{decode};
ghost use Rattle.sqlite_value.specs.declared.value.Value.TheVariants.{Blob};
ghost use Rattle.page_files.specs.Files.{IsUsable, OnlyReads};
ghost use Rattle.prof_store.specs.Tables.{number};
ghost use Rattle.page_places.specs.Names.{FindsName, IsRefused};

use crate::failures::error_of_walk;
use page_files::PageFile;
use page_rows::EntrySink;
use plain_tables::StoreError;
use sqlite_disk::Disk;
use sqlite_record::fields::Fields;
use sqlite_value::keys::Order;
use sqlite_value::row::Row;
use sqlite_value::value::ValueRef;
use std::alloc::Global;

/// The name and the number of an entry. `Store` where it has other columns.
fn named_in(payload: &[u8]) -> Result<(&[u8], u32), StoreError>
    ensures read { IfOk result (λ read. decode payload.now ≡ Blob read.0.now ∷ number read.1 ∷ []) }
    ensures refused { IfErr result (IsRefused (decode payload.now)) }
{
    let mut fields = Fields::new(payload);
    let Some(ValueRef::Blob(name)) = fields.next() else {
        return Err(StoreError::Store);
    };
    let Some(ValueRef::Int(number)) = fields.next() else {
        return Err(StoreError::Store);
    };
    let Ok(number) = u32::try_from(number) else {
        return Err(StoreError::Store);
    };
    match fields.next() {
        None => Ok((name, number)),
        Some(_) => Err(StoreError::Store),
    }
}

/// Takes one entry of the names, and keeps the number if it is that of a name.
#[derive(Drop)]
struct Seeker<'n> {
    name: &'n [u8],
    found: Option<u32>,
}

impl EntrySink for Seeker<'_> {
    ghost use Rattle.std.specs.Prelude.{◌≡◌, ℕ, List, [], None};
    ghost use Rattle.page_places.specs.Names.{EndsAt, IsRefused};

    type Refusal = StoreError;

    ghost Start = { List ℕ };

    ghost Has = { λ name entries s. (s.name.now ≡ name) × (s.found ≡ None) × (entries ≡ []) };

    ghost Ends = { λ name entries s. EndsAt name entries s.found };

    ghost Refuses = { IsRefused };

    fn take(&mut self, payload: &[u8]) -> Result<bool, StoreError> {
        let (name, number) = named_in(payload)?;
        if name == self.name {
            self.found = Some(number);
        }
        Ok(false)
    }
}

/// The number of a name, if it is held: that of the first entry from the name on, if it is of this name. `root` is the
/// root page of the index of names. `Memory`; `Store` where a page cannot be read, or an entry that is read is out of form.
pub fn find_name<D: Disk>(
    file: &mut PageFile<D>,
    alloc: Global,
    root: u32,
    name: &[u8],
) -> Result<Option<u32>, StoreError>
    ensures told { FindsName file.old file.new root name.now result }
    ensures reads { OnlyReads file.old file.new }
    ensures usable { OnOk result (IsUsable file.new) }
{
    let mut from = Row::new(alloc);
    from.push(ValueRef::Blob(name))?;
    let mut seeker = Seeker { name, found: None };
    match file.walk_entries(alloc, root, Order::PLAIN, &from, &mut seeker) {
        Ok(()) => Ok(seeker.found),
        Err(error) => Err(error_of_walk(error)),
    }
}
