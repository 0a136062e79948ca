// Whether the indexes of the small tables have the keys of their rows.
ghost use Rattle.std.specs.Prelude.{◌≡◌, ◌++◌, ◌∷◌, [], map, IsOkAnd, IsTrue, OnOk};
ghost use Rattle.sqlite_record.specs.Fields.{fields_left};
ghost use Rattle.sqlite_value.specs.declared.value.Value.{Value};
ghost use Rattle.sqlite_value.specs.declared.value.Value.TheVariants.{Blob, Text};
ghost use Rattle.page_files.specs.Files.{IsFaithful, IsUsable, OnlyReads};
ghost use Rattle.prof_store.specs.Tables.{number};
ghost use Rattle.page_lists.specs.Indexed.{AreDerivedIndexed, AreEventsIndexed, AreGroupsIndexed, AreIndexed, HasKeys};

use crate::index_keys::{
    coef_keys, derived_names, derived_places, digests, event_names, event_places, group_names,
    member_keys,
};
use page_files::PageFile;
use page_places::{StoreRoots, error_of_walk};
use page_rows::EntrySink;
use plain_tables::StoreError;
use run_lists::RunLists;
use sqlite_disk::Disk;
use sqlite_record::fields::Fields;
use sqlite_value::keys::Order;
use sqlite_value::row::Row;
use sqlite_value::value::ValueRef;
use std::alloc::{AllocError, Global};

/// The key of a row, as an index has it.
trait Key {
    ghost use Rattle.std.specs.Prelude.{◌≡◌, ◌++◌, IsTrue};
    ghost use Rattle.sqlite_record.specs.Fields.{fields_left};
    ghost use Rattle.sqlite_value.specs.Order.{Row};

    /// Its columns.
    ghost columns: { Self → Row };

    /// Whether a record has them next. They are read then.
    fn is_next(&self, fields: &mut Fields<'_>) -> bool
        ensures { IsTrue result → fields_left fields.old ≡ columns self.now ++ fields_left fields.new };
}

/// Whether the next value is this number.
fn is_number(fields: &mut Fields<'_>, whole: u32) -> bool
    ensures { IsTrue result → fields_left fields.old ≡ number whole ∷ fields_left fields.new }
{
    matches!(fields.next(), Some(ValueRef::Int(value)) if value == i64::from(whole))
}

/// Whether the next value is these bytes.
fn are_bytes(fields: &mut Fields<'_>, bytes: &[u8]) -> bool
    ensures { IsTrue result → fields_left fields.old ≡ Blob bytes.now ∷ fields_left fields.new }
{
    matches!(fields.next(), Some(ValueRef::Blob(value)) if value == bytes)
}

/// Whether the next value is this text.
fn is_text(fields: &mut Fields<'_>, text: &str) -> bool
    ensures { IsTrue result → fields_left fields.old ≡ Text text.now ∷ fields_left fields.new }
{
    matches!(fields.next(), Some(ValueRef::Text(value)) if value == text.as_bytes())
}

/// Whether one whole number is left, the rowid of a row.
fn is_rowid_left(fields: &mut Fields<'_>) -> bool
    ensures { IsTrue result → (rowid : Value) × (fields_left fields.old ≡ rowid ∷ []) }
{
    matches!(fields.next(), Some(ValueRef::Int(_))) && fields.next().is_none()
}

impl Key for (u32, u32) {
    ghost use Rattle.std.specs.Prelude.{◌∷◌, []};
    ghost use Rattle.prof_store.specs.Tables.{number};

    ghost columns = { λ k. number k.0 ∷ number k.1 ∷ [] };

    fn is_next(&self, fields: &mut Fields<'_>) -> bool {
        is_number(fields, self.0) && is_number(fields, self.1)
    }
}

impl Key for (u32, u32, u32) {
    ghost use Rattle.std.specs.Prelude.{◌∷◌, []};
    ghost use Rattle.prof_store.specs.Tables.{number};

    ghost columns = { λ k. number k.0 ∷ number k.1 ∷ number k.2 ∷ [] };

    fn is_next(&self, fields: &mut Fields<'_>) -> bool {
        is_number(fields, self.0) && is_number(fields, self.1) && is_number(fields, self.2)
    }
}

impl Key for (u32, &[u8]) {
    ghost use Rattle.std.specs.Prelude.{◌∷◌, []};
    ghost use Rattle.sqlite_value.specs.declared.value.Value.TheVariants.{Blob};
    ghost use Rattle.prof_store.specs.Tables.{number};

    ghost columns = { λ k. number k.0 ∷ Blob k.1.now ∷ [] };

    fn is_next(&self, fields: &mut Fields<'_>) -> bool {
        is_number(fields, self.0) && are_bytes(fields, self.1)
    }
}

impl Key for &[u8] {
    ghost use Rattle.std.specs.Prelude.{◌∷◌, []};
    ghost use Rattle.sqlite_value.specs.declared.value.Value.TheVariants.{Blob};

    ghost columns = { λ k. Blob k.now ∷ [] };

    fn is_next(&self, fields: &mut Fields<'_>) -> bool {
        are_bytes(fields, *self)
    }
}

impl Key for &str {
    ghost use Rattle.std.specs.Prelude.{◌∷◌, []};
    ghost use Rattle.sqlite_value.specs.declared.value.Value.TheVariants.{Text};

    ghost columns = { λ k. Text k.now ∷ [] };

    fn is_next(&self, fields: &mut Fields<'_>) -> bool {
        is_text(fields, *self)
    }
}

impl Key for (&str, u32) {
    ghost use Rattle.std.specs.Prelude.{◌∷◌, []};
    ghost use Rattle.sqlite_value.specs.declared.value.Value.TheVariants.{Text};
    ghost use Rattle.prof_store.specs.Tables.{number};

    ghost columns = { λ k. Text k.0.now ∷ number k.1 ∷ [] };

    fn is_next(&self, fields: &mut Fields<'_>) -> bool {
        is_text(fields, self.0) && is_number(fields, self.1)
    }
}

/// Takes the entries of an index as long as they have these keys, one after another.
#[derive(Drop)]
struct Compared<'k, K> {
    keys: &'k [K],
    taken: usize,
}

impl<K: Key> EntrySink for Compared<'_, K> {
    ghost use Rattle.std.specs.Prelude.{◌≡◌, List, map, take, ⊤};
    ghost use Rattle.sqlite_value.specs.Order.{Row};
    ghost use Rattle.page_lists.specs.Indexed.{key_of};

    type Refusal = StoreError;

    ghost Start = { List Row };

    ghost Has = { λ keys entries s. (map K.columns s.keys.now ≡ keys) × (map key_of entries ≡ take s.taken keys) };

    ghost Ends = { λ _ _ _. ⊥ };

    ghost Refuses = { λ _ _. ⊤ };

    fn take(&mut self, payload: &[u8]) -> Result<bool, StoreError> {
        let Some(key) = self.keys.get(self.taken) else {
            return Err(StoreError::Store);
        };
        let mut fields = Fields::new(payload);
        if !key.is_next(&mut fields) || !is_rowid_left(&mut fields) {
            return Err(StoreError::Store);
        }
        self.taken += 1;
        Ok(true)
    }
}

/// Looks whether the entries of the index under a root page have these keys and no others. `Store` where they do not,
/// or a page cannot be read; `Memory`, as well where there was none for the keys.
fn check_keys<D: Disk, K: Key + Ord + Drop>(
    file: &mut PageFile<D>,
    alloc: Global,
    root: u32,
    made: Result<Vec<K>, AllocError>,
) -> Result<(), StoreError>
    ensures same { OnOk result (IsFaithful file.new → IsOkAnd made (λ keys. HasKeys file.old root (map K.columns keys.items))) }
    ensures reads { OnlyReads file.old file.new }
    ensures usable { OnOk result (IsUsable file.new) }
{
    let mut keys = made?;
    keys.sort_unstable();
    let mut compared = Compared {
        keys: keys.as_slice(),
        taken: 0,
    };
    match file.walk_entries(alloc, root, Order::PLAIN, &Row::new(alloc), &mut compared) {
        Ok(()) if compared.taken == keys.len() => Ok(()),
        Ok(()) => Err(StoreError::Store),
        Err(error) => Err(error_of_walk(error)),
    }
}

/// Looks whether the indexes of runs and events have the keys of their rows.
fn check_events<D: Disk>(
    file: &mut PageFile<D>,
    alloc: Global,
    roots: &StoreRoots,
    lists: &RunLists,
) -> Result<(), StoreError>
    ensures same { OnOk result (IsFaithful file.new → AreEventsIndexed roots.now lists.now file.old) }
    ensures reads { OnlyReads file.old file.new }
    ensures usable { OnOk result (IsUsable file.new) }
{
    let digests = digests(alloc, &lists.runs);
    check_keys(file, alloc, roots.run_digests, digests)?;
    let places = event_places(alloc, lists.events.all());
    check_keys(file, alloc, roots.event_places, places)?;
    let names = event_names(alloc, lists.events.all());
    check_keys(file, alloc, roots.event_names, names)
}

/// The same of the derived events.
fn check_derived<D: Disk>(
    file: &mut PageFile<D>,
    alloc: Global,
    roots: &StoreRoots,
    lists: &RunLists,
) -> Result<(), StoreError>
    ensures same { OnOk result (IsFaithful file.new → AreDerivedIndexed roots.now lists.now file.old) }
    ensures reads { OnlyReads file.old file.new }
    ensures usable { OnOk result (IsUsable file.new) }
{
    let places = derived_places(alloc, lists.derived.all());
    check_keys(file, alloc, roots.derived_places, places)?;
    let names = derived_names(alloc, lists.derived.all());
    check_keys(file, alloc, roots.derived_names, names)?;
    let keys = coef_keys(alloc, lists.coefs.all());
    check_keys(file, alloc, roots.coef_keys, keys)
}

/// The same of the groups and their members.
fn check_groups<D: Disk>(
    file: &mut PageFile<D>,
    alloc: Global,
    roots: &StoreRoots,
    lists: &RunLists,
) -> Result<(), StoreError>
    ensures same { OnOk result (IsFaithful file.new → AreGroupsIndexed roots.now lists.now file.old) }
    ensures reads { OnlyReads file.old file.new }
    ensures usable { OnOk result (IsUsable file.new) }
{
    let names = group_names(alloc, &lists.groups);
    check_keys(file, alloc, roots.group_names, names)?;
    let members = member_keys(alloc, &lists.members);
    check_keys(file, alloc, roots.member_keys, members)
}

/// Looks whether each index of a small table has the keys of its rows. `Store` where one lacks a row, has an entry more,
/// or a row differs from its entry; `Memory`.
pub(crate) fn check_indexes<D: Disk>(
    file: &mut PageFile<D>,
    alloc: Global,
    roots: &StoreRoots,
    lists: &RunLists,
) -> Result<(), StoreError>
    ensures same { OnOk result (IsFaithful file.new → AreIndexed roots.now lists.now file.old) }
    ensures reads { OnlyReads file.old file.new }
    ensures usable { OnOk result (IsUsable file.new) }
{
    check_events(file, alloc, roots, lists)?;
    check_derived(file, alloc, roots, lists)?;
    check_groups(file, alloc, roots, lists)
}
