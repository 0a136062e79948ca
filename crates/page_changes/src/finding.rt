// The rows of a name.
ghost use Rattle.std.specs.Prelude.{◌≡◌, ◌≢◌, ◌∷◌, ◌↔◌, ℕ, List, Option, IsTrue, IfErr, IfOk, OnOk};
ghost use Rattle.sqlite_value.specs.Order.{Row};
ghost use Rattle.sqlite_record.specs.Fields.{fields_left};
ghost use Rattle.sqlite_store.specs.Db.{table_row};
ghost use Rattle.sqlite_value.specs.declared.value.Value.TheVariants.{Text};
ghost use Rattle.prof_store.specs.Tables.{number_or_null};
ghost use Rattle.page_files.specs.Files.{IsFaithful, IsUsable, OnlyReads};
ghost use Rattle.page_changes.specs.Causes.{FailsToSeek};
ghost use Rattle.page_changes.specs.Named.{IsFound, IsNarrow, IsRefused, IsSought, named};
ghost use Rattle.page_changes.specs.Shown.{ShowsRows};

use page_files::PageFile;
use page_places::error_of_walk;
use page_rows::RowSink;
use plain_tables::StoreError;
use sqlite_disk::Disk;
use sqlite_record::fields::Fields;
use sqlite_value::value::ValueRef;
use std::alloc::Global;

/// A row of a name, and the number that stands beside it.
#[derive(Clone, Copy, Debug, PartialEq, Eq)]
pub(crate) struct NamedRow {
    pub rowid: i64,
    pub number: Option<u32>,
}

/// A text, where it lies.
fn text_in<'a>(fields: &mut Fields<'a>) -> Result<&'a [u8], StoreError>
    ensures read { IfOk result (λ text. fields_left fields.old ≡ Text text.now ∷ fields_left fields.new) }
    ensures refused { IfErr result (λ e. (e ≡ StoreError.Store) × ((text : List ℕ) (rest : Row) → fields_left fields.old ≢ Text text ∷ rest)) }
{
    match fields.next() {
        Some(ValueRef::Text(text)) => Ok(text),
        _ => Err(StoreError::Store),
    }
}

/// A whole number from 0 on, below 2^32, or NULL.
fn number_in(fields: &mut Fields<'_>) -> Result<Option<u32>, StoreError>
    ensures read { IfOk result (λ n. fields_left fields.old ≡ number_or_null n ∷ fields_left fields.new) }
    ensures refused { IfErr result (λ e. (e ≡ StoreError.Store)
        × ((n : Option ℕ) (rest : Row) → IsNarrow n → fields_left fields.old ≢ number_or_null n ∷ rest)) }
{
    match fields.next() {
        Some(ValueRef::Int(number)) => u32::try_from(number)
            .map(Some)
            .map_err(|_| StoreError::Store),
        Some(ValueRef::Null) => Ok(None),
        _ => Err(StoreError::Store),
    }
}

/// The name and the number of a row. `Store` where it has other columns.
fn named_in(rowid: i64, payload: &[u8]) -> Result<(&[u8], Option<u32>), StoreError>
    ensures read { IfOk result (λ read. table_row (rowid, payload.now) ≡ named rowid read.0.now read.1) }
    ensures refused { IfErr result (IsRefused (table_row (rowid, payload.now))) }
{
    let mut fields = Fields::new(payload);
    let name = text_in(&mut fields)?;
    let number = number_in(&mut fields)?;
    match fields.next() {
        None => Ok((name, number)),
        Some(_) => Err(StoreError::Store),
    }
}

/// Whether a number is the one that is sought, or none is.
fn is_sought(sought: Option<u32>, number: Option<u32>) -> bool
    ensures { IsTrue result ↔ IsSought sought number }
{
    match sought {
        Some(_) => number == sought,
        None => true,
    }
}

/// Takes rows up to the one of a name, and of a number where one is sought.
#[derive(Drop)]
struct Seeker<'n> {
    name: &'n [u8],
    number: Option<u32>,
    found: Option<NamedRow>,
}

impl RowSink for Seeker<'_> {
    ghost use Rattle.std.specs.Prelude.{◌≡◌, ℕ, List, Option, None};
    ghost use Rattle.page_changes.specs.Named.{AreOthers, EndsFound, IsRefused};

    type Refusal = StoreError;

    ghost Start = { List ℕ × Option ℕ };

    ghost Has = { λ start rows s. (s.name.now ≡ start.0) × (s.number ≡ start.1) × (s.found ≡ None) × AreOthers start.0 start.1 rows };

    ghost Ends = { λ start rows s. EndsFound start.0 start.1 rows s.found };

    ghost Refuses = { IsRefused };

    fn take(&mut self, rowid: i64, payload: &[u8]) -> Result<bool, StoreError> {
        let (name, number) = named_in(rowid, payload)?;
        if name != self.name {
            return Ok(true);
        }
        if !is_sought(self.number, number) {
            return Ok(true);
        }
        self.found = Some(NamedRow { rowid, number });
        Ok(false)
    }
}

/// The row of a name, and of a number where one is given, in a table of names and numbers. It reads the rows up to
/// that one. `Memory`; `Store` where a page cannot be read, or a row that is read is out of form.
pub(crate) fn find_named<D: Disk>(
    file: &mut PageFile<D>,
    alloc: Global,
    root: u32,
    name: &[u8],
    number: Option<u32>,
) -> Result<Option<NamedRow>, StoreError>
    ensures found { IsFaithful file.new → (rows : List Row) → ShowsRows file.old root rows → IfOk result (IsFound name.now number rows) }
    ensures failed { IsFaithful file.new → (rows : List Row) → ShowsRows file.old root rows → IfErr result (FailsToSeek file.old file.new rows) }
    ensures reads { OnlyReads file.old file.new }
    ensures usable { OnOk result (IsUsable file.new) }
{
    let mut seeker = Seeker {
        name,
        number,
        found: None,
    };
    match file.walk(alloc, root, i64::MIN, &mut seeker) {
        Ok(()) => Ok(seeker.found),
        Err(error) => Err(error_of_walk(error)),
    }
}
