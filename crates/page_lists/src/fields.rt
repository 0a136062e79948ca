// The values of a record, one after another. A value that the type does not show is refused.
ghost use Rattle.std.specs.Prelude.{◌≡◌, ◌≢◌, ◌∷◌, [], string_bytes, option_map, IfErr, IfOk, OnOk};
ghost use Rattle.sqlite_record.specs.Fields.{fields_left};
ghost use Rattle.sqlite_value.specs.declared.value.Value.TheVariants.{Null, Text, Blob};
ghost use Rattle.sqlite_value.specs.Order.{Row};
ghost use Rattle.plain_tables.specs.Labels.{IsLabel};
ghost use Rattle.profile_records.specs.Kinds.{kind_number};
ghost use Rattle.prof_store.specs.Tables.{number, number_or_null, text_or_null};

use prof_store::{ColumnInt, OutOfForm, StoreError, is_label};
use profile_records::Kind;
use sqlite_record::fields::Fields;
use sqlite_value::value::ValueRef;
use std::alloc::Global;

/// A whole number from 0 on, below 2^32.
pub fn number_in(fields: &mut Fields<'_>) -> Result<u32, OutOfForm>
    ensures { IfOk result (λ n. fields_left fields.old ≡ number n ∷ fields_left fields.new) }
{
    match fields.next() {
        Some(ValueRef::Int(number)) => u32::try_from(number).map_err(|_| OutOfForm),
        _ => Err(OutOfForm),
    }
}

/// The same, or NULL.
pub(crate) fn number_or_null_in(fields: &mut Fields<'_>) -> Result<Option<u32>, OutOfForm>
    ensures { IfOk result (λ n. fields_left fields.old ≡ number_or_null n ∷ fields_left fields.new) }
{
    match fields.next() {
        Some(ValueRef::Int(number)) => u32::try_from(number).map(Some).map_err(|_| OutOfForm),
        Some(ValueRef::Null) => Ok(None),
        _ => Err(OutOfForm),
    }
}

/// A whole number from 0 on.
pub(crate) fn sum_in(fields: &mut Fields<'_>) -> Result<u64, OutOfForm>
    ensures { IfOk result (λ n. fields_left fields.old ≡ number n ∷ fields_left fields.new) }
{
    match fields.next() {
        Some(ValueRef::Int(number)) => u64::try_from(number).map_err(|_| OutOfForm),
        _ => Err(OutOfForm),
    }
}

/// The same, as a number that a column can hold.
pub fn whole_in(fields: &mut Fields<'_>) -> Result<ColumnInt, OutOfForm>
    ensures { IfOk result (λ n. fields_left fields.old ≡ number n ∷ fields_left fields.new) }
{
    ColumnInt::of(sum_in(fields)?).ok_or(OutOfForm)
}

/// Bytes, where they lie.
pub(crate) fn bytes_in<'a>(fields: &mut Fields<'a>) -> Result<&'a [u8], OutOfForm>
    ensures read { IfOk result (λ bytes. fields_left fields.old ≡ Blob bytes.now ∷ fields_left fields.new) }
    ensures refused { IfErr result (λ _. (bytes : _) (rest : Row) → fields_left fields.old ≢ Blob bytes ∷ rest) }
{
    match fields.next() {
        Some(ValueRef::Blob(bytes)) => Ok(bytes),
        _ => Err(OutOfForm),
    }
}

/// A copy of bytes.
pub fn copied_in(alloc: Global, fields: &mut Fields<'_>) -> Result<Vec<u8>, StoreError>
    ensures { IfOk result (λ bytes. fields_left fields.old ≡ Blob bytes.items ∷ fields_left fields.new) }
{
    match bytes_in(fields)?.to_vec(alloc) {
        Ok(copy) => Ok(copy),
        Err(_) => Err(StoreError::Memory),
    }
}

/// A copy of a text.
fn text_of(alloc: Global, bytes: &[u8]) -> Result<String, StoreError>
    ensures { IfOk result (λ text. string_bytes text ≡ bytes.now) }
{
    let Ok(copy) = bytes.to_vec(alloc) else {
        return Err(StoreError::Memory);
    };
    match String::from_utf8(copy) {
        Ok(text) => Ok(text),
        Err(_) => Err(StoreError::Store),
    }
}

/// A text.
pub(crate) fn text_in(alloc: Global, fields: &mut Fields<'_>) -> Result<String, StoreError>
    ensures { IfOk result (λ text. fields_left fields.old ≡ Text (string_bytes text) ∷ fields_left fields.new) }
{
    match fields.next() {
        Some(ValueRef::Text(bytes)) => text_of(alloc, bytes),
        _ => Err(StoreError::Store),
    }
}

/// The same, or NULL.
pub(crate) fn text_or_null_in(
    alloc: Global,
    fields: &mut Fields<'_>,
) -> Result<Option<String>, StoreError>
    ensures { IfOk result (λ text. fields_left fields.old ≡ text_or_null (option_map string_bytes text) ∷ fields_left fields.new) }
{
    match fields.next() {
        Some(ValueRef::Text(bytes)) => Ok(Some(text_of(alloc, bytes)?)),
        Some(ValueRef::Null) => Ok(None),
        _ => Err(StoreError::Store),
    }
}

/// The column of a key that is the rowid, which is empty.
pub(crate) fn key_in(fields: &mut Fields<'_>) -> Result<(), OutOfForm>
    ensures read { OnOk result (fields_left fields.old ≡ Null ∷ fields_left fields.new) }
    ensures refused { IfErr result (λ _. (rest : Row) → fields_left fields.old ≢ Null ∷ rest) }
{
    match fields.next() {
        Some(ValueRef::Null) => Ok(()),
        _ => Err(OutOfForm),
    }
}

/// A kind of profiles, by its number.
pub(crate) fn kind_in(fields: &mut Fields<'_>) -> Result<Kind, OutOfForm>
    ensures { IfOk result (λ kind. fields_left fields.old ≡ number (kind_number kind) ∷ fields_left fields.new) }
{
    match number_in(fields)? {
        1 => Ok(Kind::Callgrind),
        2 => Ok(Kind::Folded),
        _ => Err(OutOfForm),
    }
}

/// A digest.
pub(crate) fn digest_in(fields: &mut Fields<'_>) -> Result<[u8; 32], OutOfForm>
    ensures { IfOk result (λ digest. fields_left fields.old ≡ Blob digest ∷ fields_left fields.new) }
{
    match <[u8; 32]>::try_from(bytes_in(fields)?) {
        Ok(digest) => Ok(digest),
        Err(_) => Err(OutOfForm),
    }
}

/// A label in form.
pub(crate) fn label_in(alloc: Global, fields: &mut Fields<'_>) -> Result<String, StoreError>
    ensures read { IfOk result (λ label. fields_left fields.old ≡ Text (string_bytes label) ∷ fields_left fields.new) }
    ensures form { IfOk result (λ label. IsLabel (string_bytes label)) }
{
    let label = text_in(alloc, fields)?;
    if is_label(label.as_str()) {
        Ok(label)
    } else {
        Err(StoreError::Store)
    }
}

/// Refuses a record that has more values.
pub fn end_of(fields: &mut Fields<'_>) -> Result<(), OutOfForm>
    ensures read { OnOk result (fields_left fields.old ≡ []) }
    ensures refused { IfErr result (λ _. fields_left fields.old ≢ []) }
{
    match fields.next() {
        None => Ok(()),
        Some(_) => Err(OutOfForm),
    }
}
