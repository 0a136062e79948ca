// The records of some lines, to be handed to the pages at once.
ghost use Rattle.std.specs.Prelude.{◌<◌, ◌^◌, ◌∷◌, pos, IfErr, IfOk, OnOk, map};
ghost use Rattle.sqlite_sql.specs.Catalog.{entry_of};
ghost use Rattle.sqlite_value.specs.declared.value.Value.TheVariants.{Int};
ghost use Rattle.line_fills.specs.Causes.{HasRecord, HaveRecords, IsRefused};
ghost use Rattle.line_fills.specs.Records.{AreRecordsOf};
ghost use Rattle.line_fills.specs.Written.{HasValues};
ghost use Rattle.line_fills.specs.Rows.{ArePlacesOf, HaveRowids, entries_at};

use crate::encoder::Encoder;
use crate::lines::PageLine;
use crate::records::Records;
use crate::values::row_value;
use plain_tables::StoreError;
use std::alloc::Global;

/// Takes the columns of a line.
fn push_columns<L: PageLine>(encoder: &mut Encoder, line: &L) -> Result<(), StoreError>
    ensures taken { OnOk result (HasValues encoder.new (L.columns line.now)) }
    ensures refused { IfErr result (IsRefused (HasRecord (L.columns line.now))) }
{
    encoder.clear();
    for at in 0..line.width() {
        encoder.push(line.value(at))?;
    }
    Ok(())
}

/// Takes the entry of a line in an index of these columns.
fn push_entry<L: PageLine>(
    encoder: &mut Encoder,
    columns: &[usize],
    line: &L,
    rowid: u64,
) -> Result<(), StoreError>
    requires { rowid < 2 ^ 63 }
    ensures taken { OnOk result (HasValues encoder.new (entry_of columns.now (Int (pos rowid) ∷ L.columns line.now))) }
    ensures refused { IfErr result (IsRefused (HasRecord (entry_of columns.now (Int (pos rowid) ∷ L.columns line.now)))) }
{
    encoder.clear();
    for at in columns {
        encoder.push(row_value(line, rowid, *at))?;
    }
    encoder.push(row_value(line, rowid, 0))
}

/// The records of the columns of lines.
pub(crate) fn row_records<L: PageLine>(alloc: Global, lines: &[L]) -> Result<Records, StoreError>
    ensures made { IfOk result (AreRecordsOf (map L.columns lines.now)) }
    ensures refused { IfErr result (IsRefused (HaveRecords (map L.columns lines.now))) }
{
    let mut encoder = Encoder::new(alloc);
    let mut records = Records::new(alloc);
    for line in lines {
        push_columns(&mut encoder, line)?;
        records.push(encoder.record()?)?;
    }
    Ok(records)
}

/// The records of the entries of lines at some places, in an index of these columns. The lines are numbered from `first` on.
pub(crate) fn entry_records<L: PageLine>(
    alloc: Global,
    columns: &[usize],
    first: u64,
    lines: &[L],
    places: &[u32],
) -> Result<Records, StoreError>
    requires room { HaveRowids first lines.now }
    requires within { ArePlacesOf lines.now places.now }
    ensures made { IfOk result (AreRecordsOf (entries_at columns.now first (map L.columns lines.now) places.now)) }
    ensures refused { IfErr result (IsRefused (HaveRecords (entries_at columns.now first (map L.columns lines.now) places.now))) }
{
    let mut encoder = Encoder::new(alloc);
    let mut records = Records::new(alloc);
    for place in places {
        let line = &lines[*place as usize];
        push_entry(&mut encoder, columns, line, first + *place as u64)?;
        records.push(encoder.record()?)?;
    }
    Ok(records)
}
