// The sums with their names.
ghost use Rattle.std.specs.Prelude.{◌≡◌, ◌<◌, List, [], map, IfOk, OnOk, MatchResult};
ghost use Rattle.std.specs.List.{AllByRecursion};
ghost use Rattle.cost_reports.specs.Rows.{sum_of_row};
ghost use Rattle.cost_rows.specs.KeySums.{sums_by, sum_end};
ghost use Rattle.cost_rows.specs.Plain.{plain_cell};
ghost use Rattle.plain_tables.specs.Tables.{NameRow};
ghost use Rattle.plain_tables.specs.declared.errors.StoreError.TheVariants.{Store};
ghost use Rattle.run_stores.specs.Book.{IsHeld};
ghost use Rattle.run_stores.specs.Names.{named_cell};
ghost use Rattle.selected_runs.specs.Named.{merged_by, named_sum, AreOf};
ghost use Rattle.selected_runs.specs.Sums.{number_rows, numbers_told, numbers_total, told};

use crate::held_name;
use crate::part_sums::PartSums;
use crate::parts::NumberPart;
use crate::sums::NumberSums;
use cg_text::UNKNOWN;
use cost_reports::LentSums;
use cost_rows::{CellRow, Key};
use run_stores::{NameTable, StoreError};
use std::alloc::Global;

/// A sum as a row of event 0, with what a key tells of its part; other names are `???`, and other numbers 0.
/// `Store` where a name is not held.
pub(crate) fn named_row<'n, N: NameTable>(
    names: &'n N,
    key: Key,
    part: &NumberPart,
    cost: u128,
) -> Result<CellRow<&'n [u8]>, StoreError>
    ensures sum { IfOk result (λ row. sum_of_row (plain_cell row) ≡ named_sum (N.name_rows names.now) key (part.now, cost)) }
    ensures held { MatchResult result (λ _. AllByRecursion (IsHeld (N.name_rows names.now)) (told key part.now))
        (λ error. (error ≡ Store) × ¬ (AllByRecursion (IsHeld (N.name_rows names.now)) (told key part.now))) }
{
    let unknown = UNKNOWN;
    let (object, file, function, line, thread) = match key {
        Key::Object => (held_name(names, part.object)?, unknown, unknown, 0, 0),
        Key::File => (unknown, held_name(names, part.file)?, unknown, 0, 0),
        Key::Function => {
            let object = held_name(names, part.object)?;
            (object, unknown, held_name(names, part.function)?, 0, 0)
        }
        Key::Line => (unknown, held_name(names, part.file)?, unknown, part.line, 0),
        Key::Thread => (unknown, unknown, unknown, 0, part.thread),
    };
    Ok(CellRow {
        object,
        file,
        function,
        line,
        thread,
        event: 0,
        cost,
    })
}

/// Adds sums, by name, where nothing was added.
fn add_named<'n, N: NameTable>(
    names: &'n N,
    key: Key,
    sums: &PartSums,
    merged: &mut LentSums<'n>,
) -> Result<(), StoreError>
    requires key { merged.old.key ≡ key }
    requires none { merged.old.sums ≡ [] }
    requires small { numbers_total sums.now < sum_end }
    ensures key { merged.new.key ≡ key }
    ensures sums { OnOk result (merged.new ≡ merged_by (N.name_rows names.now) key sums.now) }
    ensures held { OnOk result (AllByRecursion (IsHeld (N.name_rows names.now)) (numbers_told key sums.now)) }
{
    for (part, cost) in sums.iter() {
        let row = named_row(names, key, part, cost)?;
        merged.add(&row)?;
    }
    Ok(())
}

/// The sums by name.
fn merge_named<'n, N: NameTable>(
    alloc: Global,
    names: &'n N,
    key: Key,
    sums: &PartSums,
) -> Result<LentSums<'n>, StoreError>
    requires small { numbers_total sums.now < sum_end }
    ensures key { IfOk result (λ merged. merged.key ≡ key) }
    ensures sums { IfOk result (λ merged. merged ≡ merged_by (N.name_rows names.now) key sums.now) }
    ensures held { IfOk result (λ _. AllByRecursion (IsHeld (N.name_rows names.now)) (numbers_told key sums.now)) }
{
    let mut merged = LentSums::new(alloc, key);
    match add_named(names, key, sums, &mut merged) {
        Ok(()) => Ok(merged),
        Err(error) => {
            // What is dropped at each way out is slow to prove.
            drop(merged);
            Err(error)
        }
    }
}

impl NumberSums {
    /// The sums by name: the names that the key tells are looked up once for each sum, and may be some of all
    /// names. Errors: `Memory`; and `Store` where a name is not held.
    pub fn named<'n, N: NameTable>(
        &self,
        alloc: Global,
        names: &'n N,
    ) -> Result<LentSums<'n>, StoreError>
        ensures key { IfOk result (λ merged. merged.key ≡ self.now.key) }
        ensures sums { IfOk result (λ merged. (all : List NameRow) → AreOf all (N.name_rows names.now)
            → merged.sums ≡ sums_by self.now.key (map (named_cell all) (number_rows self.now.sums))) }
        ensures held { IfOk result (λ _. AllByRecursion (IsHeld (N.name_rows names.now)) (numbers_told self.now.key self.now.sums)) }
    {
        merge_named(alloc, names, self.key, &self.sums)
    }
}
