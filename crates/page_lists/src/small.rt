// The rows of the small tables, and of the names.
ghost use Rattle.std.specs.Prelude.{◌≡◌, ◌≢◌, ◌<◌, ◌^◌, pos, IfErr, IfOk};
ghost use Rattle.sqlite_value.specs.declared.value.Value.TheVariants.{Int};

use crate::fields::{
    copied_in, digest_in, end_of, key_in, kind_in, label_in, number_in, number_or_null_in, sum_in,
    text_in, text_or_null_in,
};
use crate::records::FromRecord;
use plain_tables::StoreError;
use prof_store::OutOfForm;
use run_lists::{ListedCoef, ListedDerived, ListedEvent, ListedGroup, ListedMember, ListedRun};
use run_stores::RunEntry;
use sqlite_record::fields::Fields;
use std::alloc::Global;

/// A rowid that is a key: a whole number from 0 on, below 2^32.
pub(crate) fn key_of(rowid: i64) -> Result<u32, OutOfForm>
    ensures read { IfOk result (λ n. rowid ≡ pos n) }
    ensures refused { IfErr result (λ _. (n : _) → n < 2 ^ 32 → rowid ≢ pos n) }
{
    u32::try_from(rowid).map_err(|_| OutOfForm)
}

/// The row of `meta`: the number of the schema, and that which the next run gets.
#[derive(Drop)]
pub(crate) struct Meta {
    pub schema: u32,
    pub next: u32,
}

impl FromRecord for Meta {
    ghost use Rattle.std.specs.Prelude.{◌∷◌, []};
    ghost use Rattle.sqlite_value.specs.declared.value.Value.TheVariants.{Null};
    ghost use Rattle.prof_store.specs.Tables.{number};

    ghost seen = { λ row. row };

    ghost columns = { λ m. number 1 ∷ Null ∷ number m.schema ∷ number m.next ∷ [] };

    ghost IsRead = { λ _. ⊥ };

    fn from_record(_alloc: Global, rowid: i64, payload: &[u8]) -> Result<Meta, StoreError> {
        if rowid != 1 {
            return Err(StoreError::Store);
        }
        let mut fields = Fields::new(payload);
        key_in(&mut fields)?;
        let schema = number_in(&mut fields)?;
        let next = number_in(&mut fields)?;
        end_of(&mut fields)?;
        Ok(Meta { schema, next })
    }
}

impl FromRecord for ListedRun {
    ghost use Rattle.run_lists.specs.Listed.{run_row};
    ghost use Rattle.prof_store.specs.Tables.{run_columns};

    ghost seen = { λ row. row };

    ghost columns = { λ r. run_columns (run_row r) };

    ghost IsRead = { λ _. ⊥ };

    fn from_record(alloc: Global, rowid: i64, payload: &[u8]) -> Result<ListedRun, StoreError> {
        let number = key_of(rowid)?;
        let mut fields = Fields::new(payload);
        key_in(&mut fields)?;
        let kind = kind_in(&mut fields)?;
        let digest = digest_in(&mut fields)?;
        let label = label_in(alloc, &mut fields)?;
        let call_count = sum_in(&mut fields)?;
        end_of(&mut fields)?;
        let entry = RunEntry {
            number,
            kind,
            digest,
            label,
        };
        Ok(ListedRun { entry, call_count })
    }
}

impl FromRecord for ListedEvent {
    ghost use Rattle.std.specs.Prelude.{drop};
    ghost use Rattle.run_lists.specs.Listed.{event_row};
    ghost use Rattle.prof_store.specs.Tables.{event_columns};

    ghost seen = { drop 1 };

    ghost columns = { λ e. event_columns (event_row e) };

    ghost IsRead = { λ _. ⊥ };

    fn from_record(alloc: Global, _rowid: i64, payload: &[u8]) -> Result<ListedEvent, StoreError> {
        let mut fields = Fields::new(payload);
        let run = number_in(&mut fields)?;
        let place = number_in(&mut fields)?;
        let name = copied_in(alloc, &mut fields)?;
        let self_cost = sum_in(&mut fields)?;
        let call_cost = sum_in(&mut fields)?;
        let stated = text_or_null_in(alloc, &mut fields)?;
        end_of(&mut fields)?;
        Ok(ListedEvent {
            run,
            place,
            name,
            self_cost,
            call_cost,
            stated,
        })
    }
}

impl FromRecord for ListedDerived {
    ghost use Rattle.std.specs.Prelude.{drop};
    ghost use Rattle.run_lists.specs.Listed.{derived_row};
    ghost use Rattle.prof_store.specs.Tables.{derived_columns};

    ghost seen = { drop 1 };

    ghost columns = { λ d. derived_columns (derived_row d) };

    ghost IsRead = { λ _. ⊥ };

    fn from_record(
        alloc: Global,
        _rowid: i64,
        payload: &[u8],
    ) -> Result<ListedDerived, StoreError> {
        let mut fields = Fields::new(payload);
        let run = number_in(&mut fields)?;
        let place = number_in(&mut fields)?;
        let name = copied_in(alloc, &mut fields)?;
        end_of(&mut fields)?;
        Ok(ListedDerived { run, place, name })
    }
}

impl FromRecord for ListedCoef {
    ghost use Rattle.std.specs.Prelude.{drop};
    ghost use Rattle.run_lists.specs.Listed.{coef_row};
    ghost use Rattle.prof_store.specs.Tables.{coef_columns};

    ghost seen = { drop 1 };

    ghost columns = { λ c. coef_columns (coef_row c) };

    ghost IsRead = { λ _. ⊥ };

    fn from_record(_alloc: Global, _rowid: i64, payload: &[u8]) -> Result<ListedCoef, StoreError> {
        let mut fields = Fields::new(payload);
        let run = number_in(&mut fields)?;
        let place = number_in(&mut fields)?;
        let event = number_in(&mut fields)?;
        let times = sum_in(&mut fields)?;
        end_of(&mut fields)?;
        Ok(ListedCoef {
            run,
            place,
            event,
            times,
        })
    }
}

impl FromRecord for ListedGroup {
    ghost use Rattle.std.specs.Prelude.{drop};
    ghost use Rattle.run_lists.specs.Listed.{group_row};
    ghost use Rattle.prof_store.specs.Tables.{group_columns};

    ghost seen = { drop 1 };

    ghost columns = { λ g. group_columns (group_row g) };

    ghost IsRead = { λ _. ⊥ };

    fn from_record(alloc: Global, _rowid: i64, payload: &[u8]) -> Result<ListedGroup, StoreError> {
        let mut fields = Fields::new(payload);
        let name = text_in(alloc, &mut fields)?;
        let baseline = number_or_null_in(&mut fields)?;
        end_of(&mut fields)?;
        Ok(ListedGroup { name, baseline })
    }
}

impl FromRecord for ListedMember {
    ghost use Rattle.std.specs.Prelude.{drop};
    ghost use Rattle.run_lists.specs.Listed.{member_row};
    ghost use Rattle.prof_store.specs.Tables.{member_columns};

    ghost seen = { drop 1 };

    ghost columns = { λ m. member_columns (member_row m) };

    ghost IsRead = { λ _. ⊥ };

    fn from_record(alloc: Global, _rowid: i64, payload: &[u8]) -> Result<ListedMember, StoreError> {
        let mut fields = Fields::new(payload);
        let group = text_in(alloc, &mut fields)?;
        let run = number_in(&mut fields)?;
        end_of(&mut fields)?;
        Ok(ListedMember { group, run })
    }
}
