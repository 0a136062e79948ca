// Names that have to be held.
ghost use Rattle.std.specs.Prelude.{◌≡◌, MatchResult};
ghost use Rattle.plain_tables.specs.declared.errors.StoreError.TheVariants.{Store};
ghost use Rattle.run_stores.specs.Book.{name_of, IsHeld};

use run_stores::{NameTable, StoreError};

/// The name of a number. `Store` where it is not held.
pub fn held_name<N: NameTable>(names: &N, number: u32) -> Result<&[u8], StoreError>
    ensures { MatchResult result (λ name. IsHeld (N.name_rows names.now) number × (name.now ≡ name_of (N.name_rows names.now) number))
        (λ error. (error ≡ Store) × ¬ (IsHeld (N.name_rows names.now) number)) }
{
    names.name(number).ok_or(StoreError::Store)
}
