// Why a call of a store is refused.
use std::alloc::AllocError;

/// Why a call is refused. What the store holds is as before.
#[derive(Clone, Copy, Debug, PartialEq, Eq)]
pub enum StoreError {
    /// A growth was refused.
    Memory,
    /// What keeps the store failed, or holds what is out of form.
    Store,
}

impl From<AllocError> for StoreError {
    ghost use Rattle.std.specs.Prelude.{◌≡◌};
    ghost use Rattle.plain_tables.specs.declared.errors.StoreError.TheVariants as ends;

    ghost from_gives = { λ _ end. end ≡ ends.Memory };

    fn from(_error: AllocError) -> StoreError {
        StoreError::Memory
    }
}
