// What is left of the sums that the small tables say of a run, while its rows are taken off them.
ghost use Rattle.std.specs.Prelude.{◌≡◌, ◌==◌, ◌+◌, ◌<◌, ◌↔◌, ℕ, if◌then◌else◌, slice_index, IsTrue, IfErr, OnOk};

use plain_tables::StoreError;

/// Takes an amount off what is left of its part. `Store` where so much is not left: nothing is left of a part that the
/// small tables do not say.
pub(crate) fn take_off(left: &mut [u64], part: u32, amount: u64) -> Result<(), StoreError>
    ensures taken { OnOk result ((k : ℕ) → slice_index left.old k ≡ (if part == k then amount else 0) + slice_index left.new k) }
    ensures refused { IfErr result (λ _. slice_index left.old part < amount) }
{
    let part = part as usize;
    if part >= left.len() {
        return if amount == 0 {
            Ok(())
        } else {
            Err(StoreError::Store)
        };
    }
    match left[part].checked_sub(amount) {
        Some(rest) => left[part] = rest,
        None => return Err(StoreError::Store),
    }
    Ok(())
}

/// Whether nothing is left of any part.
pub(crate) fn is_nothing(left: &[u64]) -> bool
    ensures { IsTrue result ↔ ((k : ℕ) → slice_index left.now k ≡ 0) }
{
    left.iter().all(|rest| *rest == 0)
}
