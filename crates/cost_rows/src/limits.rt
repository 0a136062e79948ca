// Whether a file fits beside what is held.
ghost use Rattle.std.specs.Prelude.{◌≡◌, ℕ, ◌+◌, ◌<◌, ◌≤◌, ◌^◌, length, MatchResult, IsTrue, ◌↔◌, IfSome, IfNone, None, Some};
ghost use Rattle.cost_rows.specs.Admit.{bound, column_sums, first_above, overflow_of};

use crate::rows::FileTotals;

/// No sum of costs or counts that is kept may be greater.
const SUM_LIMIT: u128 = (1 << 63) - 1;

/// What a sum is of: self costs, costs of calls, or the number of calls.
#[derive(Clone, Copy, Debug, PartialEq, Eq)]
pub enum Side {
    SelfCost,
    CallCost,
    CallCount,
}

/// A sum that would pass `SUM_LIMIT`: what it is of, and its column from 0, which is 0 for the
/// number of calls.
#[derive(Clone, Copy, Debug, PartialEq, Eq)]
pub struct Overflow {
    pub side: Side,
    pub column: usize,
}

/// Whether two numbers add up to more than `SUM_LIMIT`.
fn passes(held: u128, file: u128) -> bool
    ensures { IsTrue result ↔ (bound < held + file) }
{
    held.saturating_add(file) > SUM_LIMIT
}

/// The first column whose sum passes `SUM_LIMIT`.
fn first_overflow(side: Side, held: &[u128], file: &[u128]) -> Option<Overflow>
    requires { length held.now ≡ length file.now }
    ensures { result ≡ first_above (column_sums side 0 held.now file.now) }
{
    for (column, sum) in held.iter().enumerate() {
        if passes(*sum, file[column]) {
            return Some(Overflow { side, column });
        }
    }
    None
}

/// Whether the sums of a file fit beside those that are held: refused exactly where a sum passes
/// `SUM_LIMIT`, and then the first is named, self costs by column first, then costs of calls by
/// column, then the number of calls. Takes no memory.
pub fn admit(held: &FileTotals, file: &FileTotals) -> Result<(), Overflow>
    requires self_cost { length held.now.self_cost ≡ length file.now.self_cost }
    requires call_cost { length held.now.call_cost ≡ length file.now.call_cost }
    ensures { MatchResult result (λ _. overflow_of held.now file.now ≡ None) (λ o. overflow_of held.now file.now ≡ Some o) }
{
    if let Some(overflow) = first_overflow(
        Side::SelfCost,
        held.self_cost.as_slice(),
        file.self_cost.as_slice(),
    ) {
        return Err(overflow);
    }
    if let Some(overflow) = first_overflow(
        Side::CallCost,
        held.call_cost.as_slice(),
        file.call_cost.as_slice(),
    ) {
        return Err(overflow);
    }
    if passes(held.call_count, file.call_count) {
        return Err(Overflow {
            side: Side::CallCount,
            column: 0,
        });
    }
    Ok(())
}
