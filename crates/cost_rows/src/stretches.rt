// Stretches of sums in one list.
ghost use Rattle.std.specs.Prelude.{◌≡◌, ◌≤◌, ◌++◌, OnOk, IfOk, length, slice_index, take, drop};
ghost use Rattle.profile_records.specs.Columns.{added, HaveRoom};
ghost use Rattle.cost_rows.specs.Stretches.{sums_at, IsWithin, AreRaised};

use std::alloc::AllocError;

/// Where the sums of a key stand among those of all keys. Of all together there are at most 2^32.
#[derive(Clone, Copy)]
pub(crate) struct Stretch {
    start: u32,
    len: u32,
}

/// The sum in a slot, 0 where there is no such slot.
pub(crate) fn sum_in(sums: &[u128], slot: usize) -> u128
    ensures { result ≡ slice_index sums.now slot }
{
    sums.get(slot).copied().unwrap_or(0)
}

impl Stretch {
    /// The stretch of no sums.
    pub(crate) fn empty() -> Stretch
        ensures start { result.start ≡ 0 }
        ensures len { result.len ≡ 0 }
    {
        Stretch { start: 0, len: 0 }
    }

    /// So many sums from a place on.
    fn new(start: usize, len: usize) -> Result<Stretch, AllocError>
        ensures { IfOk result (λ s. (s.start ≡ start) × (s.len ≡ len)) }
    {
        match (u32::try_from(start), u32::try_from(len)) {
            (Ok(start), Ok(len)) => Ok(Stretch { start, len }),
            _ => Err(AllocError),
        }
    }

    /// How many sums there are.
    pub(crate) fn len(self) -> usize
        ensures { result ≡ self.len }
    {
        self.len as usize
    }

    /// The sums.
    pub(crate) fn of(self, sums: &[u128]) -> &[u128]
        ensures { result.now ≡ sums_at sums.now self }
    {
        let behind = &sums[(self.start as usize).min(sums.len())..];
        &behind[..self.len().min(behind.len())]
    }
}

/// Adds costs to the first sums, of which there are as many or more.
fn raise_each(sums: &mut [u128], costs: &[u64])
    requires wide { length costs.now ≤ length sums.old }
    requires small { HaveRoom sums.old }
    ensures same { length sums.new ≡ length sums.old }
    ensures sums { sums.new ≡ added sums.old costs.now }
{
    for (k, cost) in costs.iter().enumerate() {
        sums[k] += u128::from(*cost);
    }
}

/// Adds costs to the first sums of a stretch, which has as many or more.
pub(crate) fn raise_at(sums: &mut [u128], held: Stretch, costs: &[u64])
    requires within { IsWithin (length sums.old) held }
    requires wide { length costs.now ≤ held.len }
    requires small { HaveRoom (sums_at sums.old held) }
    ensures { AreRaised held costs.now sums.old sums.new }
{
    let start = held.start as usize;
    raise_each(&mut sums[start..start + held.len()], costs);
}

/// Puts the sums of a stretch, with costs added, behind all others. A refusal leaves these.
pub(crate) fn put_behind(
    sums: &mut Vec<u128>,
    held: Stretch,
    costs: &[u64],
) -> Result<Stretch, AllocError>
    requires within { IsWithin (length sums.old.items) held }
    requires short { held.len ≤ length costs.now }
    requires small { HaveRoom (sums_at sums.old.items held) }
    ensures sums { OnOk result (sums.new.items ≡ sums.old.items ++ added (sums_at sums.old.items held) costs.now) }
    ensures stretch { IfOk result (λ s. (s.start ≡ length sums.old.items) × (s.len ≡ length (added (sums_at sums.old.items held) costs.now))) }
    ensures others { take (length sums.old.items) sums.new.items ≡ sums.old.items }
{
    let stretch = Stretch::new(sums.len(), costs.len())?;
    for (k, cost) in costs.iter().enumerate() {
        let sum = sum_in(held.of(sums.as_slice()), k);
        sums.push(sum + u128::from(*cost))?;
    }
    Ok(stretch)
}
