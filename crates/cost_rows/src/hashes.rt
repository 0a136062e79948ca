// Hashes of names (specs/Hashes.antt).
ghost use Rattle.std.specs.Prelude.{◌≡◌};
ghost use Rattle.cost_rows.specs.Hashes as spec;

/// An odd number whose multiples are spread well: 2^64 by the golden ratio.
pub(crate) const ODD: u64 = 0x9e37_79b9_7f4a_7c15;

/// A number that tells most names apart. A file may choose names of which it is the same.
pub(crate) fn hash_of(name: &[u8]) -> u64
    ensures { result ≡ spec.hash_of name.now }
{
    let mut hash = 0u64;
    for byte in name {
        hash = hash.wrapping_mul(ODD).wrapping_add(u64::from(*byte));
    }
    hash
}
