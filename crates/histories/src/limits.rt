// How much a warehouse takes.
ghost use Rattle.std.specs.Prelude.{◌≡◌, ◌≤◌, ◌*◌, ◌^◌};

/// How long a file may be, how many runs and groups may be held, and the number that no run gets,
/// nor any above it.
#[derive(Clone, Copy, Debug, PartialEq, Eq)]
pub struct Limits {
    pub bytes: u64,
    pub runs: u32,
    pub groups: u32,
    pub numbers: u32,
    ghost bytes_fit: { bytes ≤ 2 ^ 30 },
    ghost runs_fit: { runs ≤ 1000000 },
    ghost groups_fit: { groups ≤ 100000 },
    ghost numbers_fit: { numbers ≤ 2 ^ 31 },
}

impl Limits {
    /// The limits that the program has, and no others are above: a gibibyte, a million runs, a
    /// hundred thousand groups, and numbers below 2^31.
    pub fn standard() -> Limits
        ensures bytes { result.bytes ≡ 2 ^ 30 }
        ensures runs { result.runs ≡ 1000000 }
        ensures groups { result.groups ≡ 100000 }
        ensures numbers { result.numbers ≡ 2 ^ 31 }
    {
        Limits {
            bytes: 1 << 30,
            runs: 1_000_000,
            groups: 100_000,
            numbers: 1 << 31,
        }
    }
}
