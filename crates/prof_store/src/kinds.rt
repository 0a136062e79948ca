// The kinds of runs.
ghost use Rattle.std.specs.Prelude.{◌≡◌};
ghost use Rattle.profile_records.specs.Kinds.{kind_number};

use profile_records::Kind;

/// The number of a kind in the tables.
pub fn number_of_kind(kind: Kind) -> u32
    ensures { result ≡ kind_number kind }
{
    match kind {
        Kind::Callgrind => 1,
        Kind::Folded => 2,
    }
}
