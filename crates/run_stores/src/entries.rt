// The entries of reports.
ghost use Rattle.std.specs.Prelude.{string_bytes, length, ◌<◌};
ghost use Rattle.std.specs.List.{AllAdjacentBelow};
ghost use Rattle.plain_tables.specs.Labels.{IsLabel, IsGroupName};

use cg_text::ListVec;
use profile_records::Kind;

/// A run that is held.
#[derive(Drop)]
pub struct RunEntry {
    pub number: u32,
    pub kind: Kind,
    pub digest: [u8; 32],
    pub label: String,
    ghost form: { IsLabel (string_bytes label) },
}

/// A group with its baseline, if it has one, and the numbers of its members, which rise.
#[derive(Drop)]
pub struct GroupEntry {
    pub name: String,
    pub baseline: Option<u32>,
    pub members: ListVec<u32>,
    ghost form: { IsGroupName (string_bytes name) },
    ghost rising: { AllAdjacentBelow (λ a b. a < b) members (length members) },
}
