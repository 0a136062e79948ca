// What a person is told of a file that is not read, is refused or is empty.
ghost use Rattle.std.specs.Prelude.{◌≡◌};
ghost use Rattle.file_reading.specs.Findings as spec;

use crate::beginnings::Beginning;
use profile_records::Kind;
use std::io::ErrorKind;

/// What is found of a file.
#[derive(Clone, Copy, Debug, PartialEq, Eq)]
pub enum Finding {
    Missing,
    /// It may not be read.
    NoRight,
    Folder,
    /// It cannot be read for another reason.
    Unread,
    Empty,
    Packed,
    Program,
    PerfData,
    /// It looks like folded stacks, and was read as a Callgrind file.
    Folded,
    /// It looks like a Callgrind file, and was read as folded stacks.
    Callgrind,
}

/// What is found where a read fails so.
pub fn unread_finding(kind: ErrorKind) -> Finding
    ensures { result ≡ spec.unread_finding kind }
{
    match kind {
        ErrorKind::NotFound | ErrorKind::NotADirectory => Finding::Missing,
        ErrorKind::PermissionDenied => Finding::NoRight,
        ErrorKind::IsADirectory => Finding::Folder,
        _ => Finding::Unread,
    }
}

/// What is found of a file of a kind that has a fault, by how it begins.
pub fn fault_finding(kind: Kind, beginning: Beginning) -> Option<Finding>
    ensures { result ≡ spec.fault_finding kind beginning }
{
    match (beginning, kind) {
        (Beginning::Packed, _) => Some(Finding::Packed),
        (Beginning::Program, _) => Some(Finding::Program),
        (Beginning::PerfData, _) => Some(Finding::PerfData),
        (Beginning::Folded, Kind::Callgrind) => Some(Finding::Folded),
        (Beginning::Callgrind, Kind::Folded) => Some(Finding::Callgrind),
        _ => None,
    }
}

/// What is found, for a person.
pub fn finding_line(finding: Finding) -> &'static str
    ensures { result.now ≡ spec.finding_text finding }
{
    match finding {
        Finding::Missing => "there is no such file",
        Finding::NoRight => "no right to read it",
        Finding::Folder => "it is a folder",
        Finding::Unread => "it cannot be read",
        Finding::Empty => "it is empty, as where a profiler was killed",
        Finding::Packed => "it is packed: unpack it first",
        Finding::Program => "it is a program or a library, and no profile",
        Finding::PerfData => "it is data of perf record: fold its stacks first",
        Finding::Folded => "it looks like folded stacks, which are imported with --folded",
        Finding::Callgrind => "it looks like a Callgrind file, which is imported without --folded",
    }
}
