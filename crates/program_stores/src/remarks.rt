// What a person is told of the files that commands read (specs/Remarks.antt).
ghost use Rattle.std.specs.Prelude.{◌≡◌};
ghost use Rattle.requests.specs.Plain.{plain_request};
ghost use Rattle.program_stores.specs.Remarks as spec;

use command_line::WordsCommand;
use file_reading::{Beginning, Finding, SeenFile, fault_finding, unread_finding};
use histories::{Answer, Refusal};
use profile_records::Kind;
use requests::Command;
use std::io::ErrorKind;
use std::rt::Files;

/// What was found of the file at a path.
#[derive(Clone, Copy)]
pub struct Remark<'a> {
    pub path: &'a str,
    pub finding: Finding,
}

/// What was found of a file of a kind that was imported with this answer, by how it begins and why a read of it failed.
fn imported_finding(
    kind: Kind,
    answer: &Answer,
    beginning: Option<Beginning>,
    failed: Option<ErrorKind>,
) -> Option<Finding>
    ensures { result ≡ spec.imported_finding kind answer.now beginning failed }
{
    match (answer, beginning, failed) {
        (Answer::Refused(Refusal::ReadFault), _, Some(kind)) => Some(unread_finding(kind)),
        (Answer::Refused(Refusal::File(..)), Some(beginning), _) => fault_finding(kind, beginning),
        (Answer::Run(_) | Answer::Held(_), Some(Beginning::Empty), _) => Some(Finding::Empty),
        _ => None,
    }
}

/// What was found of a source that was annotated with this answer, by why a read of it failed.
fn source_finding(answer: &Answer, failed: Option<ErrorKind>) -> Option<Finding>
    ensures { result ≡ spec.source_finding answer.now failed }
{
    match (answer, failed) {
        (Answer::Refused(Refusal::ReadFault), Some(kind)) => Some(unread_finding(kind)),
        _ => None,
    }
}

/// What was found of the file that a command reads, which is answered so.
fn finding_of(
    command: &WordsCommand<'_>,
    answer: &Answer,
    beginning: Option<Beginning>,
    failed: Option<ErrorKind>,
) -> Option<Finding>
    ensures { result ≡ spec.finding_of (plain_request command.now) answer.now beginning failed }
{
    match command {
        Command::Import { kind, .. } => imported_finding(*kind, answer, beginning, failed),
        Command::Annotate { .. } => source_finding(answer, failed),
        _ => None,
    }
}

/// Keeps what was found of the file that a command reads, which is answered so, if there is memory for it. No guarantee: no
/// answer depends on it, and `finding_of` says what is found.
pub(crate) fn keep_remark<'a, R: Files>(
    remarks: &mut Vec<Remark<'a>>,
    path: &'a str,
    command: &WordsCommand<'a>,
    answer: &Answer,
    file: &SeenFile<'_, R>,
) {
    if let Some(finding) = finding_of(command, answer, file.beginning(), file.failed()) {
        let _kept = remarks.push(Remark { path, finding });
    }
}
