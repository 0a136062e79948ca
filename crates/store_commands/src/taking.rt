// A file is imported.
ghost use Rattle.std.specs.Bool.{⊤};
ghost use Rattle.std.specs.Prelude.{◌≡◌, List, MatchOption, IfOk};
ghost use Rattle.std.specs.Result.{is_ok};
ghost use Rattle.std.specs.Str.{IsUtf8};
ghost use Rattle.cost_rows.specs.Rows.{content_of};
ghost use Rattle.plain_tables.specs.Labels.{IsLabel};
ghost use Rattle.run_stores.specs.Calls.{IsFaithful, Asks, KeepsShut, Made, Represents, Told};
ghost use Rattle.byte_io.specs.Outcomes.{Outcome, bytes_of};
ghost use Rattle.histories.specs.Formats.{today};
ghost use Rattle.histories.specs.History.{History, Import};
ghost use Rattle.histories.specs.Sums as sums;
ghost use Rattle.histories.specs.Answered.{RepresentsHistory, WasExpected, StepsToIf, has_changed};
ghost use Rattle.store_commands.specs.FromTables.{IsAdmitted, IsExcess, IsNumber, IsImported};
ghost use Rattle.file_reading.specs.FileParsers.{IsParsedOf};
ghost use Rattle.byte_io.specs.Reads.{HasEnded};

use cg_text::ListVec;
use cost_rows::{Overflow, Side, admit};
use file_reading::ParsedFile;
use histories::{Answer, Excess, Limits, Refusal};
use profile_records::Kind;
use run_stores::{RunStore, StoreError, SummedFile, is_label};
use std::alloc::{AllocError, Global};

/// What would pass its bound, by the name of its event.
fn excess_of(
    alloc: Global,
    events: &[ListVec<u8>],
    overflow: Overflow,
) -> Result<Excess, AllocError>
    ensures { IfOk result (λ excess. excess ≡ sums.excess_at events.now overflow) }
{
    let event = match events.get(overflow.column) {
        Some(event) => event.as_slice(),
        None => &[],
    };
    match overflow.side {
        Side::SelfCost => {
            let name = Vec::from_slice(alloc, event)?;
            Ok(Excess::SelfCost(ListVec::from_vec(name)))
        }
        Side::CallCost => {
            let name = Vec::from_slice(alloc, event)?;
            Ok(Excess::CallCost(ListVec::from_vec(name)))
        }
        Side::CallCount => Ok(Excess::CallCount),
    }
}

/// The label that bytes are, if they are in form.
pub fn label_of(bytes: &[u8]) -> Option<&str>
    ensures { MatchOption result (IsUtf8 bytes.now × IsLabel bytes.now → ⊥) (λ label. (label.now ≡ bytes.now) × IsUtf8 bytes.now × IsLabel bytes.now) }
{
    match str::from_utf8(bytes) {
        Ok(label) => { if is_label(label) { Some(label) } else { None } }
        Err(_) => None,
    }
}

/// What would pass its bound with a file's sums beside those that are held.
fn excess_with<S: RunStore>(
    store: &mut S,
    alloc: Global,
    file: &SummedFile<'_>,
) -> Result<Option<Excess>, StoreError>
    ensures told { Told S.StoreState result store.old store.new (IsExcess file.now.head.now (content_of file.now.rows.now)) }
    ensures asks { Asks S.StoreState (is_ok result) store.old store.new }
{
    let totals = store.totals_of(alloc, file.head.events.as_slice())?;
    match admit(&totals, &file.totals) {
        Ok(()) => Ok(None),
        Err(overflow) => {
            let excess = excess_of(alloc, file.head.events.as_slice(), overflow)?;
            Ok(Some(excess))
        }
    }
}

/// The number under which a file is inserted that has no fault and is not held, or why there is no room for it.
fn number_for<S: RunStore>(
    store: &mut S,
    alloc: Global,
    limits: Limits,
    file: &SummedFile<'_>,
) -> Result<Result<u32, Refusal>, StoreError>
    ensures told { Told S.StoreState result store.old store.new (IsNumber limits file.now.head.now (content_of file.now.rows.now)) }
    ensures asks { Asks S.StoreState (is_ok result) store.old store.new }
{
    if let Some(excess) = excess_with(store, alloc, file)? {
        return Ok(Err(Refusal::Overflow(excess)));
    }
    if store.run_count()? >= u64::from(limits.runs) {
        return Ok(Err(Refusal::Full));
    }
    let number = store.next_run()?;
    if number >= limits.numbers {
        return Ok(Err(Refusal::NumbersSpent));
    }
    Ok(Ok(number))
}

/// What a file that was read to its end is answered where nothing is to change: it is held, it has a fault, or there is no
/// room for it. Else the number under which it is to be inserted, and the file with its sums.
fn admitted<'a, S: RunStore>(
    store: &mut S,
    alloc: Global,
    limits: Limits,
    parsed: &'a ParsedFile,
) -> Result<Result<(u32, SummedFile<'a>), Answer>, StoreError>
    ensures told { Told S.StoreState result store.old store.new (IsAdmitted limits parsed.now) }
    ensures asks { Asks S.StoreState (is_ok result) store.old store.new }
{
    if let Some(number) = store.run_of_digest(&parsed.digest)? {
        return Ok(Err(Answer::Held(number)));
    }
    match &parsed.file {
        Ok((head, rows)) => {
            let file = SummedFile::of(alloc, head, rows)?;
            // (`file` is dropped in each arm: faster to prove than by `?` and at the end)
            match number_for(store, alloc, limits, &file) {
                Ok(Ok(number)) => Ok(Ok((number, file))),
                Ok(Err(refusal)) => {
                    drop(file);
                    Ok(Err(Answer::Refused(refusal)))
                }
                Err(failure) => {
                    drop(file);
                    Err(failure)
                }
            }
        }
        Err((fault, line)) => Ok(Err(Answer::Refused(Refusal::File(*fault, *line)))),
    }
}

/// Imports a file that was read to its end.
pub fn import_parsed<S: RunStore>(
    store: &mut S,
    alloc: Global,
    limits: Limits,
    kind: Kind,
    label: &str,
    parsed: &ParsedFile,
) -> Result<Answer, StoreError>
    requires { IsLabel label.now }
    ensures answered { IsFaithful S.StoreState store.new → (h : History) (outcomes : List Outcome) → RepresentsHistory S.StoreState h store.old
        → HasEnded limits.bytes outcomes → IsParsedOf kind (bytes_of outcomes) parsed.now
        → IfOk result (λ answer. WasExpected S.StoreState limits h (Import (today kind) label.now outcomes) answer store.new) }
    ensures told { Told S.StoreState result store.old store.new (IsImported limits kind label.now parsed.now (λ _. ⊤)) }
    ensures made { Made S.StoreState result store.old store.new (IsImported limits kind label.now parsed.now (λ left. Represents S.StoreState left store.new)) }
    ensures steps { (outcomes : List Outcome) → HasEnded limits.bytes outcomes → IsParsedOf kind (bytes_of outcomes) parsed.now
        → StepsToIf S.StoreState limits (Import (today kind) label.now outcomes) (is_ok result) (has_changed result) store.old store.new }
    ensures shut { KeepsShut S.StoreState store.old store.new }
{
    match admitted(store, alloc, limits, parsed)? {
        Ok((number, file)) => {
            let put = store.put_run(alloc, number, kind, &parsed.digest, label, &file);
            // (faster to prove than at the end)
            drop(file);
            put?;
            Ok(Answer::Run(number))
        }
        Err(answer) => Ok(answer),
    }
}
