// The texts of lists.
ghost use Rattle.std.specs.Prelude.{◌≡◌, ◌++◌, flat_map, codes, string_bytes, IfOk, OnOk};
ghost use Rattle.std.specs.Result.{is_ok};
ghost use Rattle.hex.specs.Hex.{encode_lower};
ghost use Rattle.run_stores.specs.Calls.{Asks, Told};
ghost use Rattle.histories.specs.Texts as texts;
ghost use Rattle.requests.specs.declared.queries.Query.TheVariants.{Runs, Groups};
ghost use Rattle.histories.specs.Answered.{AnswersAsked};
ghost use Rattle.histories.specs.FromTables.{ShowsText};
ghost use Rattle.store_commands.specs.Lists.{IsListOfGroups, IsListOfRuns, entry_line, group_entry_line};

use byte_io::SharedText;
use cg_text::ListVec;
use histories::Answer;
use profile_records::Kind;
use run_stores::{GroupEntry, RunEntry, RunStore, StoreError};
use std::alloc::{AllocError, Global};

fn kind_text(kind: Kind) -> &'static str
    ensures { result.now ≡ texts.kind_text kind }
{
    match kind {
        Kind::Callgrind => "callgrind",
        Kind::Folded => "folded",
    }
}

/// Adds a digest in hexadecimal, between blanks.
fn push_digest(text: &mut String, alloc: Global, digest: &[u8; 32]) -> Result<(), AllocError>
    ensures { OnOk result (string_bytes text.new ≡ string_bytes text.old ++ (codes " " ++ (encode_lower digest.now ++ codes " "))) }
{
    let digits = hex::encode(alloc, digest.as_slice())?;
    write!(text, " {digits} ")
}

/// Adds the line of a run.
fn push_run(text: &mut String, alloc: Global, run: &RunEntry) -> Result<(), AllocError>
    ensures { OnOk result (string_bytes text.new ≡ string_bytes text.old ++ entry_line run.now) }
{
    let number = run.number;
    write!(text, "{number} ")?;
    text.push_str(kind_text(run.kind))?;
    push_digest(text, alloc, &run.digest)?;
    let label = run.label.as_str();
    write!(text, "{label}\n")
}

/// The runs, a line for each, as long as the text has at most `most` bytes.
fn runs_text(alloc: Global, runs: &[RunEntry], most: usize) -> Result<SharedText, AllocError>
    ensures { IfOk result (λ text. text ≡ flat_map entry_line runs.now) }
{
    let mut text = String::new(alloc);
    for run in runs {
        push_run(&mut text, alloc, run)?;
        if text.len() > most {
            return Err(AllocError);
        }
    }
    Ok(SharedText::from_list(alloc, ListVec::from_vec(text.into_bytes())))
}

/// Adds numbers, a comma before each.
fn push_more(text: &mut String, members: &[u32]) -> Result<(), AllocError>
    ensures { OnOk result (string_bytes text.new ≡ string_bytes text.old ++ texts.more_text members.now) }
{
    for member in members {
        write!(text, ",{member}")?;
    }
    Ok(())
}

/// Adds the members of a group.
fn push_members(text: &mut String, members: &[u32]) -> Result<(), AllocError>
    ensures { OnOk result (string_bytes text.new ≡ string_bytes text.old ++ texts.members_text members.now) }
{
    match members.split_first() {
        None => text.push_str("-"),
        Some((first, more)) => {
            write!(text, "{first}")?;
            push_more(text, more)
        }
    }
}

/// Adds the baseline of a group.
fn push_baseline(text: &mut String, baseline: Option<u32>) -> Result<(), AllocError>
    ensures { OnOk result (string_bytes text.new ≡ string_bytes text.old ++ texts.baseline_text baseline) }
{
    match baseline {
        Some(number) => write!(text, "{number}"),
        None => text.push_str("-"),
    }
}

/// Adds the line of a group.
fn push_group(text: &mut String, group: &GroupEntry) -> Result<(), AllocError>
    ensures { OnOk result (string_bytes text.new ≡ string_bytes text.old ++ group_entry_line group.now) }
{
    text.push_str(group.name.as_str())?;
    text.push_str(" ")?;
    push_baseline(text, group.baseline)?;
    text.push_str(" ")?;
    push_members(text, group.members.as_slice())?;
    text.push_str("\n")
}

/// The groups, a line for each, as long as the text has at most `most` bytes.
fn groups_text(alloc: Global, groups: &[GroupEntry], most: usize) -> Result<SharedText, AllocError>
    ensures { IfOk result (λ text. text ≡ flat_map group_entry_line groups.now) }
{
    let mut text = String::new(alloc);
    for group in groups {
        push_group(&mut text, group)?;
        if text.len() > most {
            return Err(AllocError);
        }
    }
    Ok(SharedText::from_list(alloc, ListVec::from_vec(text.into_bytes())))
}

/// The list of the runs that are held.
fn list_runs<S: RunStore>(
    store: &mut S,
    alloc: Global,
    most: usize,
) -> Result<SharedText, StoreError>
    ensures told { Told S.StoreState result store.old store.new IsListOfRuns }
    ensures asks { Asks S.StoreState (is_ok result) store.old store.new }
{
    let runs = store.runs(alloc)?;
    Ok(runs_text(alloc, &runs, most)?)
}

/// The list of the groups.
fn list_groups<S: RunStore>(
    store: &mut S,
    alloc: Global,
    most: usize,
) -> Result<SharedText, StoreError>
    ensures told { Told S.StoreState result store.old store.new IsListOfGroups }
    ensures asks { Asks S.StoreState (is_ok result) store.old store.new }
{
    let groups = store.groups(alloc)?;
    Ok(groups_text(alloc, &groups, most)?)
}

/// Answers which runs are held. A text of more than `most` bytes is refused as one that there is no memory for.
pub fn runs_answer<S: RunStore>(
    store: &mut S,
    alloc: Global,
    most: usize,
) -> Result<Answer, StoreError>
    ensures { AnswersAsked S.StoreState (λ t. ShowsText (IsListOfRuns t)) Runs result store.old store.new }
{
    let text = list_runs(store, alloc, most)?;
    Ok(Answer::Text(text))
}

/// Answers which groups are there. A text of more than `most` bytes is refused, as by `runs_answer`.
pub fn groups_answer<S: RunStore>(
    store: &mut S,
    alloc: Global,
    most: usize,
) -> Result<Answer, StoreError>
    ensures { AnswersAsked S.StoreState (λ t. ShowsText (IsListOfGroups t)) Groups result store.old store.new }
{
    let text = list_groups(store, alloc, most)?;
    Ok(Answer::Text(text))
}
