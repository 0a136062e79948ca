// The sums of a run's events beside the totals that its file states.
ghost use Rattle.std.specs.Prelude.{◌≡◌, ◌++◌, ◌≤◌, OnOk, IfOk, length, map};
ghost use Rattle.report_texts.specs.Verifying.{stated_in, checks_from, verified, verdict, event_text, sum_text, check_line, check_lines, verify_text};
ghost use Rattle.cost_reports.specs.Rows.{plain_check};

use crate::lengths::{check_length, whole_text};
use crate::numbers::push_number;
use byte_io::push_escaped;
use cg_formulas::FileHead;
use cg_text::ListVec;
use std::alloc::{AllocError, Global};
use std::marker::Model;

/// The sum of an event, and the total that is stated of it, if one is.
#[derive(Clone, Copy)]
pub struct Check<'a> {
    pub event: &'a [u8],
    pub sum: u128,
    pub stated: Option<u128>,
}

/// A check for each event of a run, in the order of its file.
#[derive(Drop)]
pub struct Verification<'a> {
    run: u32,
    checks: Vec<Check<'a>>,
}

impl<'a> Model for Verification<'a> {
    ghost use Rattle.std.specs.Prelude.{map};
    ghost use Rattle.report_texts.specs.Verifying.{Verified};
    ghost use Rattle.cost_reports.specs.Rows.{plain_check};

    ghost Value = { Verified };

    ghost view = { λ v. record { run = v.run; checks = map plain_check v.checks.items } };
}

/// The total that is stated of a column.
fn stated_in(stated: &Option<ListVec<u128>>, column: usize) -> Option<u128>
    ensures { result ≡ stated_in stated.now column }
{
    match stated {
        None => None,
        Some(totals) => totals.as_slice().get(column).copied(),
    }
}

/// The checks of events; past the last sum it is 0.
fn checks_of<'a>(
    alloc: Global,
    events: &'a [ListVec<u8>],
    sums: &[u128],
    stated: &Option<ListVec<u128>>,
) -> Result<Vec<Check<'a>>, AllocError>
    ensures { IfOk result (λ checks. map plain_check checks.items ≡ checks_from sums.now stated.now 0 events.now) }
{
    let mut checks = Vec::with_capacity(alloc, events.len())?;
    for (k, event) in events.iter().enumerate() {
        checks.push(Check {
            event: event.as_slice(),
            sum: sums.get(k).copied().unwrap_or(0),
            stated: stated_in(stated, k),
        })?;
    }
    Ok(checks)
}

/// Checks the sums of a run's events, by column, against the totals that its file states. Memory is
/// the only refusal.
pub fn verify<'a>(
    alloc: Global,
    run: u32,
    head: &'a FileHead,
    sums: &[u128],
) -> Result<Verification<'a>, AllocError>
    ensures { IfOk result (λ found. found ≡ verified run head.now.events sums.now head.now.stated) }
{
    let checks = checks_of(alloc, head.events.as_slice(), sums, &head.stated)?;
    Ok(Verification { run, checks })
}

/// Adds what is stated, and whether the sum is that.
fn push_verdict(text: &mut Vec<u8>, sum: u128, stated: Option<u128>) -> Result<(), AllocError>
    ensures { OnOk result (text.new.items ≡ text.old.items ++ verdict sum stated) }
{
    match stated {
        None => text.extend_from_slice(b"none none")?,
        Some(stated) => {
            push_number(text, stated)?;
            let word = if sum == stated {
                b" ok".as_slice()
            } else {
                b" differs".as_slice()
            };
            text.extend_from_slice(word)?;
        }
    }
    Ok(())
}

/// Adds a run and one of its events.
fn push_event(text: &mut Vec<u8>, run: u32, event: &[u8]) -> Result<(), AllocError>
    ensures { OnOk result (text.new.items ≡ text.old.items ++ event_text run event.now) }
{
    push_number(text, u128::from(run))?;
    text.push(b' ')?;
    push_escaped(text, event)
}

/// Adds a sum beside what is stated.
fn push_sum(text: &mut Vec<u8>, sum: u128, stated: Option<u128>) -> Result<(), AllocError>
    ensures { OnOk result (text.new.items ≡ text.old.items ++ sum_text sum stated) }
{
    push_number(text, sum)?;
    text.push(b' ')?;
    push_verdict(text, sum, stated)
}

/// Adds the line of a check.
fn push_check(text: &mut Vec<u8>, run: u32, check: &Check<'_>) -> Result<(), AllocError>
    ensures { OnOk result (text.new.items ≡ text.old.items ++ check_line run (plain_check check.now)) }
{
    push_event(text, run, check.event)?;
    text.push(b' ')?;
    push_sum(text, check.sum, check.stated)?;
    text.push(b'\n')?;
    Ok(())
}

/// Adds the lines of checks, as long as the text has at most `most` bytes.
fn push_checks(
    text: &mut Vec<u8>,
    run: u32,
    checks: &[Check<'_>],
    most: usize,
) -> Result<(), AllocError>
    ensures { OnOk result (text.new.items ≡ text.old.items ++ check_lines run (map plain_check checks.now)) }
{
    for check in checks {
        push_check(text, run, check)?;
        check_length(text.len(), most)?;
    }
    Ok(())
}

impl<'a> Verification<'a> {
    /// The number of the run.
    pub fn run(&self) -> u32
        ensures { result ≡ self.now.run }
    {
        self.run
    }

    /// The events with their sums, in the order of the file.
    pub fn checks(&self) -> &[Check<'a>]
        ensures { map plain_check result.now ≡ self.now.checks }
    {
        &self.checks
    }

    /// Adds a line for each event to those of other runs, as long as the text has at most `most` bytes.
    pub fn push_text(&self, text: &mut Vec<u8>, most: usize) -> Result<(), AllocError>
        ensures { OnOk result (text.new.items ≡ text.old.items ++ verify_text self.now) }
    {
        push_checks(text, self.run, &self.checks, most)
    }

    /// A line for each event, of at most `most` bytes, as `Report::text`.
    pub fn text(&self, alloc: Global, most: usize) -> Result<ListVec<u8>, AllocError>
        ensures text { IfOk result (λ text. text ≡ verify_text self.now) }
        ensures short { IfOk result (λ text. length text ≤ most) }
    {
        let mut text = Vec::new(alloc);
        self.push_text(&mut text, most)?;
        whole_text(text, most)
    }
}
