// Answers as they are printed.
ghost use Rattle.std.specs.Prelude.{◌≡◌, ◌++◌, OnOk, IfOk, codes};
ghost use Rattle.std.specs.List.{list_any};
ghost use Rattle.cg_text.specs.Errors.{error_text};
ghost use Rattle.cg_text.specs.declared.faults.ReadEnd.TheVariants as ends;
ghost use Rattle.warehouse.specs.Answers as told;

use byte_io::push_escaped;
use cg_text::{Fault, ListVec, ReadEnd};
use histories::{Answer, Excess, Refusal};
use std::alloc::{AllocError, Global};

/// Adds a fault and its line.
fn push_fault(text: &mut Vec<u8>, alloc: Global, fault: Fault, line: u64) -> Result<(), AllocError>
    ensures { OnOk result (text.new.items ≡ text.old.items ++ error_text (ends.Fault fault line)) }
{
    let reason = ReadEnd::Fault(fault, line).to_string(alloc)?;
    text.extend_from_slice(reason.as_bytes())?;
    Ok(())
}

/// Adds which sum would pass its bound.
fn push_excess(text: &mut Vec<u8>, excess: &Excess) -> Result<(), AllocError>
    ensures { OnOk result (text.new.items ≡ text.old.items ++ told.excess_text excess.now) }
{
    match excess {
        Excess::SelfCost(event) => {
            text.extend_from_slice(b"overflow of self cost ")?;
            push_escaped(text, event.as_slice())?;
        }
        Excess::CallCost(event) => {
            text.extend_from_slice(b"overflow of call cost ")?;
            push_escaped(text, event.as_slice())?;
        }
        Excess::CallCount => text.extend_from_slice(b"overflow of call count")?,
    }
    Ok(())
}

/// Adds why a command is refused.
fn push_reason(text: &mut Vec<u8>, alloc: Global, refusal: &Refusal) -> Result<(), AllocError>
    ensures { OnOk result (text.new.items ≡ text.old.items ++ told.reason_text refusal.now) }
{
    let reason = match refusal {
        Refusal::File(fault, line) => return push_fault(text, alloc, *fault, *line),
        Refusal::Overflow(excess) => return push_excess(text, excess),
        Refusal::Memory => "out of memory",
        Refusal::Store => "store failed",
        Refusal::ReadFault => "read failed",
        Refusal::TooLong => "too long",
        Refusal::Full => "full",
        Refusal::NumbersSpent => "run numbers spent",
        Refusal::NoSuchRun => "no such run",
        Refusal::NoSuchGroup => "no such group",
        Refusal::GroupTaken => "group exists",
        Refusal::BadName => "bad name",
        Refusal::NoSuchEvent => "no such event",
        Refusal::NoSuchName => "no such name",
        Refusal::NoBaseline => "no baseline",
    };
    text.extend_from_slice(reason.as_bytes())?;
    Ok(())
}

/// The line of a refusal.
fn refusal_line(alloc: Global, refusal: &Refusal) -> Result<Vec<u8>, AllocError>
    ensures { IfOk result (λ line. line.items ≡ told.line_text (Answer.Refused refusal.now)) }
{
    let mut line = Vec::new(alloc);
    line.extend_from_slice(b"refused: ")?;
    push_reason(&mut line, alloc, refusal)?;
    line.push(b'\n')?;
    Ok(line)
}

/// What is printed of an answer: one line, or the lines of a text as they are.
pub fn line_of(alloc: Global, answer: &Answer) -> Result<ListVec<u8>, AllocError>
    ensures { IfOk result (λ line. line ≡ told.line_text answer.now) }
{
    let line = match answer {
        Answer::Run(number) => format!(in alloc; "run {number}\n")?.into_bytes(),
        Answer::Held(number) => format!(in alloc; "held {number}\n")?.into_bytes(),
        Answer::Done => b"done\n".to_vec(alloc)?,
        Answer::Text(text) => text.to_list(alloc)?.into_vec(),
        Answer::Refused(refusal) => refusal_line(alloc, refusal)?,
    };
    Ok(ListVec::from_vec(line))
}

/// Whether an answer is a refusal.
pub fn is_refused(answer: &Answer) -> bool
    ensures { result ≡ told.is_refused answer.now }
{
    matches!(answer, Answer::Refused(_))
}

/// Whether one of some answers is a refusal.
fn has_refusal(answers: &[Answer]) -> bool
    ensures { result ≡ list_any told.is_refused answers.now }
{
    answers.iter().any(|answer| is_refused(answer))
}

/// The exit status of a program that has printed some answers: 1 if one is a refusal, else 0. Takes no memory.
pub fn status_of(answers: &[Answer]) -> u8
    ensures { result ≡ told.status_of answers.now }
{
    if has_refusal(answers) { 1 } else { 0 }
}
