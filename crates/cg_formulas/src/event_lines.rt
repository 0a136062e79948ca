// The values of `event:` lines.
ghost use Rattle.std.specs.Prelude.{◌≡◌, ◌+◌, ◌≤◌, not, length, position, take_while, drop, IfOk};
ghost use Rattle.std.specs.List.{prefix_len};
ghost use Rattle.cg_formulas.specs.EventLines.{ends_name, formula_of, is_colon, before_colon, named, event_of};
ghost use Rattle.cg_formulas.specs.EventViews.{EventIs, FormulaIs, kept_bytes};

use crate::terms::{ends_name, is_formula};
use cg_text::{Fault, ListVec, trim_start};
use memchr::memchr;
use std::alloc::{AllocError, Global};
use std::error::Error;
use std::fmt;

/// A sum of terms, each a number of times the event of a name. Kept as the text that it is, whose
/// terms are read again where they are needed.
#[derive(Drop)]
pub struct Formula {
    pub text: ListVec<u8>,
}

/// What an `event:` line says: a name, and the formula that it represents, if there is one.
#[derive(Drop)]
pub struct EventLine {
    pub name: ListVec<u8>,
    pub formula: Option<Formula>,
}

/// Why an `event:` line is not read: it is out of form, or memory was refused. Printed as
/// `F16 formula form` or `out of memory`.
#[derive(Clone, Copy, Debug, PartialEq, Eq)]
pub enum TextEnd {
    Fault(Fault),
    Memory,
}

impl fmt::Display for TextEnd {
    ghost use Rattle.std.specs.Prelude.{Some};
    ghost use Rattle.cg_formulas.specs.Errors.{text_error_text};

    ghost output = { λ end. Some (text_error_text end) };

    fn fmt<W: fmt::Write>(&self, f: &mut fmt::Formatter<W>) -> fmt::Result {
        match self {
            TextEnd::Fault(fault) => write!(f, "{fault}"),
            TextEnd::Memory => write!(f, "out of memory"),
        }
    }
}

impl Error for TextEnd {}

impl From<AllocError> for TextEnd {
    ghost use Rattle.std.specs.Prelude.{◌≡◌};
    ghost use Rattle.cg_formulas.specs.declared.event_lines.TextEnd.TheVariants as ends;

    ghost from_gives = { λ _ end. end ≡ ends.Memory };

    fn from(_error: AllocError) -> TextEnd {
        TextEnd::Memory
    }
}

/// The formula that a text is, with a copy of it. `FormulaForm` where it is none.
fn copied_formula(alloc: Global, text: &[u8]) -> Result<Formula, TextEnd>
    ensures formula { FormulaIs result (formula_of text.now) }
    ensures text { IfOk result (λ formula. formula.text ≡ text.now) }
{
    if !is_formula(text) {
        return Err(TextEnd::Fault(Fault::FormulaForm));
    }
    let text = ListVec::from_vec(text.to_vec(alloc)?);
    Ok(Formula { text })
}

/// Where the first `:` is.
#[tactic(auto, using(cg_text::proofs::SearchLemmas::search_rules))]
fn first_colon(text: &[u8]) -> Option<usize>
    ensures { result ≡ position is_colon text.now }
{
    memchr(b':', text)
}

/// What stands before the first `:`.
fn before_colon(text: &[u8]) -> &[u8]
    ensures text { result.now ≡ before_colon text.now }
    ensures within { length result.now ≤ length text.now }
{
    match first_colon(text) {
        Some(end) => &text[..end],
        None => text,
    }
}

/// What a line says by a name and what follows it: nothing, `:` or `=` and a formula. Else
/// `FormulaForm`.
fn named(alloc: Global, name: &[u8], rest: &[u8]) -> Result<EventLine, TextEnd>
    ensures event { EventIs result (named name.now rest.now) }
    ensures within { IfOk result (λ e. kept_bytes e ≤ length name.now + length rest.now) }
{
    let formula = match rest.split_first() {
        None | Some((b':', _)) => None,
        Some((b'=', text)) => Some(copied_formula(alloc, before_colon(text))?),
        Some(_) => return Err(TextEnd::Fault(Fault::FormulaForm)),
    };
    let name = ListVec::from_vec(name.to_vec(alloc)?);
    Ok(EventLine { name, formula })
}

/// Where the first byte is that ends a name.
fn name_end(text: &[u8]) -> Option<usize>
    ensures { result ≡ position ends_name text.now }
{
    text.iter().position(|b| ends_name(*b))
}

/// The name that a text begins with, and what follows it.
fn split_name(text: &[u8]) -> (&[u8], &[u8])
    ensures name { result.0.now ≡ take_while (λ b. not (ends_name b)) text.now }
    ensures rest { result.1.now ≡ drop (prefix_len (λ b. not (ends_name b)) text.now) text.now }
    ensures within { length result.0.now + length result.1.now ≤ length text.now }
{
    match name_end(text) {
        Some(end) => (&text[..end], &text[end..]),
        None => (text, &[]),
    }
}

/// What the value of an `event:` line says: a name, then, if there are any, `=` and a formula, and
/// then, if there is one, `:` and a long name, which is not kept. Else `FormulaForm`. No more bytes are
/// kept than there are.
#[tactic(auto, unfolding(crate::specs::EventLines::event_of))]
pub fn event_line(alloc: Global, value: &[u8]) -> Result<EventLine, TextEnd>
    ensures event { EventIs result (event_of value.now) }
    ensures within { IfOk result (λ e. kept_bytes e ≤ length value.now) }
{
    let (name, rest) = split_name(trim_start(value));
    if name.is_empty() {
        return Err(TextEnd::Fault(Fault::FormulaForm));
    }
    named(alloc, name, trim_start(rest))
}
