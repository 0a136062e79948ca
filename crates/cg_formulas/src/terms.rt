// The terms of formulas.
ghost use Rattle.std.specs.Prelude.{◌≡◌, ◌<◌, ◌∷◌, [], not, position, take_while, drop, length, is_some, None, IfNone, IfSome};
ghost use Rattle.std.specs.List.{list_all, prefix_len};
ghost use Rattle.std.specs.Option.{option_map};
ghost use Rattle.cg_text.specs.Numbers.{is_digit};
ghost use Rattle.cg_formulas.specs.EventLines.{ends_name, ends_term, is_term_name, times, factor, behind_star, counted, term_of, is_plus, with_first, formula_of};
ghost use Rattle.cg_formulas.specs.EventViews.{plain_term, terms_in, terms_behind, formula_behind};

use crate::event_lines::Formula;
use cg_text::{is_blank, is_digit, trim_end, trim_start, value_in};
use memchr::memchr;
use std::marker::Model;

/// Whether a byte ends a name: a blank, `=` or `:`.
pub(crate) fn ends_name(b: u8) -> bool
    ensures { result ≡ ends_name b }
{
    is_blank(b) || b == b'=' || b == b':'
}

/// Whether a byte ends a name in a formula: there `+` and `*` do as well.
fn ends_term(b: u8) -> bool
    ensures { result ≡ ends_term b }
{
    ends_name(b) || b == b'+' || b == b'*'
}

/// Whether no byte ends a name in a formula.
fn has_no_end(text: &[u8]) -> bool
    ensures { result ≡ list_all (λ c. not (ends_term c)) text.now }
{
    text.iter().all(|b| !ends_term(*b))
}

/// Whether a text can be a name in a formula: it begins with no digit, and nothing ends it.
fn is_term_name(text: &[u8]) -> bool
    ensures { result ≡ is_term_name text.now }
{
    match text.split_first() {
        Some((first, _)) => !is_digit(*first) && has_no_end(text),
        None => false,
    }
}

/// A number of times the event of a name, if the text is one.
fn times(number: u64, name: &[u8]) -> Option<(u64, &[u8])>
    ensures { option_map plain_term result ≡ times number name.now }
{
    if is_term_name(name) {
        Some((number, name))
    } else {
        None
    }
}

/// Where the first byte but a digit is.
fn first_other(text: &[u8]) -> Option<usize>
    ensures { result ≡ position (λ b. not (is_digit b)) text.now }
{
    text.iter().position(|b| !is_digit(*b))
}

/// The digits that a text begins with, and what follows them.
fn split_digits(text: &[u8]) -> (&[u8], &[u8])
    ensures digits { result.0.now ≡ take_while is_digit text.now }
    ensures rest { result.1.now ≡ drop (prefix_len is_digit text.now) text.now }
{
    match first_other(text) {
        Some(end) => (&text[..end], &text[end..]),
        None => (text, &[]),
    }
}

/// The number of a term; one above 2^64-1 is read as 2^64-1.
fn factor(digits: &[u8]) -> u64
    ensures { result ≡ factor digits.now }
{
    value_in(10, digits).unwrap_or(u64::MAX)
}

/// What follows a number, without one `*`.
fn behind_star(text: &[u8]) -> &[u8]
    ensures { result.now ≡ behind_star text.now }
{
    match text.split_first() {
        Some((b'*', name)) => trim_start(name),
        _ => text,
    }
}

/// The term of digits and what follows them; without digits the number is 1.
fn counted<'a>(digits: &[u8], rest: &'a [u8]) -> Option<(u64, &'a [u8])>
    ensures { option_map plain_term result ≡ counted digits.now rest.now }
{
    if digits.is_empty() {
        return times(1, rest);
    }
    times(factor(digits), behind_star(trim_start(rest)))
}

/// The term that a text is: a name, or a number and a name, with or without `*` between them.
#[tactic(auto, unfolding(crate::specs::EventLines::term_of))]
pub(crate) fn term(text: &[u8]) -> Option<(u64, &[u8])>
    ensures { option_map plain_term result ≡ term_of text.now }
{
    let (digits, rest) = split_digits(trim_end(trim_start(text)));
    counted(digits, rest)
}

/// Where the first `+` is.
#[tactic(auto, using(cg_text::proofs::SearchLemmas::search_rules))]
fn first_plus(text: &[u8]) -> Option<usize>
    ensures { result ≡ position is_plus text.now }
{
    memchr(b'+', text)
}

/// The first term of a text, and what is behind the `+` after it, if there is one; `None` where it
/// begins with no term.
fn first_term(text: &[u8]) -> Option<((u64, &[u8]), Option<&[u8]>)>
    ensures none { IfNone result ((formula_of text.now ≡ None) × (terms_in text.now ≡ [])) }
    ensures formula { IfSome result (λ p. formula_of text.now ≡ with_first (plain_term p.0) (formula_behind p.1)) }
    ensures terms { IfSome result (λ p. terms_in text.now ≡ plain_term p.0 ∷ terms_behind p.1) }
    ensures shorter { IfSome result (λ p. IfSome p.1 (λ rest. length rest.now < length text.now)) }
{
    match first_plus(text) {
        Some(end) => Some((term(&text[..end])?, Some(&text[end + 1..]))),
        None => Some((term(text)?, None)),
    }
}

/// Whether a text is a formula: terms joined by `+`.
pub(crate) fn is_formula(text: &[u8]) -> bool
    ensures { result ≡ is_some (formula_of text.now) }
{
    let mut rest = Some(text);
    while let Some(text) = rest {
        let Some((_, behind)) = first_term(text) else {
            return false;
        };
        rest = behind;
    }
    true
}

/// The terms of a text, from the first on, up to a part that is none: numbers, capped at 2^64 - 1, and names of events.
#[derive(Drop)]
pub struct SplitTerms<'a> {
    rest: Option<&'a [u8]>,
}

impl<'a> Model for SplitTerms<'a> {
    ghost use Rattle.std.specs.Prelude.{List};
    ghost use Rattle.cg_formulas.specs.EventLines.{Term};
    ghost use Rattle.cg_formulas.specs.EventViews.{terms_behind};

    ghost Value = { List Term };

    ghost view = { λ a. terms_behind a.rest };
}

/// The terms of a formula.
pub(crate) fn terms(text: &[u8]) -> SplitTerms<'_>
    ensures { result ≡ terms_in text.now }
{
    SplitTerms { rest: Some(text) }
}

impl Formula {
    /// Its terms: how often the event of a name counts, at most 2^64 - 1 times, and that name. Takes no memory.
    pub fn terms(&self) -> SplitTerms<'_>
        ensures { result ≡ terms_in self.now.text }
    {
        terms(self.text.as_slice())
    }
}

impl<'a> Iterator for SplitTerms<'a> {
    ghost use Rattle.std.specs.Iterator.{YieldsFirstBy, item_count};
    ghost use Rattle.cg_formulas.specs.EventViews.{plain_term};

    type Item = (u64, &'a [u8]);

    ghost next_gives = { YieldsFirstBy plain_term (λ s. s) };

    ghost remaining = { item_count (λ s. s) };

    fn next(&mut self) -> Option<(u64, &'a [u8])> {
        let (term, rest) = first_term(self.rest.take()?)?;
        self.rest = rest;
        Some(term)
    }
}
