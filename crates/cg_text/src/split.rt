// The fields of a text.
ghost use Rattle.std.specs.Prelude.{◌≡◌, ◌+◌, ◌<◌, position, length, drop, IfNone, IfSome, [], ◌∷◌};
ghost use Rattle.cg_text.specs.Fields.{is_blank, trim_start, fields_of};

use crate::blanks::trim_start;
use memchr::memchr2;
use std::marker::Model;

/// Where the first blank is.
#[tactic(auto, using(crate::proofs::SearchLemmas::search_rules))]
#[inline(always)]
fn first_blank(bytes: &[u8]) -> Option<usize>
    ensures { result ≡ position is_blank bytes.now }
{
    memchr2(b' ', b'\t', bytes)
}

/// The first field, and what is after it; `None` where there is no field.
#[inline(always)]
pub fn next_field(text: &[u8]) -> Option<(&[u8], &[u8])>
    ensures none { IfNone result (fields_of text.now ≡ []) }
    ensures fields { IfSome result (λ p. fields_of text.now ≡ p.0.now ∷ fields_of p.1.now) }
    ensures rest { IfSome result (λ p. p.1.now ≡ drop (length p.0.now + 1) (trim_start text.now)) }
    ensures shorter { IfSome result (λ p. length p.1.now < length text.now) }
{
    let text = trim_start(text);
    if text.is_empty() {
        return None;
    }
    match first_blank(text) {
        Some(end) => Some((&text[..end], &text[end + 1..])),
        None => Some((text, &[])),
    }
}

/// The fields of a text, from the first on.
#[derive(Drop)]
pub struct SplitFields<'a> {
    rest: &'a [u8],
}

impl<'a> Model for SplitFields<'a> {
    ghost use Rattle.std.specs.Prelude.{ℕ, List};
    ghost use Rattle.cg_text.specs.Fields.{fields_of};

    ghost Value = { List (List ℕ) };

    ghost view = { λ a. fields_of a.rest.now };
}

/// The fields of a text: its parts between blanks, none of them empty.
pub fn fields(text: &[u8]) -> SplitFields<'_>
    ensures { result ≡ fields_of text.now }
{
    SplitFields { rest: text }
}

impl<'a> Iterator for SplitFields<'a> {
    ghost use Rattle.std.specs.Iterator.{YieldsFirstRef, item_count};

    type Item = &'a [u8];

    ghost next_gives = { YieldsFirstRef (λ s. s) };

    ghost remaining = { item_count (λ s. s) };

    fn next(&mut self) -> Option<&'a [u8]> {
        let (field, rest) = next_field(self.rest)?;
        self.rest = rest;
        Some(field)
    }
}
