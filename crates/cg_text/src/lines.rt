// The lines of a text, with their numbers.
ghost use Rattle.std.specs.Prelude.{◌≡◌, ◌+◌, ◌<◌, length, drop, position, IfNone, IfSome, [], ◌∷◌};
ghost use Rattle.cg_text.specs.Lines.{is_line_feed, lines_of, numbered};

use memchr::memchr;
use std::marker::Model;

/// Where the first line feed is.
#[tactic(auto, using(crate::proofs::SearchLemmas::search_rules))]
pub fn line_end(bytes: &[u8]) -> Option<usize>
    ensures { result ≡ position is_line_feed bytes.now }
{
    memchr(b'\n', bytes)
}

/// The first line, without its end, and what is after it; `None` for an empty text.
pub fn first_line(text: &[u8]) -> Option<(&[u8], &[u8])>
    ensures none { IfNone result (text.now ≡ []) }
    ensures lines { IfSome result (λ p. lines_of text.now ≡ p.0.now ∷ lines_of p.1.now) }
    ensures rest { IfSome result (λ p. p.1.now ≡ drop (length p.0.now + 1) text.now) }
    ensures shorter { IfSome result (λ p. length p.1.now < length text.now) }
{
    if text.is_empty() {
        return None;
    }
    match line_end(text) {
        Some(end) => Some((&text[..end], &text[end + 1..])),
        None => Some((text, &[])),
    }
}

/// The lines of a text, each without its line feed, with their numbers from 1.
#[derive(Drop)]
pub struct Lines<'a> {
    rest: &'a [u8],
    number: u64,
}

impl<'a> Model for Lines<'a> {
    ghost use Rattle.std.specs.Prelude.{ℕ, List, ◌+◌, ◌<◌, ◌^◌, length};
    ghost use Rattle.cg_text.specs.Lines.{lines_of, numbered};

    ghost Value = { List (ℕ × List ℕ) };

    ghost view = { λ a. numbered a.number (lines_of a.rest.now) };

    ghost invariant = { λ a. a.number + length a.rest.now < 2 ^ 64 };
}

impl<'a> Lines<'a> {
    /// The lines of the text.
    pub fn new(text: &'a [u8]) -> Lines<'a>
        ensures { result ≡ numbered 1 (lines_of text.now) }
    {
        let _size = text.len();
        Lines {
            rest: text,
            number: 1,
        }
    }
}

impl<'a> Iterator for Lines<'a> {
    ghost use Rattle.std.specs.Iterator.{YieldsFirstBy, item_count};

    type Item = (u64, &'a [u8]);

    ghost next_gives = { YieldsFirstBy (λ p. (p.0, p.1.now)) (λ s. s) };

    ghost remaining = { item_count (λ s. s) };

    fn next(&mut self) -> Option<(u64, &'a [u8])> {
        let (line, rest) = first_line(self.rest)?;
        let number = self.number;
        self.number += 1;
        self.rest = rest;
        Some((number, line))
    }
}
