// What a line of a folded file says.
ghost use Rattle.std.specs.Prelude.{◌≡◌, ◌≢◌, ◌+◌, ◌<◌, ◌^◌, length, [], MatchOption, IfOk, IfSome};
ghost use Rattle.std.specs.List.{list_all};
ghost use Rattle.cg_text.specs.Numbers.{is_digit};
ghost use Rattle.folded_reader.specs.Lines.{behind_blank, count_of, text_says, reading_of};
ghost use Rattle.folded_reader.specs.Views.{said_is};

use cg_text::{Fault, LINE_LIMIT, amount, strip_carriage_return};
use memchr::memrchr2;

/// The frames of a stack, joined by `;` with the root first, and how often it was seen.
#[derive(Clone, Copy, Debug, PartialEq, Eq)]
pub struct Stack<'a> {
    pub frames: &'a [u8],
    pub count: u64,
}

/// Where the last blank is.
fn last_blank(text: &[u8]) -> Option<usize>
    ensures { MatchOption result (behind_blank text.now ≡ length text.now) (λ i. (i < length text.now) × (i + 1 + behind_blank text.now ≡ length text.now)) }
{
    memrchr2(b' ', b'\t', text)
}

/// Whether each byte is a decimal digit.
fn all_digits(text: &[u8]) -> bool
    ensures { result ≡ list_all is_digit text.now }
{
    text.iter().all(|b| b'0' <= *b && *b <= b'9')
}

/// The count that a text is: decimal digits, below 2^63. Else `FoldedLine` or `NumberTooLarge`.
fn count(text: &[u8]) -> Result<u64, Fault>
    ensures value { result ≡ count_of text.now }
    ensures small { IfOk result (λ n. n < 2 ^ 63) }
{
    if text.is_empty() || !all_digits(text) {
        return Err(Fault::FoldedLine);
    }
    amount(text)
}

/// What a text says: nothing if it is empty, else frames, of which there is a byte at least, a blank
/// and a count.
fn text_says(text: &[u8]) -> Result<Option<Stack<'_>>, Fault>
    ensures says { said_is result ≡ text_says text.now }
    ensures some { IfOk result (λ said. IfSome said (λ s. s.frames.now ≢ [])) }
    ensures small { IfOk result (λ said. IfSome said (λ s. s.count < 2 ^ 63)) }
{
    if text.is_empty() {
        return Ok(None);
    }
    match last_blank(text) {
        None | Some(0) => Err(Fault::FoldedLine),
        Some(end) => {
            let count = count(&text[end + 1..])?;
            let frames = &text[..end];
            Ok(Some(Stack { frames, count }))
        }
    }
}

/// What a line of a folded file says: a stack and its count, or nothing if it is empty. One carriage
/// return at its end is dropped, and no blanks are. Else `LineTooLong` for more than `LINE_LIMIT`
/// bytes, `FoldedLine` or, for a count of 2^63 or more, `NumberTooLarge`.
#[tactic(auto, unfolding(crate::specs::Lines::reading_of))]
pub fn read_stack(line: &[u8]) -> Result<Option<Stack<'_>>, Fault>
    ensures says { said_is result ≡ reading_of line.now }
    ensures some { IfOk result (λ said. IfSome said (λ s. s.frames.now ≢ [])) }
    ensures small { IfOk result (λ said. IfSome said (λ s. s.count < 2 ^ 63)) }
{
    if line.len() > LINE_LIMIT {
        return Err(Fault::LineTooLong);
    }
    text_says(strip_carriage_return(line))
}
