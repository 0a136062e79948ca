// The kinds of lines.
ghost use Rattle.std.specs.Prelude.{◌≡◌, not, position, take_while, drop};
ghost use Rattle.std.specs.List.{prefix_len};
ghost use Rattle.std.specs.Map.{lookup};
ghost use Rattle.std.specs.Str.{bytes_eq};
ghost use Rattle.cg_text.specs.Kinds.{kind_of, key_of, name_words, assignment, worded, begins_cost, is_letter};
ghost use Rattle.cg_text.specs.Views.{kind_is};

use crate::faults::Fault;
use crate::numbers::is_digit;
use crate::words::{HeaderKey, NameWord};

/// The kind of a line, with the bytes that it goes on with.
#[derive(Clone, Copy, Debug, PartialEq, Eq)]
pub enum LineKind<'a> {
    /// An empty line or a comment.
    Nothing,
    /// A cost line.
    Cost { text: &'a [u8] },
    /// A key, `:` and a value.
    Header { key: HeaderKey, value: &'a [u8] },
    /// One of the words of names, `=` and a value.
    Name { word: NameWord, value: &'a [u8] },
    /// `calls=` and a value.
    Calls { value: &'a [u8] },
    /// `jump=` or `jcnd=` and a value, which says nothing about costs.
    Jump,
}

/// Whether a line that begins so is a cost line.
fn begins_cost(b: u8) -> bool
    ensures { result ≡ begins_cost b }
{
    is_digit(b) || b == b'+' || b == b'-' || b == b'*'
}

/// Whether a byte is an ASCII letter.
fn is_letter(b: u8) -> bool
    ensures { result ≡ is_letter b }
{
    (b'A' <= b && b <= b'Z') || (b'a' <= b && b <= b'z')
}

/// Where the first byte but a letter is.
fn first_other(text: &[u8]) -> Option<usize>
    ensures { result ≡ position (λ b. not (is_letter b)) text.now }
{
    text.iter().position(|b| !is_letter(*b))
}

/// The key of a header line.
fn header_key(word: &[u8]) -> HeaderKey
    ensures { result ≡ key_of word.now }
{
    // Comparisons of slices are faster to prove than patterns of bytes.
    if word == b"version".as_slice() {
        HeaderKey::Version
    } else if word == b"positions".as_slice() {
        HeaderKey::Positions
    } else if word == b"events".as_slice() {
        HeaderKey::Events
    } else if word == b"event".as_slice() {
        HeaderKey::Event
    } else if word == b"summary".as_slice() {
        HeaderKey::Summary
    } else if word == b"totals".as_slice() {
        HeaderKey::Totals
    } else if word == b"thread".as_slice() {
        HeaderKey::Thread
    } else {
        HeaderKey::Other
    }
}

/// The word of a name line, if it is one.
fn name_word(word: &[u8]) -> Option<NameWord>
    ensures { result ≡ lookup (bytes_eq word.now) name_words }
{
    match word {
        b"ob" => Some(NameWord::Ob),
        b"fl" => Some(NameWord::Fl),
        b"fi" => Some(NameWord::Fi),
        b"fe" => Some(NameWord::Fe),
        b"fn" => Some(NameWord::Fn),
        b"cob" => Some(NameWord::Cob),
        b"cfi" => Some(NameWord::Cfi),
        b"cfl" => Some(NameWord::Cfl),
        b"cfn" => Some(NameWord::Cfn),
        b"jfi" => Some(NameWord::Jfi),
        b"jfn" => Some(NameWord::Jfn),
        _ => None,
    }
}

/// The kind of a word, `=` and a value.
fn assignment<'a>(word: &[u8], value: &'a [u8]) -> Result<LineKind<'a>, Fault>
    ensures { kind_is result ≡ assignment word.now value.now }
{
    match word {
        b"calls" => Ok(LineKind::Calls { value }),
        b"jump" | b"jcnd" => Ok(LineKind::Jump),
        _ => match name_word(word) {
            Some(word) => Ok(LineKind::Name { word, value }),
            None => Err(Fault::UnknownLine),
        },
    }
}

/// The kind of letters and what follows them.
fn worded<'a>(word: &[u8], rest: &'a [u8]) -> Result<LineKind<'a>, Fault>
    ensures { kind_is result ≡ worded word.now rest.now }
{
    if word.is_empty() {
        return Err(Fault::UnknownLine);
    }
    match rest.split_first() {
        Some((b':', value)) => Ok(LineKind::Header {
            key: header_key(word),
            value,
        }),
        Some((b'=', value)) => assignment(word, value),
        _ => Err(Fault::UnknownLine),
    }
}

/// The letters that a text begins with, and what follows them.
fn letters(text: &[u8]) -> (&[u8], &[u8])
    ensures word { result.0.now ≡ take_while is_letter text.now }
    ensures rest { result.1.now ≡ drop (prefix_len is_letter text.now) text.now }
{
    match first_other(text) {
        Some(end) => (&text[..end], &text[end..]),
        None => (text, &[]),
    }
}

/// The kind of a line's text. `UnknownLine` where it has none.
#[tactic(auto, unfolding(crate::specs::Kinds::kind_of))]
pub fn classify(text: &[u8]) -> Result<LineKind<'_>, Fault>
    ensures { kind_is result ≡ kind_of text.now }
{
    let Some((first, _)) = text.split_first() else {
        return Ok(LineKind::Nothing);
    };
    if *first == b'#' {
        return Ok(LineKind::Nothing);
    }
    if begins_cost(*first) {
        return Ok(LineKind::Cost { text });
    }
    let (word, rest) = letters(text);
    worded(word, rest)
}
