// The values of name lines.
ghost use Rattle.std.specs.Prelude.{◌≡◌, position};
ghost use Rattle.cg_text.specs.Names.{is_closing, plain_name, name_behind, spec_of, name_of};
ghost use Rattle.cg_text.specs.Views.{name_is, plain_spec};

use crate::blanks::trim_start;
use crate::faults::Fault;
use crate::numbers::number;
use memchr::memchr;

/// The name of what has none.
pub const UNKNOWN: &[u8] = b"???";

/// What the value of a name line says: an identifier, a text, or both.
#[derive(Clone, Copy, Debug, PartialEq, Eq)]
pub struct NameSpec<'a> {
    pub id: Option<u64>,
    pub text: Option<&'a [u8]>,
}

/// Where the first `)` is.
#[tactic(auto, using(crate::proofs::SearchLemmas::search_rules))]
fn first_closing(bytes: &[u8]) -> Option<usize>
    ensures { result ≡ position is_closing bytes.now }
{
    memchr(b')', bytes)
}

/// A plain name.
fn plain_name(value: &[u8]) -> NameSpec<'_>
    ensures { plain_spec result ≡ plain_name value.now }
{
    let text = if value.is_empty() { UNKNOWN } else { value };
    NameSpec {
        id: None,
        text: Some(text),
    }
}

/// What a value that begins with no blank says.
fn unpadded_spec(value: &[u8]) -> Result<NameSpec<'_>, Fault>
    ensures { name_is result ≡ spec_of value.now }
{
    let Some((b'(', inside)) = value.split_first() else {
        return Ok(plain_name(value));
    };
    let Some(end) = first_closing(inside) else {
        return Ok(plain_name(value));
    };
    match number(&inside[..end]) {
        Ok(id) => {
            let behind = trim_start(&inside[end + 1..]);
            let text = if behind.is_empty() {
                None
            } else {
                Some(behind)
            };
            Ok(NameSpec { id: Some(id), text })
        }
        Err(Fault::NumberTooLarge) => Err(Fault::NumberTooLarge),
        Err(_) => Ok(plain_name(value)),
    }
}

/// What the value of a name line says: `(` number `)` in front is an identifier, and what follows
/// it is the text; any other value is a text, and an empty one is `???`. `NumberTooLarge` for an
/// identifier of 2^64 or more.
#[tactic(auto, unfolding(crate::specs::Names::name_of))]
pub fn name_spec(value: &[u8]) -> Result<NameSpec<'_>, Fault>
    ensures { name_is result ≡ name_of value.now }
{
    unpadded_spec(trim_start(value))
}
