// The length of a body (specs/Lengths.antt).
ghost use Rattle.std.specs.Prelude.{◌≡◌, length, map, All};
ghost use Rattle.httparse.specs.Spans.{IsHeaderWithin, header_bytes, span_bytes};
ghost use Rattle.http_exchange.specs.Lengths as spec;

use crate::failings::Failing;
use crate::numbers::all_digits;
use cg_text::value_in;
use httparse::spans::HeaderSpan;

/// The values of the fields of one name.
#[derive(Clone, Copy)]
enum Values<'a> {
    None,
    One(&'a [u8]),
    Many,
}

/// Whether a field has a name, which is told without regard to ASCII case.
fn is_named(bytes: &[u8], field: HeaderSpan, name: &str) -> bool
    requires { IsHeaderWithin (length bytes.now) field }
    ensures { result ≡ spec.same_name (span_bytes bytes.now field.name) name.now }
{
    field.name.of(bytes).eq_ignore_ascii_case(name.as_bytes())
}

/// The values of the fields of a name, which is told without regard to ASCII case.
fn values_of<'a>(bytes: &'a [u8], fields: &[HeaderSpan], name: &str) -> Values<'a>
    requires { All (IsHeaderWithin (length bytes.now)) fields.now }
    ensures { spec.AreValues (spec.values_named name.now (map (header_bytes bytes.now) fields.now)) result }
{
    let mut found = Values::None;
    for field in fields {
        if !is_named(bytes, *field, name) {
            continue;
        }
        match found {
            Values::None => found = Values::One(field.value.of(bytes)),
            _ => return Values::Many,
        }
    }
    found
}

/// The length that a text says, if it is at most the limit.
fn length_in(limit: u64, text: &[u8]) -> Result<u64, Failing>
    ensures { result ≡ spec.length_in limit text.now }
{
    if text.is_empty() || !all_digits(text) {
        return Err(Failing::BadRequest);
    }
    match value_in(10, text) {
        Some(length) if length <= limit => Ok(length),
        _ => Err(Failing::TooLong),
    }
}

/// The length of the body that comes behind a head with these fields, at most the limit.
pub(crate) fn body_length(limit: u64, bytes: &[u8], fields: &[HeaderSpan]) -> Result<u64, Failing>
    requires { All (IsHeaderWithin (length bytes.now)) fields.now }
    ensures { result ≡ spec.body_length limit (map (header_bytes bytes.now) fields.now) }
{
    let lengths = values_of(bytes, fields, "content-length");
    let codings = values_of(bytes, fields, "transfer-encoding");
    match (lengths, codings) {
        (Values::None, _) => Err(Failing::LengthRequired),
        (Values::One(text), Values::None) => length_in(limit, text),
        (_, _) => Err(Failing::BadRequest),
    }
}
