// Header lines with values of a fixed form.
ghost use Rattle.std.specs.Prelude.{◌≡◌, [], ◌∷◌};
ghost use Rattle.cg_text.specs.Fields.{fields_of};
ghost use Rattle.callgrind_reader.specs.Positions.{form_of, positions_fault};
ghost use Rattle.callgrind_reader.specs.Lines.{version_fault};

use crate::layouts::Layout;
use cg_text::{Fault, next_field, number};

/// The fault of a `version:` line.
pub fn version_fault(value: &[u8]) -> Option<Fault>
    ensures { result ≡ version_fault (fields_of value.now) }
{
    let Some((field, rest)) = next_field(value) else {
        return Some(Fault::Version);
    };
    if next_field(rest).is_some() {
        return Some(Fault::Version);
    }
    match number(field) {
        Ok(0 | 1) => None,
        _ => Some(Fault::Version),
    }
}

/// What a `positions:` line of one field means.
fn form_of_one(field: &[u8]) -> Option<Layout>
    ensures { result ≡ form_of (field.now ∷ []) }
{
    if field == b"line".as_slice() {
        Some(Layout::Line)
    } else if field == b"instr".as_slice() {
        Some(Layout::Instr)
    } else {
        None
    }
}

/// What a `positions:` line of two fields means.
fn form_of_two(first: &[u8], second: &[u8]) -> Option<Layout>
    ensures { result ≡ form_of (first.now ∷ second.now ∷ []) }
{
    if first == b"instr".as_slice() && second == b"line".as_slice() {
        Some(Layout::InstrLine)
    } else {
        None
    }
}

/// What a `positions:` line means.
pub fn form_of(value: &[u8]) -> Option<Layout>
    ensures { result ≡ form_of (fields_of value.now) }
{
    let (first, rest) = next_field(value)?;
    let Some((second, rest)) = next_field(rest) else {
        return form_of_one(first);
    };
    if next_field(rest).is_some() {
        return None;
    }
    form_of_two(first, second)
}

/// The fault of a `positions:` line of a form, after lines that have settled the positions or not.
pub fn positions_fault(form: Option<Layout>, settled: Option<Layout>) -> Option<Fault>
    ensures { result ≡ positions_fault form settled }
{
    match (form, settled) {
        (None, _) => Some(Fault::PositionsForm),
        (Some(form), Some(earlier)) if form != earlier => Some(Fault::PositionsForm),
        _ => None,
    }
}
