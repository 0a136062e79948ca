// How files begin.
ghost use Rattle.std.specs.Prelude.{◌≡◌};
ghost use Rattle.file_reading.specs.Beginnings as spec;

use cg_text::{is_digit, line_end};

/// What a file is by its first bytes.
#[derive(Clone, Copy, Debug, PartialEq, Eq)]
pub enum Beginning {
    /// It has no byte.
    Empty,
    /// It is packed by gzip, bzip2, xz or zstd.
    Packed,
    /// It is a program, or a library.
    Program,
    /// `perf record` wrote it.
    PerfData,
    Callgrind,
    /// Its first line has frames, and ends in a digit.
    Folded,
    Other,
}

/// Whether bytes begin as gzip, bzip2, xz or zstd begin their files.
fn is_packed(bytes: &[u8]) -> bool
    ensures { result ≡ spec.is_packed bytes.now }
{
    bytes.starts_with(b"\x1f\x8b")
        || bytes.starts_with(b"BZh")
        || bytes.starts_with(b"\xfd7zXZ\0")
        || bytes.starts_with(b"\x28\xb5\x2f\xfd")
}

/// Whether bytes begin as writers of Callgrind files begin theirs.
fn is_callgrind(bytes: &[u8]) -> bool
    ensures { result ≡ spec.is_callgrind bytes.now }
{
    bytes.starts_with(b"# callgrind format")
        || bytes.starts_with(b"version:")
        || bytes.starts_with(b"creator:")
        || bytes.starts_with(b"positions:")
        || bytes.starts_with(b"events:")
}

/// The bytes of the first line.
fn first_line(bytes: &[u8]) -> &[u8]
    ensures { result.now ≡ spec.first_line bytes.now }
{
    match line_end(bytes) {
        Some(end) => &bytes[..end],
        None => bytes,
    }
}

/// Whether a line has frames, and ends in a digit.
fn is_stack(line: &[u8]) -> bool
    ensures { result ≡ spec.is_stack line.now }
{
    match line.last() {
        Some(last) => is_digit(*last) && line.contains(&b';'),
        None => false,
    }
}

/// What a file is that begins with these bytes.
pub fn beginning_of(bytes: &[u8]) -> Beginning
    ensures { result ≡ spec.beginning_of bytes.now }
{
    if bytes.is_empty() {
        Beginning::Empty
    } else if is_packed(bytes) {
        Beginning::Packed
    } else if bytes.starts_with(b"\x7fELF") {
        Beginning::Program
    } else if bytes.starts_with(b"PERFILE2") {
        Beginning::PerfData
    } else if is_callgrind(bytes) {
        Beginning::Callgrind
    } else if is_stack(first_line(bytes)) {
        Beginning::Folded
    } else {
        Beginning::Other
    }
}
