// Blanks, and the text of a line.
ghost use Rattle.std.specs.Prelude.{◌≡◌, ◌||◌, not, position};
ghost use Rattle.std.specs.Str.Lines as lines;
ghost use Rattle.cg_text.specs.Fields.{is_blank, trim_start, trim_end, line_text};

/// Whether a byte is a space or a tab.
pub fn is_blank(b: u8) -> bool
    ensures { result ≡ is_blank b }
{
    b == b' ' || b == b'\t'
}

/// Where the first byte but a blank is.
#[inline(always)]
fn first_other(bytes: &[u8]) -> Option<usize>
    ensures { result ≡ position (λ b. not (is_blank b)) bytes.now }
{
    bytes.iter().position(|b| !is_blank(*b))
}

/// Without the blanks in front.
#[inline(always)]
pub fn trim_start(bytes: &[u8]) -> &[u8]
    ensures { result.now ≡ trim_start bytes.now }
{
    match first_other(bytes) {
        Some(from) => &bytes[from..],
        None => &[],
    }
}

/// Without the blanks behind.
#[inline(always)]
pub fn trim_end(bytes: &[u8]) -> &[u8]
    ensures { result.now ≡ trim_end bytes.now }
{
    let mut end = bytes.len();
    while end > 0 && is_blank(bytes[end - 1]) {
        end -= 1;
    }
    &bytes[..end]
}

/// A line without one carriage return at its end.
#[inline(always)]
pub fn strip_carriage_return(line: &[u8]) -> &[u8]
    ensures { result.now ≡ lines.strip_carriage_return line.now }
{
    match line {
        [front @ .., b'\r'] => front,
        _ => line,
    }
}

/// The text of a line of a Callgrind file: without one carriage return at its end, and then
/// without blanks at both ends.
#[tactic(auto, unfolding(crate::specs::Fields::line_text))]
#[inline(always)]
pub fn line_text(line: &[u8]) -> &[u8]
    ensures { result.now ≡ line_text line.now }
{
    trim_end(trim_start(strip_carriage_return(line)))
}
