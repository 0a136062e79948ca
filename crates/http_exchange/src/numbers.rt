// Decimal numbers of a request (specs/Numbers.antt).
ghost use Rattle.std.specs.Prelude.{◌≡◌, ◌≤◌, IfSome};
ghost use Rattle.std.specs.List.{list_all};
ghost use Rattle.cg_text.specs.Numbers.{is_digit};
ghost use Rattle.http_exchange.specs.Numbers.{number_of, or_zero, run_bound};

use cg_text::value_in;

/// The greatest number of a run.
pub(crate) const RUN_BOUND: u64 = 2_147_483_647;
/// The greatest limit of a report.
pub(crate) const LIMIT_BOUND: u64 = 4_294_967_295;
/// The greatest threshold of a report, in percent.
pub(crate) const THRESHOLD_BOUND: u64 = 100;

/// Whether each byte is a decimal digit.
pub(crate) fn all_digits(text: &[u8]) -> bool
    ensures { result ≡ list_all is_digit text.now }
{
    text.iter().all(|b| cg_text::is_digit(*b))
}

/// The number that a text is: one to ten decimal digits of at most that value.
pub(crate) fn number(bound: u64, text: &[u8]) -> Option<u64>
    ensures number { result ≡ number_of bound text.now }
    ensures within { IfSome result (λ n. n ≤ bound) }
{
    if text.is_empty() || text.len() > 10 || !all_digits(text) {
        return None;
    }
    let number = value_in(10, text)?;
    if number > bound {
        return None;
    }
    Some(number)
}

/// The number of a run in a path. What is no such number is run 0, which is never held.
pub(crate) fn run_in_path(text: &[u8]) -> u32
    ensures { result ≡ or_zero (number_of run_bound text.now) }
{
    match number(RUN_BOUND, text) {
        Some(number) => number as u32,
        None => 0,
    }
}
