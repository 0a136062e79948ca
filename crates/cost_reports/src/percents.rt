// Parts of a total in percent.
ghost use Rattle.std.specs.Prelude.{◌≡◌, ◌++◌, ◌<◌, OnOk};
ghost use Rattle.cost_rows.specs.KeySums.{sum_end};
ghost use Rattle.report_texts.specs.Percents.{hundredths, percent};

use crate::numbers::push_number;
use std::alloc::AllocError;

/// A cost in hundredths of a percent of a total, rounded down, and 0 of nothing.
fn hundredths(cost: u128, total: u128) -> u128
    requires { cost < sum_end }
    ensures { result ≡ hundredths cost total }
{
    if total == 0 { 0 } else { 10_000 * cost / total }
}

/// Adds a cost in percent of a total, with two decimals.
pub(crate) fn push_percent(text: &mut Vec<u8>, cost: u128, total: u128) -> Result<(), AllocError>
    requires { cost < sum_end }
    ensures { OnOk result (text.new.items ≡ text.old.items ++ percent cost total) }
{
    let n = hundredths(cost, total);
    let part = (n % 100) as u8;
    push_number(text, n / 100)?;
    text.extend_from_slice(&[b'.', b'0' + part / 10, b'0' + part % 10, b'%'])
}
