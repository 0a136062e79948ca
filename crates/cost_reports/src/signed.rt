// Whole numbers with a sign.
ghost use Rattle.std.specs.Prelude.{◌≡◌, ◌++◌, OnOk};
ghost use Rattle.report_texts.specs.Differences.{less, signed_text};

use crate::numbers::push_number;
use report_texts::Signed;
use std::alloc::AllocError;

/// One number less another.
pub(crate) fn less(first: u128, second: u128) -> Signed
    ensures { result ≡ less first second }
{
    if first < second {
        Signed {
            size: second - first,
            below: true,
        }
    } else {
        Signed {
            size: first - second,
            below: false,
        }
    }
}

/// Adds a number, with its sign if it is below 0.
pub(crate) fn push_signed(text: &mut Vec<u8>, number: Signed) -> Result<(), AllocError>
    ensures { OnOk result (text.new.items ≡ text.old.items ++ signed_text number) }
{
    if number.below {
        text.push(b'-')?;
    }
    push_number(text, number.size)
}
