// Numbers in fields.
ghost use Rattle.std.specs.Prelude.{◌≡◌, ◌*◌, ◌+◌, ◌<◌, ◌≤◌, ◌^◌, IsTrue, IfOk, MatchOption, if◌then◌else◌};
ghost use Rattle.std.specs.List.{list_all};
ghost use Rattle.cg_text.specs.declared.faults.Fault.TheVariants.{BadNumber, NumberTooLarge};
ghost use Rattle.cg_text.specs.Numbers.{is_digit, is_hex_digit, digit_value, value_in, digits_in, number_of, amount_of};

use crate::faults::Fault;

/// Whether a byte is a decimal digit.
#[inline(always)]
pub fn is_digit(b: u8) -> bool
    ensures { result ≡ is_digit b }
{
    b'0' <= b && b <= b'9'
}

/// Whether a byte is a hexadecimal digit of either case.
fn is_hex_digit(b: u8) -> bool
    ensures { result ≡ is_hex_digit b }
{
    is_digit(b) || (b'A' <= b && b <= b'F') || (b'a' <= b && b <= b'f')
}

/// What a digit represents.
fn digit_value(b: u8) -> u64
    ensures { result ≡ digit_value b }
{
    if b <= b'9' {
        u64::from(b.saturating_sub(b'0'))
    } else if b <= b'F' {
        u64::from(b.saturating_sub(b'A' - 10))
    } else {
        u64::from(b.saturating_sub(b'a' - 10))
    }
}

/// What digits represent in a base, or nothing where that is 2^64 or more.
pub fn value_in(base: u64, digits: &[u8]) -> Option<u64>
    requires { 0 < base }
    ensures { MatchOption result (2 ^ 64 ≤ value_in base digits.now) (λ n. n ≡ value_in base digits.now) }
{
    let mut value: u64 = 0;
    for b in digits {
        value = value.checked_mul(base)?.checked_add(digit_value(*b))?;
    }
    Some(value)
}

/// Whether each byte is a decimal digit.
fn all_digits(field: &[u8]) -> bool
    ensures { result ≡ list_all is_digit field.now }
{
    field.iter().all(|b| is_digit(*b))
}

/// Whether each byte is a hexadecimal digit.
fn all_hex_digits(field: &[u8]) -> bool
    ensures { result ≡ list_all is_hex_digit field.now }
{
    field.iter().all(|b| is_hex_digit(*b))
}

/// One more decimal digit behind a number, or nothing where that is 2^64 or more.
#[inline(always)]
fn with_digit(value: u64, digit: u8) -> Option<u64>
    requires { IsTrue (is_digit digit) }
    ensures { MatchOption result (2 ^ 64 ≤ value * 10 + digit_value digit) (λ n. n ≡ value * 10 + digit_value digit) }
{
    value.checked_mul(10)?.checked_add(u64::from(digit - b'0'))
}

/// The fault of digits whose number is too large, unless one of them is none.
fn large_or_bad(digits: &[u8]) -> Fault
    ensures { result ≡ (if list_all is_digit digits.now then NumberTooLarge else BadNumber) }
{
    if all_digits(digits) {
        Fault::NumberTooLarge
    } else {
        Fault::BadNumber
    }
}

/// The number of decimal digits, in one pass.
#[inline(always)]
fn decimal(digits: &[u8]) -> Result<u64, Fault>
    ensures { result ≡ digits_in 10 is_digit digits.now }
{
    if digits.is_empty() {
        return Err(Fault::BadNumber);
    }
    let mut value: u64 = 0;
    for b in digits {
        if !is_digit(*b) {
            return Err(Fault::BadNumber);
        }
        match with_digit(value, *b) {
            Some(next) => value = next,
            None => return Err(large_or_bad(digits)),
        }
    }
    Ok(value)
}

/// The number of hexadecimal digits.
fn hexadecimal(digits: &[u8]) -> Result<u64, Fault>
    ensures { result ≡ digits_in 16 is_hex_digit digits.now }
{
    if digits.is_empty() || !all_hex_digits(digits) {
        return Err(Fault::BadNumber);
    }
    value_in(16, digits).ok_or(Fault::NumberTooLarge)
}

/// The number that a field is: one or more decimal digits, or `0x` and one or more hexadecimal
/// digits. Else `BadNumber`, or `NumberTooLarge` for a number of 2^64 or more.
#[tactic(auto, unfolding(crate::specs::Numbers::number_of))]
#[inline(always)]
pub fn number(field: &[u8]) -> Result<u64, Fault>
    ensures { result ≡ number_of field.now }
{
    match field {
        [b'0', b'x', digits @ ..] => hexadecimal(digits),
        _ => decimal(field),
    }
}

/// The cost, count or stated total that a field is: a number below 2^63, else `NumberTooLarge`.
#[tactic(auto, unfolding(crate::specs::Numbers::amount_of))]
#[inline(always)]
pub fn amount(field: &[u8]) -> Result<u64, Fault>
    ensures value { result ≡ amount_of field.now }
    ensures small { IfOk result (λ n. n < 2 ^ 63) }
{
    let n = number(field)?;
    if n >= 1 << 63 {
        return Err(Fault::NumberTooLarge);
    }
    Ok(n)
}
