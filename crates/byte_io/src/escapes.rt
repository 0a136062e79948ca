// Names as they are printed.
ghost use Rattle.std.specs.Prelude.{◌≡◌, ◌++◌, OnOk};
ghost use Rattle.byte_io.specs.Escapes.{hexadecimal, escape, escaped};

use std::alloc::AllocError;

const DIGITS: [u8; 16] = *b"0123456789abcdef";

/// Adds a byte by two hexadecimal digits.
fn push_hexadecimal(text: &mut Vec<u8>, byte: u8) -> Result<(), AllocError>
    ensures { OnOk result (text.new.items ≡ text.old.items ++ hexadecimal byte) }
{
    text.extend_from_slice(b"\\x")?;
    text.push(DIGITS[usize::from(byte / 16)])?;
    text.push(DIGITS[usize::from(byte % 16)])?;
    Ok(())
}

/// Adds a byte of a name.
fn push_byte(text: &mut Vec<u8>, byte: u8) -> Result<(), AllocError>
    ensures { OnOk result (text.new.items ≡ text.old.items ++ escape byte) }
{
    if byte == b'\\' {
        text.extend_from_slice(b"\\\\")?;
    } else if byte.is_ascii_control() {
        push_hexadecimal(text, byte)?;
    } else {
        text.push(byte)?;
    }
    Ok(())
}

/// Adds a name, so that it stays on one line: a backslash is doubled, and a control code is `\x` and
/// two digits.
pub fn push_escaped(text: &mut Vec<u8>, name: &[u8]) -> Result<(), AllocError>
    ensures { OnOk result (text.new.items ≡ text.old.items ++ escaped name.now) }
{
    for byte in name {
        push_byte(text, *byte)?;
    }
    Ok(())
}
