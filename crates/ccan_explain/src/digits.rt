//! Numbers as text.
ghost use Rattle.std.specs.Prelude.{◌≡◌, ◌<◌, ◌≤◌, ◌++◌, OnOk, decimal, string_bytes};
ghost use Rattle.std.specs.Fmt.{digit_glyph};
ghost use Rattle.ccan_explain.specs.FrameText.{capital_hex};

use std::alloc::AllocError;

/// The digit of a number below 16.
fn digit(value: u64, is_upper: bool) -> char
    requires { value < 16 }
    ensures glyph { result ≡ digit_glyph is_upper value }
    ensures ascii { result < 128 }
{
    if value < 10 {
        (b'0' + value as u8) as char
    } else if is_upper {
        (b'A' + (value as u8 - 10)) as char
    } else {
        (b'a' + (value as u8 - 10)) as char
    }
}

/// Appends a number in hexadecimal with so many digits, in capitals.
#[tactic(auto, unfolding(crate::specs::FrameText::capital_hex))]
pub fn push_hex(text: &mut String, digits: u32, value: u64) -> Result<(), AllocError>
    requires { digits ≤ 16 }
    ensures { OnOk result
        (string_bytes text.new ≡ string_bytes text.old ++ capital_hex digits value) }
{
    for place in (0..digits).rev() {
        text.push(digit((value >> (4 * place)) % 16, true))?;
    }
    Ok(())
}

/// Appends two hexadecimal digits for each byte, in small letters, as a script has data.
pub(crate) fn push_data(text: &mut String, bytes: &[u8]) -> Result<(), AllocError> {
    for byte in bytes {
        text.push(digit(u64::from(*byte / 16), false))?;
        text.push(digit(u64::from(*byte % 16), false))?;
    }
    Ok(())
}

/// Appends a number in decimal, without leading zeros.
pub fn push_decimal(text: &mut String, value: u64) -> Result<(), AllocError>
    ensures { OnOk result (string_bytes text.new ≡ string_bytes text.old ++ decimal value) }
{
    if value < 10 {
        text.push(digit(value, false))?;
        return Ok(());
    }
    push_decimal(text, value / 10)?;
    text.push(digit(value % 10, false))?;
    Ok(())
}
