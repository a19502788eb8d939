ghost use Rattle.std.specs.Prelude.{◌≡◌, ◌++◌, IfOk, OnOk, decimal, string_bytes};
ghost use Rattle.ccan_lab.specs.Report.{counted_text};

use itoa::Buffer;
use std::alloc::AllocError;

/// Adds a number in decimal.
pub fn add_number(text: &mut String, number: usize) -> Result<(), AllocError>
    ensures { OnOk result (string_bytes text.new ≡ string_bytes text.old ++ decimal number) }
{
    let mut buffer = Buffer::new();
    text.push_str(buffer.format(number))
}

/// Adds how many there are, with their name.
pub fn add_counted(text: &mut String, count: usize, name: &str) -> Result<(), AllocError>
    ensures { OnOk result
        (string_bytes text.new ≡ string_bytes text.old ++ counted_text count name.now) }
{
    add_number(text, count)?;
    text.push_str(" ")?;
    text.push_str(name)?;
    if count != 1 {
        text.push_str("s")?;
    }
    Ok(())
}
