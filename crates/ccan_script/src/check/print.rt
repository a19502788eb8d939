ghost use Rattle.std.specs.Prelude.{◌≡◌, IfOk, string_bytes};
ghost use Rattle.ccan_script.specs.RemarkText.{told_text};

use crate::check::place::Place;
use crate::check::report::{Remark, Report};
use std::alloc::{AllocError, Global};

/// The line of a remark on a file that has these bytes: the file, the line and the column, and what is said, after a label.
pub fn remark_line(
    alloc: Global,
    file: &str,
    bytes: &[u8],
    label: &str,
    remark: &Remark,
) -> Result<String, AllocError>
    ensures { IfOk result (λ text. string_bytes text
        ≡ told_text file.now bytes.now remark.now.offset label.now (string_bytes remark.now.text)) }
{
    let Place { line, column } = Place::of(bytes, remark.offset);
    let words = remark.text.as_str();
    format!(in alloc; "{file}:{line}:{column}: {label}{words}\n")
}

/// Adds the lines of the warnings.
fn add_warnings(
    alloc: Global,
    text: &mut String,
    file: &str,
    bytes: &[u8],
    warnings: &[Remark],
) -> Result<(), AllocError> {
    for remark in warnings {
        let line = remark_line(alloc, file, bytes, "warning: ", remark)?;
        text.push_str(line.as_str())?;
    }
    Ok(())
}

/// All lines of a report on a file that has these bytes: first the faults, then the warnings.
pub fn print_report(
    alloc: Global,
    file: &str,
    bytes: &[u8],
    report: &Report,
) -> Result<String, AllocError> {
    let mut text = String::new(alloc);
    for fault in report.faults.as_slice() {
        let line = remark_line(alloc, file, bytes, "", &fault.remark)?;
        text.push_str(line.as_str())?;
    }
    add_warnings(alloc, &mut text, file, bytes, report.warnings.as_slice())?;
    Ok(text)
}
