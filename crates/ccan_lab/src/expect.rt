//! What a script's run has to print, for tests: the text is compared, and the first line that differs is reported.

ghost use Rattle.std.specs.Prelude.{◌≡◌, ◌≢◌, ◌<◌, ◌≤◌, IfOk, IfSome, IfNone, length, option_map, slice_index, string_bytes, take};
ghost use Rattle.ccan_line.specs.Script.{fields_of};
ghost use Rattle.ccan_run.specs.Ordered.{HasText};
ghost use Rattle.ccan_lab.specs.Expect.{ComparesRun, IsFirstDifference, TellsDifference, TellsOf};

use crate::lab_error::LabError;
use ccan_run::{RunError, run_ordered};
use ccan_script::Script;
use ccan_script::check::{Place, Remark, remark_line};
use std::alloc::{AllocError, Global};

/// The most bytes of a line that are shown.
const MOST_SHOWN: usize = 80;

/// The text that a run of the script in its order prints.
fn text_of_run(alloc: Global, script: &Script) -> Result<Vec<u8>, LabError>
    ensures { IfOk result (λ text. HasText (fields_of script.now) text.items) }
{
    let mut text = Vec::new(alloc);
    match run_ordered(alloc, script, &mut text) {
        Ok(()) => Ok(text),
        // A write to memory fails if memory runs out.
        Err(RunError::Write) => Err(LabError::Memory),
        Err(fault) => Err(LabError::Input(fault)),
    }
}

/// How many bytes are the same at the beginning of both texts.
fn same_bytes(expected: &[u8], printed: &[u8]) -> usize
    ensures within { result ≤ length expected.now }
    ensures within_printed { result ≤ length printed.now }
    ensures same { take result expected.now ≡ take result printed.now }
    ensures apart { result < length expected.now → result < length printed.now
        → slice_index expected.now result ≢ slice_index printed.now result }
{
    for offset in 0..expected.len() {
        if offset >= printed.len() {
            return offset;
        }
        if expected[offset] != printed[offset] {
            return offset;
        }
    }
    expected.len()
}

/// How many bytes are the same before the first that is not; `None` if both texts are the same.
#[tactic(auto, using(crate::proofs::Differ::all_same))]
fn first_difference(expected: &[u8], printed: &[u8]) -> Option<usize>
    ensures same { IfNone result (printed.now ≡ expected.now) }
    ensures first { IfSome result (IsFirstDifference expected.now printed.now) }
{
    let same = same_bytes(expected, printed);
    if same < expected.len() || same < printed.len() {
        Some(same)
    } else {
        None
    }
}

/// The rest of a text from the beginning of the line in which this offset is.
fn rest_from_line(text: &[u8], offset: usize) -> &[u8] {
    let column = Place::of(text, offset).column;
    match text.get(offset.saturating_sub(column - 1)..) {
        Some(rest) => rest,
        None => &[],
    }
}

/// Adds a byte as it is shown: as itself, or, if it is no printed character, a quote or a backslash, in hexadecimal.
fn add_shown(text: &mut String, byte: u8) -> Result<(), AllocError> {
    match byte {
        b' '..=b'~' if byte != b'"' && byte != b'\\' => text.push(char::from(byte)),
        _ => text.write_fmt(format_args!("\\x{byte:02x}")),
    }
}

/// Adds a line in quotes, or what there is of it.
fn add_line(text: &mut String, line: &[u8]) -> Result<(), AllocError> {
    text.push_str("\"")?;
    for byte in line.iter().take(MOST_SHOWN) {
        add_shown(text, *byte)?;
    }
    text.push_str("\"")?;
    if MOST_SHOWN < line.len() {
        text.push_str("..")?;
    }
    Ok(())
}

/// Adds the line with which this rest of a text begins.
fn add_first_line(text: &mut String, rest: &[u8]) -> Result<(), AllocError> {
    if rest.is_empty() {
        return text.push_str("the end");
    }
    match rest.iter().position(|byte| *byte == b'\n') {
        Some(end) => add_line(text, &rest[..end]),
        None => {
            add_line(text, rest)?;
            text.push_str(" without a line feed")
        }
    }
}

/// The words for what is expected where both texts differ first, and for what is printed there.
fn words_of(
    alloc: Global,
    expected: &[u8],
    printed: &[u8],
    offset: usize,
) -> Result<String, AllocError> {
    let mut words = String::new(alloc);
    words.push_str("expected ")?;
    add_first_line(&mut words, rest_from_line(expected, offset))?;
    words.push_str(", printed ")?;
    add_first_line(&mut words, rest_from_line(printed, offset))?;
    Ok(words)
}

/// What is reported of two texts that differ first at this offset.
fn told_at(
    alloc: Global,
    file: &str,
    expected: &[u8],
    printed: &[u8],
    offset: usize,
) -> Result<String, AllocError>
    requires { IsFirstDifference expected.now printed.now offset }
    ensures { IfOk result (λ told. TellsDifference file.now expected.now printed.now
        (string_bytes told)) }
{
    let text = words_of(alloc, expected, printed, offset)?;
    remark_line(alloc, file, expected, "", &Remark { offset, text })
}

/// What is reported of two texts that differ. `None` if they are the same.
fn told_difference(
    alloc: Global,
    file: &str,
    expected: &[u8],
    printed: &[u8],
) -> Result<Option<String>, AllocError>
    ensures { IfOk result (λ told. TellsOf file.now expected.now printed.now
        (option_map string_bytes told)) }
{
    match first_difference(expected, printed) {
        Some(offset) => Ok(Some(told_at(alloc, file, expected, printed, offset)?)),
        None => Ok(None),
    }
}

/// Runs the script in its order, and reports the first line that is not as expected. `None` if all of the text is.
///
/// What is expected is in the file of this name.
pub fn compare_run(
    alloc: Global,
    script: &Script,
    file: &str,
    expected: &[u8],
) -> Result<Option<String>, LabError>
    ensures { IfOk result (λ told. ComparesRun (fields_of script.now) file.now expected.now
        (option_map string_bytes told)) }
{
    let printed = text_of_run(alloc, script)?;
    Ok(told_difference(alloc, file, expected, printed.as_slice())?)
}
