use crate::check::json_text::after_spaces;
use serde_json::Error;

/// What is said at the end of a text that ends too early.
const ENDS: &str = "not JSON: the text ends here; a bracket, a brace or a quote is open";

/// How many bytes come before a line and column, which count from 1.
fn offset_of(text: &[u8], line: usize, column: usize) -> usize {
    let mut lines = 1usize;
    for (place, byte) in text.iter().enumerate() {
        if lines >= line {
            return place
                .saturating_add(column.saturating_sub(1))
                .min(text.len());
        }
        if *byte == b'\n' {
            lines = lines.saturating_add(1);
        }
    }
    text.len()
}

/// The last byte before an offset that is not a space.
fn byte_before(text: &[u8], offset: usize) -> Option<u8> {
    let before = text.get(..offset)?;
    before
        .iter()
        .rev()
        .find(|byte| !matches!(**byte, b' ' | b'\t' | b'\n' | b'\r'))
        .copied()
}

/// What a text that begins like this is, if that is why it is not JSON.
fn fault_of_begin(text: &[u8]) -> Option<&'static str> {
    if after_spaces(text, 0) >= text.len() {
        return Some("not JSON: the file is empty; the least script is {}");
    }
    match text {
        [0xef, 0xbb, 0xbf, ..] => {
            Some("not JSON: a byte order mark; save the file as UTF-8 without one")
        }
        [0xff, 0xfe, ..] | [0xfe, 0xff, ..] => Some("not JSON: UTF-16; save the file as UTF-8"),
        _ => None,
    }
}

/// What a number that is not JSON usually is, by its first two bytes.
fn number_fault(first: u8, second: Option<u8>) -> Option<&'static str> {
    match (first, second) {
        (b'0', Some(b'x' | b'X')) => Some(
            "not JSON: JSON has no hexadecimal numbers; write a text of four digits, or a decimal number",
        ),
        (b'0', Some(b'0'..=b'9')) => Some("not JSON: a number begins with no needless 0"),
        _ => None,
    }
}

/// What a byte at which a text stops being JSON usually is, after this byte that is not a space.
fn byte_fault(byte: u8, before: Option<u8>) -> &'static str {
    match (byte, before) {
        (b'}' | b']', Some(b',')) => "not JSON: a comma too many before this bracket",
        (b'/' | b'#', _) => "not JSON: JSON has no comments",
        (b'"' | b'{' | b'[', Some(b'"' | b'}' | b']' | b'0'..=b'9')) => {
            "not JSON: a comma is missing before this"
        }
        (b'\'' | b'a'..=b'z' | b'A'..=b'Z' | b'_', _) => {
            "not JSON: texts and names stand in double quotes"
        }
        (0x80.., _) => "not JSON: this character stands outside of a text",
        _ => "not JSON",
    }
}

/// What is usually at an offset where a text stops being JSON.
fn fault_at(text: &[u8], offset: usize) -> &'static str {
    let Some(byte) = text.get(offset).copied() else {
        return ENDS;
    };
    let second = text.get(offset.saturating_add(1)).copied();
    match number_fault(byte, second) {
        Some(fault) => fault,
        None => byte_fault(byte, byte_before(text, offset)),
    }
}

/// Where a text stops being JSON by the parser's error, and what it usually is.
pub(crate) fn json_fault(text: &[u8], error: &Error) -> (usize, &'static str) {
    if let Some(fault) = fault_of_begin(text) {
        return (0, fault);
    }
    if let Err(stop) = str::from_utf8(text) {
        return (stop.valid_up_to(), "not JSON: these bytes are no UTF-8");
    }
    if error.is_eof() {
        return (text.len(), ENDS);
    }
    let offset = offset_of(text, error.line(), error.column());
    (offset, fault_at(text, offset))
}
