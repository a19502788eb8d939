//! Where the lines of a script are in its text. Names are found as they are written without escapes.
use crate::check::json_text::{after_spaces, child_after};
use crate::check::spot::member_offset;
use std::alloc::{AllocError, Global};

/// Where a line of a list is in the text.
#[derive(Clone, Copy, PartialEq, Eq, Debug)]
pub struct LineSpan {
    /// The line of the text in which it begins, from 1.
    pub row: usize,
    /// How many bytes come before it.
    pub begin: usize,
    /// How many bytes come before its end.
    pub end: usize,
}

/// Whether a script has a member of this name.
pub fn has_member(text: &[u8], name: &str) -> bool {
    member_offset(text, after_spaces(text, 0), name).is_some()
}

/// How many lines of the text end between two places.
fn rows_between(text: &[u8], from: usize, to: usize) -> usize {
    let bytes = text.get(from..to).unwrap_or(&[]);
    bytes.iter().filter(|byte| **byte == b'\n').count()
}

/// Where the lines of the list of this name are; none if the script has no such list.
pub fn line_spans(alloc: Global, text: &[u8], name: &str) -> Result<Vec<LineSpan>, AllocError> {
    let mut spans = Vec::new(alloc);
    let Some(mut offset) = member_offset(text, after_spaces(text, 0), name) else {
        return Ok(spans);
    };
    let mut row = rows_between(text, 0, offset).saturating_add(1);
    for _line in 0..text.len() {
        let Some(child) = child_after(text, offset) else {
            return Ok(spans);
        };
        row = row.saturating_add(rows_between(text, offset, child.value));
        spans.push(LineSpan {
            row,
            begin: child.value,
            end: child.end,
        })?;
        row = row.saturating_add(rows_between(text, child.value, child.end));
        offset = child.end;
    }
    Ok(spans)
}
