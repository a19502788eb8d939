use crate::check::json_text::{Child, child_after, value_end};
use serde_json::Value;
use std::alloc::{AllocError, Global};

/// The most bytes of a value that are shown.
const MAX_SHOWN: usize = 40;

/// A value of a script, and where it is in the script's text.
#[derive(Clone, Copy)]
pub(crate) struct Spot<'a> {
    pub(crate) value: &'a Value,
    pub(crate) text: &'a [u8],
    /// How many bytes of the text come before the value.
    pub(crate) offset: usize,
}

/// Whether a member has this name, written without escapes.
pub(crate) fn is_named(text: &[u8], child: Child, name: &str) -> bool {
    match text.get(child.begin.saturating_add(1)..child.name_end.saturating_sub(1)) {
        Some(written) => written == name.as_bytes(),
        None => false,
    }
}

/// Where the value of a member begins: the last one of its name, which is the one that counts.
pub(crate) fn member_offset(text: &[u8], object: usize, name: &str) -> Option<usize> {
    let mut found = None;
    let mut offset = object;
    for _member in 0..text.len() {
        let Some(child) = child_after(text, offset) else {
            return found;
        };
        if is_named(text, child, name) {
            found = Some(child.value);
        }
        offset = child.end;
    }
    found
}

impl<'a> Spot<'a> {
    /// The member of this name. If its name is written with escapes, its offset is that of the object.
    pub(crate) fn member(self, name: &str) -> Option<Spot<'a>> {
        let value = self.value.get(name)?;
        let offset = member_offset(self.text, self.offset, name).unwrap_or(self.offset);
        Some(Spot {
            value,
            text: self.text,
            offset,
        })
    }

    /// The value as its text has it, if that is short, or else what kind of value it is.
    pub(crate) fn shown(self) -> &'a str {
        if self.value.is_object() {
            return "an object";
        }
        if self.value.is_array() {
            return "a list";
        }
        let end = value_end(self.text, self.offset);
        if end.saturating_sub(self.offset) > MAX_SHOWN {
            return "a long text";
        }
        match self.text.get(self.offset..end) {
            Some(written) => str::from_utf8(written).unwrap_or("a text"),
            None => "a value",
        }
    }
}

/// These texts, one after another.
pub(crate) fn joined(alloc: Global, parts: &[&str]) -> Result<String, AllocError> {
    let mut text = String::new(alloc);
    for part in parts {
        text.push_str(part)?;
    }
    Ok(text)
}

/// A text with these names behind it, the last of them after "or".
pub(crate) fn with_names(
    alloc: Global,
    beginning: &str,
    names: &[&str],
) -> Result<String, AllocError> {
    let mut text = String::new(alloc);
    text.push_str(beginning)?;
    for (index, name) in names.iter().enumerate() {
        if index > 0 {
            let is_last = index == names.len().saturating_sub(1);
            text.push_str(if is_last { " or " } else { ", " })?;
        }
        text.push_str(name)?;
    }
    Ok(text)
}
