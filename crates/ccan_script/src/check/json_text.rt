//! Places in a JSON text. Whether the text is JSON is not checked here: these functions are safe for all bytes, and find the
//! places if it is.

/// Where a scan of a text is.
#[derive(Clone, Copy, PartialEq, Eq, Debug)]
enum Inside {
    Nothing,
    Text,
    /// In a text, after a backslash.
    Escape,
}

/// A member of an object or an item of a list, in the text: offsets from the text's beginning.
#[derive(Clone, Copy, Debug)]
pub(crate) struct Child {
    /// Where its name begins, with the quote; for an item, where its value begins.
    pub(crate) begin: usize,
    /// Where the name ends; for an item, where the item begins.
    pub(crate) name_end: usize,
    /// Where its value begins.
    pub(crate) value: usize,
    /// Where its value ends.
    pub(crate) end: usize,
}

fn is_space(byte: u8) -> bool {
    matches!(byte, b' ' | b'\t' | b'\n' | b'\r')
}

/// The offset of the first byte that is not a space, from this offset on.
pub(crate) fn after_spaces(text: &[u8], offset: usize) -> usize {
    let rest = text.get(offset..).unwrap_or(&[]);
    offset.saturating_add(rest.iter().take_while(|byte| is_space(**byte)).count())
}

/// How a text goes on after a byte of it.
fn inside_after(inside: Inside, byte: u8) -> Inside {
    match inside {
        Inside::Text if byte == b'\\' => Inside::Escape,
        Inside::Text if byte == b'"' => Inside::Nothing,
        Inside::Nothing if byte != b'"' => Inside::Nothing,
        Inside::Text | Inside::Nothing | Inside::Escape => Inside::Text,
    }
}

/// Where the value that begins at an offset ends.
pub(crate) fn value_end(text: &[u8], offset: usize) -> usize {
    let rest = text.get(offset..).unwrap_or(&[]);
    let mut inside = Inside::Nothing;
    let mut depth = 0usize;
    for (place, byte) in rest.iter().enumerate() {
        let was = inside;
        inside = inside_after(was, *byte);
        let ends_text = was == Inside::Text && inside == Inside::Nothing;
        if was == Inside::Nothing {
            match *byte {
                b'{' | b'[' => depth = depth.saturating_add(1),
                b'}' | b']' if depth > 0 => depth -= 1,
                b'}' | b']' | b',' | b':' if depth == 0 => return offset.saturating_add(place),
                _ if depth == 0 && is_space(*byte) => return offset.saturating_add(place),
                _ => {}
            }
        }
        if depth == 0 && (ends_text || matches!(*byte, b'}' | b']') && inside == Inside::Nothing) {
            return offset.saturating_add(place).saturating_add(1);
        }
    }
    text.len()
}

/// Where the value of the item that follows an offset begins, and where the item ends; the offset for both, if none follows.
pub(crate) fn item_after(text: &[u8], offset: usize) -> (usize, usize) {
    match child_after(text, offset) {
        Some(child) => (child.value, child.end),
        None => (offset, offset),
    }
}

/// The member or item that follows an offset, after a comma or an opening bracket.
pub(crate) fn child_after(text: &[u8], offset: usize) -> Option<Child> {
    let mut begin = after_spaces(text, offset);
    if let Some(b',' | b'{' | b'[') = text.get(begin) {
        begin = after_spaces(text, begin.saturating_add(1));
    }
    if let None | Some(b'}' | b']') = text.get(begin) {
        return None;
    }
    let first_end = value_end(text, begin);
    let colon = after_spaces(text, first_end);
    if text.get(colon) != Some(&b':') {
        return Some(Child {
            begin,
            name_end: begin,
            value: begin,
            end: first_end,
        });
    }
    let value = after_spaces(text, colon.saturating_add(1));
    Some(Child {
        begin,
        name_end: first_end,
        value,
        end: value_end(text, value),
    })
}
