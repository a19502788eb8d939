//! Words in lines that are not too long.
use std::alloc::{AllocError, Global};

/// How far a line that goes on is indented.
const INDENT: usize = 4;

/// Appends one line of words as lines of at most this many glyphs; a longer word has a line of its own.
fn push_broken(text: &mut String, line: &str, most: usize) -> Result<(), AllocError> {
    let mut used = 0usize;
    if line.starts_with("  ") {
        text.push_str("  ")?;
        used = 2;
    }
    let mut is_first = true;
    for word in line.split_whitespace() {
        let wanted = used.saturating_add(word.len()).saturating_add(1);
        if is_first {
            used = used.saturating_add(word.len());
        } else if wanted > most {
            text.push_str("\n    ")?;
            used = word.len().saturating_add(INDENT);
        } else {
            text.push_str(" ")?;
            used = wanted;
        }
        text.push_str(word)?;
        is_first = false;
    }
    text.push_str("\n")
}

/// Words broken between two of them, so that no line has more than this many glyphs. A word that is longer has a line of its own.
pub fn wrapped(alloc: Global, words: &str, most: usize) -> Result<String, AllocError> {
    let mut text = String::new(alloc);
    for line in words.lines() {
        push_broken(&mut text, line, most)?;
    }
    Ok(text)
}
