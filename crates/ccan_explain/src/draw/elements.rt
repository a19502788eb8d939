//! The elements of SVG that a picture has.
use crate::draw::escape::push_escaped;
use crate::push_decimal;
use std::alloc::AllocError;

/// Where an element is, and how large it is.
#[derive(Clone, Copy, PartialEq, Eq, Debug)]
pub struct Area {
    /// Its left.
    pub x: u64,
    /// Its top.
    pub y: u64,
    /// How wide it is.
    pub width: u64,
    /// How high it is.
    pub height: u64,
}

/// Appends an attribute that is a number.
pub fn push_number(text: &mut String, name: &str, value: u64) -> Result<(), AllocError> {
    text.push_str(" ")?;
    text.push_str(name)?;
    text.push_str("=\"")?;
    push_decimal(text, value)?;
    text.push_str("\"")
}

/// Appends a rectangle of a class.
pub fn push_area(text: &mut String, class: &str, area: &Area) -> Result<(), AllocError> {
    text.push_str("<rect class=\"")?;
    text.push_str(class)?;
    text.push_str("\"")?;
    push_number(text, "x", area.x)?;
    push_number(text, "y", area.y)?;
    push_number(text, "width", area.width)?;
    push_number(text, "height", area.height)?;
    text.push_str("/>\n")
}

/// Appends a line of text; `y` is its baseline.
pub fn push_words(
    text: &mut String,
    class: &str,
    x: u64,
    y: u64,
    words: &str,
) -> Result<(), AllocError> {
    text.push_str("<text class=\"")?;
    text.push_str(class)?;
    text.push_str("\"")?;
    push_number(text, "x", x)?;
    push_number(text, "y", y)?;
    text.push_str(">")?;
    push_escaped(text, words)?;
    text.push_str("</text>\n")
}
