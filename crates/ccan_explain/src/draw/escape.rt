//! Words as XML has them.
ghost use Rattle.std.specs.Prelude.{◌≡◌, ◌++◌, OnOk, string_bytes};
ghost use Rattle.ccan_explain.specs.Escape.{escaped, escaped_glyph};

use std::alloc::AllocError;

/// Appends a byte of words: a character that XML reads as its own by its name, and `?` for what is no printed character of
/// ASCII.
#[tactic(auto, unfolding(crate::specs::Escape::escaped_glyph))]
fn push_glyph(text: &mut String, byte: u8) -> Result<(), AllocError>
    ensures { OnOk result
        (string_bytes text.new ≡ string_bytes text.old ++ escaped_glyph byte) }
{
    if byte == b'&' {
        text.push_str("&amp;")
    } else if byte == b'<' {
        text.push_str("&lt;")
    } else if byte == b'>' {
        text.push_str("&gt;")
    } else if byte == b'"' {
        text.push_str("&quot;")
    } else if byte < b' ' || byte > b'~' {
        text.push_str("?")
    } else {
        text.push(byte as char)
    }
}

/// Appends the bytes of words, so that XML reads them as they are.
fn push_glyphs(text: &mut String, bytes: &[u8]) -> Result<(), AllocError>
    ensures { OnOk result
        (string_bytes text.new ≡ string_bytes text.old ++ escaped bytes.now) }
{
    for byte in bytes {
        push_glyph(text, *byte)?;
    }
    Ok(())
}

/// Appends words, so that XML reads them as they are.
pub fn push_escaped(text: &mut String, words: &str) -> Result<(), AllocError>
    ensures { OnOk result
        (string_bytes text.new ≡ string_bytes text.old ++ escaped words.now) }
{
    push_glyphs(text, words.as_bytes())
}
