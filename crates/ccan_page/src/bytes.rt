//! A text that is written piece by piece, and the pieces of JSON.
ghost use Rattle.std.specs.Prelude.{◌≡◌, ◌++◌, ◌∷◌, [], ◌<◌, OnOk, decimal, false, true};
ghost use Rattle.std.specs.List.{flat_map, list_all};
ghost use Rattle.std.specs.Fmt.{digit_glyph};
ghost use Rattle.ccan_page.specs.Json.{data_member, hex_text, named, number_member, string_glyph, string_text, switch_member, word_member};
ghost use Rattle.ccan_page.specs.PageText.{is_no_less, shielded, shielded_byte};

use itoa::Buffer;
use std::alloc::{AllocError, Global};
use std::marker::Model;

/// A text in UTF-8, as its bytes.
#[derive(Drop)]
pub struct Bytes {
    all: Vec<u8>,
}

impl Model for Bytes {
    ghost use Rattle.std.specs.Prelude.{ℕ, List};

    ghost Value = { List ℕ };

    ghost view = { λ a. a.all.items };
}

/// The digit of a number below 16, as its byte.
fn digit(value: u8) -> u8
    requires { value < 16 }
    ensures { result ≡ digit_glyph false value }
{
    if value < 10 {
        b'0' + value
    } else {
        b'a' + (value - 10)
    }
}

impl Bytes {
    /// No byte yet.
    pub fn new(alloc: Global) -> Bytes
        ensures { result ≡ [] }
    {
        Bytes {
            all: Vec::new(alloc),
        }
    }

    /// All bytes so far.
    pub fn as_slice(&self) -> &[u8]
        ensures { result.now ≡ self.now }
    {
        self.all.as_slice()
    }

    /// All bytes so far, and nothing else.
    pub fn into_vec(self) -> Vec<u8>
        ensures { result.items ≡ self }
    {
        self.all
    }

    /// Appends bytes.
    pub fn push_bytes(&mut self, bytes: &[u8]) -> Result<(), AllocError>
        ensures { OnOk result (self.new ≡ self.old ++ bytes.now) }
    {
        self.all.extend_from_slice(bytes)
    }

    /// Appends words as they are.
    pub fn push_str(&mut self, words: &str) -> Result<(), AllocError>
        ensures { OnOk result (self.new ≡ self.old ++ words.now) }
    {
        self.push_bytes(words.as_bytes())
    }

    /// Appends one byte.
    fn push_byte(&mut self, byte: u8) -> Result<(), AllocError>
        ensures { OnOk result (self.new ≡ self.old ++ byte ∷ []) }
    {
        self.push_bytes(&[byte])
    }

    /// Appends a number in decimal.
    pub fn push_number(&mut self, number: u64) -> Result<(), AllocError>
        ensures { OnOk result (self.new ≡ self.old ++ decimal number) }
    {
        let mut buffer = Buffer::new();
        self.push_str(buffer.format(number))
    }

    /// Appends a byte as two hexadecimal digits.
    fn push_hex(&mut self, byte: u8) -> Result<(), AllocError>
        ensures { OnOk result (self.new ≡ self.old ++ hex_text byte) }
    {
        self.push_bytes(&[digit(byte / 16), digit(byte % 16)])
    }

    /// Appends each of some bytes as two hexadecimal digits.
    fn push_hexes(&mut self, bytes: &[u8]) -> Result<(), AllocError>
        ensures { OnOk result (self.new ≡ self.old ++ flat_map hex_text bytes.now) }
    {
        for byte in bytes {
            self.push_hex(*byte)?;
        }
        Ok(())
    }

    /// Appends a byte of a string of JSON.
    #[tactic(auto, unfolding(crate::specs::Json::string_glyph))]
    fn push_glyph(&mut self, byte: u8) -> Result<(), AllocError>
        ensures { OnOk result (self.new ≡ self.old ++ string_glyph byte) }
    {
        if byte == b'"' {
            self.push_str("\\\"")
        } else if byte == b'\\' {
            self.push_str("\\\\")
        } else if byte < b' ' {
            self.push_str("\\u00")?;
            self.push_hex(byte)
        } else {
            self.push_byte(byte)
        }
    }

    /// Appends the bytes of a string of JSON.
    fn push_glyphs(&mut self, bytes: &[u8]) -> Result<(), AllocError>
        ensures { OnOk result (self.new ≡ self.old ++ flat_map string_glyph bytes.now) }
    {
        for byte in bytes {
            self.push_glyph(*byte)?;
        }
        Ok(())
    }

    /// Appends these bytes as a string of JSON.
    pub fn push_string(&mut self, bytes: &[u8]) -> Result<(), AllocError>
        ensures { OnOk result (self.new ≡ self.old ++ string_text bytes.now) }
    {
        self.push_str("\"")?;
        self.push_glyphs(bytes)?;
        self.push_str("\"")
    }

    /// Appends a comma, the name of a member and a colon.
    pub fn push_name(&mut self, name: &str) -> Result<(), AllocError>
        ensures { OnOk result (self.new ≡ self.old ++ named name.now) }
    {
        self.push_str(",\"")?;
        self.push_str(name)?;
        self.push_str("\":")
    }

    /// Appends a member that is a number.
    pub fn push_number_member(&mut self, name: &str, value: u64) -> Result<(), AllocError>
        ensures { OnOk result (self.new ≡ self.old ++ number_member name.now value) }
    {
        self.push_name(name)?;
        self.push_number(value)
    }

    /// Appends a member that is 0 or 1.
    pub fn push_switch(&mut self, name: &str, is: bool) -> Result<(), AllocError>
        ensures { OnOk result (self.new ≡ self.old ++ switch_member name.now is) }
    {
        self.push_name(name)?;
        self.push_str(if is { "1" } else { "0" })
    }

    /// Appends a member that is a string.
    pub fn push_word(&mut self, name: &str, word: &[u8]) -> Result<(), AllocError>
        ensures { OnOk result (self.new ≡ self.old ++ word_member name.now word.now) }
    {
        self.push_name(name)?;
        self.push_string(word)
    }

    /// Appends a member `data` that has two hexadecimal digits for each of some bytes.
    pub fn push_data(&mut self, bytes: &[u8]) -> Result<(), AllocError>
        ensures { OnOk result (self.new ≡ self.old ++ data_member bytes.now) }
    {
        self.push_name("data")?;
        self.push_str("\"")?;
        self.push_hexes(bytes)?;
        self.push_str("\"")
    }

    /// Appends a byte of JSON, or its escape if it is a `<`.
    #[tactic(auto, unfolding(crate::specs::PageText::shielded_byte))]
    fn push_shielded_byte(&mut self, byte: u8) -> Result<(), AllocError>
        ensures { OnOk result (self.new ≡ self.old ++ shielded_byte byte) }
    {
        if byte == b'<' {
            self.push_str("\\u003c")
        } else {
            self.push_byte(byte)
        }
    }

    /// Appends JSON, with the escape in place of each `<`. It means the same, since only strings have a `<`.
    #[tactic(auto, using(crate::proofs::NoLess::none_is_less))]
    pub fn push_shielded(&mut self, json: &[u8]) -> Result<(), AllocError>
        ensures pushed { OnOk result (self.new ≡ self.old ++ shielded json.now) }
        ensures no_less { list_all is_no_less (shielded json.now) ≡ true }
    {
        for byte in json {
            self.push_shielded_byte(*byte)?;
        }
        Ok(())
    }
}
