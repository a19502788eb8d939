ghost use Rattle.std.specs.Prelude.{◌≡◌, ◌+◌, ◌*◌, ◌<◌, ◌≤◌, ◌++◌, ◌∷◌, [], length, false, decimal};
ghost use Rattle.std.specs.Fmt.{digit_glyph};
ghost use Rattle.arrayvec.specs.ArrayString.{array_string_len};
ghost use Rattle.ccan_script.specs.PrintedLine.{hex, two_digits, bit_text, hex_bytes, record_text, verb_text, shown_text};

use arrayvec::ArrayString;
use ccan_object::{ObjectNo, Record};

/// A line of the output, as it is printed. It has at most 80 bytes, its end included.
pub type PrintedLine = ArrayString<80>;

fn digit(value: u32) -> char
    requires { value < 16 }
    ensures glyph { result ≡ digit_glyph false value }
    ensures ascii { result < 128 }
{
    if value < 10 {
        (b'0' + value as u8) as char
    } else {
        (b'a' + (value as u8 - 10)) as char
    }
}

/// Appends a number in hexadecimal, with this many digits.
#[tactic(auto, unfolding(crate::specs::PrintedLine::hex))]
pub(crate) fn push_hex(line: &mut PrintedLine, digits: u32, value: u64)
    requires digits { digits ≤ 16 }
    requires room { array_string_len line.old + digits ≤ 80 }
    ensures bytes { line.new.bytes ≡ line.old.bytes ++ hex digits value }
    ensures len { array_string_len line.new ≡ array_string_len line.old + digits }
{
    for place in (0..digits).rev() {
        line.push(digit(((value >> (4 * place)) % 16) as u32));
    }
}

/// Appends an object's number in two decimal digits.
#[tactic(auto, unfolding(crate::specs::PrintedLine::two_digits))]
pub(crate) fn push_object(line: &mut PrintedLine, object: ObjectNo)
    requires { array_string_len line.old + 2 ≤ 80 }
    ensures bytes { line.new.bytes ≡ line.old.bytes ++ two_digits object }
    ensures len { array_string_len line.new ≡ array_string_len line.old + 2 }
{
    let number = object.get();
    line.push(digit(u32::from(number / 10)));
    line.push(digit(u32::from(number % 10)));
}

/// Appends two hexadecimal digits for each byte.
#[tactic(auto, unfolding(crate::specs::PrintedLine::hex_bytes))]
fn push_bytes(line: &mut PrintedLine, bytes: &[u8])
    requires { array_string_len line.old + 2 * length bytes.now ≤ 80 }
    ensures bytes { line.new.bytes ≡ line.old.bytes ++ hex_bytes bytes.now }
    ensures len { array_string_len line.new ≡ array_string_len line.old + 2 * length bytes.now }
{
    for byte in bytes {
        push_hex(line, 2, u64::from(*byte));
    }
}

/// Appends the four fields of a record, a space before each.
#[tactic(auto, unfolding(crate::specs::PrintedLine::record_text))]
pub(crate) fn push_record(line: &mut PrintedLine, object: &Record)
    requires { array_string_len line.old + 40 ≤ 80 }
    ensures bytes { line.new.bytes ≡ line.old.bytes ++ record_text object.now }
    ensures len { array_string_len line.new ≡ array_string_len line.old + 40 }
{
    line.push_str(" ");
    push_hex(line, 8, u64::from(object.arbitration()));
    line.push_str(" ");
    push_hex(line, 8, u64::from(object.masks()));
    line.push_str(" ");
    push_hex(line, 4, u64::from(object.control()));
    line.push_str(" ");
    push_bytes(line, &object.bytes);
}

/// Appends a word and the number of an object, a space between them.
#[tactic(auto, unfolding(crate::specs::PrintedLine::verb_text))]
pub(crate) fn push_verb(line: &mut PrintedLine, verb: &str, object: ObjectNo)
    requires { array_string_len line.old + length verb.now + 3 ≤ 80 }
    ensures bytes { line.new.bytes ≡ line.old.bytes ++ verb_text verb.now object }
    ensures len { array_string_len line.new ≡ array_string_len line.old + length verb.now + 3 }
{
    line.push_str(verb);
    line.push_str(" ");
    push_object(line, object);
}

/// Appends a word, the number of an object and its record.
#[tactic(auto, unfolding(crate::specs::PrintedLine::shown_text))]
pub(crate) fn push_shown(line: &mut PrintedLine, verb: &str, object: ObjectNo, shown: &Record)
    requires { array_string_len line.old + length verb.now + 43 ≤ 80 }
    ensures bytes { line.new.bytes ≡ line.old.bytes ++ shown_text verb.now object shown.now }
    ensures len { array_string_len line.new ≡ array_string_len line.old + length verb.now + 43 }
{
    push_verb(line, verb, object);
    push_record(line, shown);
}

/// Appends a bit as 0 or 1.
#[tactic(auto, unfolding(crate::specs::PrintedLine::bit_text))]
pub(crate) fn push_bit(line: &mut PrintedLine, bit: bool)
    requires { array_string_len line.old + 1 ≤ 80 }
    ensures bytes { line.new.bytes ≡ line.old.bytes ++ bit_text bit }
    ensures len { array_string_len line.new ≡ array_string_len line.old + 1 }
{
    line.push_str(if bit { "1" } else { "0" });
}

/// Appends a decimal digit.
fn push_digit(line: &mut PrintedLine, value: u16)
    requires digit { value < 10 }
    requires room { array_string_len line.old + 1 ≤ 80 }
    ensures bytes { line.new.bytes ≡ line.old.bytes ++ digit_glyph false value ∷ [] }
    ensures len { array_string_len line.new ≡ array_string_len line.old + 1 }
{
    line.push(digit(u32::from(value)));
}

/// Appends a number in decimal, without leading zeros.
#[tactic(auto, using(crate::proofs::Decimals::digit_by_digit))]
fn push_decimal(line: &mut PrintedLine, value: u16)
    requires { array_string_len line.old + length (decimal value) ≤ 80 }
    ensures bytes { line.new.bytes ≡ line.old.bytes ++ decimal value }
    ensures len { array_string_len line.new ≡ array_string_len line.old + length (decimal value) }
{
    if value < 10 {
        push_digit(line, value);
    } else {
        push_decimal(line, value / 10);
        push_digit(line, value % 10);
    }
}

/// Appends a space and a number in decimal.
#[tactic(auto, using(crate::proofs::Decimals::decimal_short))]
pub(crate) fn push_number(line: &mut PrintedLine, value: u16)
    requires { array_string_len line.old + 6 ≤ 80 }
    ensures bytes { line.new.bytes ≡ line.old.bytes ++ 32 ∷ decimal value }
    ensures len { array_string_len line.new ≤ array_string_len line.old + 6 }
{
    line.push_str(" ");
    push_decimal(line, value);
}
