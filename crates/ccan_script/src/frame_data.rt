ghost use Rattle.std.specs.Prelude.{◌≡◌, ◌≤◌, ◌*◌, ◌%◌, true, [], Some, None, IfSome, length};
ghost use Rattle.std.specs.Prelude.{option_map, unwrap_or, if◌then◌else◌};
ghost use Rattle.serde_json.specs.View.{view};
ghost use Rattle.ccan_script.specs.FrameLine.{is_data_text, data_in, eight_bytes};

use crate::json::{are_hexadecimal, two_digits};
use serde_json::Value;

/// Whether the text has two hexadecimal digits for each byte.
#[tactic(auto, unfolding(crate::specs::FrameLine::is_data_text))]
pub(crate) fn is_data_text(text: &str) -> bool
    ensures { result ≡ is_data_text text.now }
{
    text.len() % 2 == 0 && are_hexadecimal(text.as_bytes())
}

/// The text, if it is data.
fn data_text(text: &str) -> Option<&str>
    ensures value { option_map (λ digits. digits.now) result
        ≡ (if is_data_text text.now then Some text.now else None) }
    ensures data { IfSome result (λ digits. is_data_text digits.now ≡ true) }
{
    if is_data_text(text) { Some(text) } else { None }
}

/// The text of the member `data` of a frame, empty if there is no such member, `None` if it is not data.
#[tactic(auto, unfolding(crate::specs::FrameLine::data_in, crate::specs::FrameLine::is_data_text))]
pub fn data_in(frame: &Value) -> Option<&str>
    ensures value { option_map (λ digits. digits.now) result ≡ data_in (view frame.now) }
    ensures data { IfSome result (λ digits. is_data_text digits.now ≡ true) }
{
    match frame.get("data") {
        Some(member) => data_text(member.as_str()?),
        None => Some(""),
    }
}

/// The data of a frame whose members have no fault.
#[tactic(auto, unfolding(crate::specs::FrameLine::is_data_text))]
pub(crate) fn data_of(frame: &Value) -> &str
    ensures value { result.now ≡ unwrap_or (data_in (view frame.now)) [] }
    ensures data { is_data_text result.now ≡ true }
{
    match data_in(frame) {
        Some(text) => text,
        None => "",
    }
}

/// The bytes of a text of at most sixteen digits, and 0 past them.
pub(crate) fn eight_bytes(text: &str) -> [u8; 8]
    requires short { length text.now ≤ 16 }
    requires digits { is_data_text text.now ≡ true }
    ensures { result ≡ eight_bytes text.now }
{
    let digits = text.as_bytes();
    let mut bytes = [0; 8];
    for place in 0..digits.len() / 2 {
        bytes[place] = two_digits(digits[2 * place], digits[2 * place + 1]);
    }
    bytes
}
