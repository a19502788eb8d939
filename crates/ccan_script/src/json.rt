ghost use Rattle.std.specs.Prelude.{◌≡◌, ◌<◌, ◌+◌, ◌*◌, true, map, Some, None};
ghost use Rattle.std.specs.Prelude.{string_bytes, if◌then◌else◌};
ghost use Rattle.std.specs.List.{list_all, list_any};
ghost use Rattle.std.specs.Char.{digit_value, is_ascii_hexdigit};
ghost use Rattle.std.specs.Str.{bytes_eq};
ghost use Rattle.std.specs.BTreeMap.{keys};
ghost use Rattle.std.specs.Str.Parse.{digits_value};
ghost use Rattle.serde_json.specs.Find.{get};
ghost use Rattle.serde_json.specs.View.{view};
ghost use Rattle.ccan_script.specs.Json.{is_four_digits, word_in, has_only, lines_in};

use serde_json::{Map, Value};

/// Whether each byte is a hexadecimal digit, of either case.
pub(crate) fn are_hexadecimal(bytes: &[u8]) -> bool
    ensures { result ≡ list_all is_ascii_hexdigit bytes.now }
{
    bytes.iter().all(|byte| byte.is_ascii_hexdigit())
}

/// The value of a hexadecimal digit.
fn digit_value(digit: u8) -> u8
    requires { is_ascii_hexdigit digit ≡ true }
    ensures value { result ≡ digit_value digit }
    ensures within { result < 16 }
{
    match digit {
        ..=b'9' => digit - b'0',
        b'a'.. => digit - b'a' + 10,
        _ => digit - b'A' + 10,
    }
}

/// The value of two hexadecimal digits.
pub(crate) fn two_digits(high: u8, low: u8) -> u8
    requires high { is_ascii_hexdigit high ≡ true }
    requires low { is_ascii_hexdigit low ≡ true }
    ensures { result ≡ digit_value high * 16 + digit_value low }
{
    digit_value(high) * 16 + digit_value(low)
}

/// The number of a text of exactly four hexadecimal digits.
#[tactic(auto, unfolding(crate::specs::Json::is_four_digits))]
fn four_digits(text: &str) -> Option<u16>
    ensures { result
        ≡ (if is_four_digits text.now then Some (digits_value 16 text.now) else None) }
{
    let digits = text.as_bytes();
    let [first, second, third, fourth] = digits else {
        return None;
    };
    if !are_hexadecimal(digits) {
        return None;
    }
    let high = two_digits(*first, *second);
    let low = two_digits(*third, *fourth);
    Some(u16::from(high) * 256 + u16::from(low))
}

/// The number of a value that is a text of four hexadecimal digits.
#[tactic(auto, unfolding(crate::specs::Json::word_in))]
pub fn word_in(value: &Value) -> Option<u16>
    ensures { result ≡ word_in (view value.now) }
{
    four_digits(value.as_str()?)
}

fn is_among(name: &str, known: &[&str]) -> bool
    ensures { result ≡ list_any (λ word. bytes_eq word.now name.now) known.now }
{
    known.iter().any(|word| *word == name)
}

fn are_among(members: &Map<String, Value>, known: &[&str]) -> bool
    ensures { result
        ≡ list_all (λ name. list_any (λ word. bytes_eq word.now (string_bytes name)) known.now)
        (keys members.now) }
{
    members.keys().all(|name| is_among(name.as_str(), known))
}

/// Whether the value is an object with no other members than these.
#[tactic(auto, unfolding(crate::specs::Json::has_only))]
pub(crate) fn has_only(value: &Value, known: &[&str]) -> bool
    ensures { result ≡ has_only (map (λ name. name.now) known.now) (view value.now) }
{
    match value.as_object() {
        Some(members) => are_among(members, known),
        None => false,
    }
}

/// The values of the list that a member is, none if it is not a list.
#[tactic(auto, using(crate::proofs::ListFaults::lines_are), unfolding(crate::specs::Json::lines_in))]
pub fn items_in<'a>(value: &'a Value, name: &str) -> &'a [Value]
    ensures { map view result.now ≡ lines_in (get name.now (view value.now)) }
{
    let Some(list) = value.get(name) else {
        return &[];
    };
    match list.as_array() {
        Some(values) => values.as_slice(),
        None => &[],
    }
}
