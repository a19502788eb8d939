//! A line of a log that can-utils wrote, compact as `(1436509052.249713) can0 123#1122` or long as `can0  123   [2]  11 22`.
ghost use Rattle.std.specs.Prelude.{◌<◌, IfSome};

use arrayvec::ArrayVec;
use ccan_accept::Frame;
use std::fmt;

/// Why a line of a log gives no frame.
#[derive(Clone, Copy, PartialEq, Eq, Debug)]
pub enum LeftOut {
    /// An error frame, which no node sends as a message.
    ErrorFrame,
    /// A frame of CAN FD.
    FlexibleDataRate,
    /// A frame of CAN FD whose bit rate switches.
    BitRateSwitch,
    /// No frame that is known.
    Unreadable,
}

impl fmt::Display for LeftOut {
    fn fmt<W: fmt::Write>(&self, f: &mut fmt::Formatter<W>) -> fmt::Result {
        f.write_str(match self {
            LeftOut::ErrorFrame => "error frame",
            LeftOut::FlexibleDataRate => "CAN FD frame",
            LeftOut::BitRateSwitch => "CAN FD frame with bit rate switching",
            LeftOut::Unreadable => "no frame",
        })
    }
}

/// An identifier, and whether it is an extended one.
#[derive(Clone, Copy)]
struct Identifier {
    number: u32,
    xtd: bool,
}

/// What comes after an identifier.
#[derive(Clone, Copy)]
struct Payload {
    rtr: bool,
    dlc: u8,
    bytes: [u8; 8],
}

/// The value of a hexadecimal digit.
fn digit_in(glyph: u8) -> Option<u8>
    ensures { IfSome result (λ value. value < 16) }
{
    match glyph {
        b'0'..=b'9' => Some(glyph - b'0'),
        b'a'..=b'f' => Some(glyph - b'a' + 10),
        b'A'..=b'F' => Some(glyph - b'A' + 10),
        _ => None,
    }
}

/// The number of one to eight hexadecimal digits.
fn number_in(digits: &[u8]) -> Option<u32> {
    if digits.is_empty() || digits.len() > 8 {
        return None;
    }
    let mut number = 0u32;
    for glyph in digits {
        number = (number << 4) | u32::from(digit_in(*glyph)?);
    }
    Some(number)
}

/// The identifier of three digits, or of eight if it is extended. An error frame has bit 29 in it.
fn identifier_in(digits: &str) -> Result<Identifier, LeftOut> {
    let xtd = digits.len() == 8;
    if !xtd && digits.len() != 3 {
        return Err(LeftOut::Unreadable);
    }
    let number = number_in(digits.as_bytes()).ok_or(LeftOut::Unreadable)?;
    if xtd && (number >> 29) % 2 == 1 {
        return Err(LeftOut::ErrorFrame);
    }
    Ok(Identifier { number, xtd })
}

/// The frame of these parts, if its identifier fits its kind.
fn frame_of(identifier: Identifier, payload: Payload) -> Result<Frame, LeftOut> {
    let Identifier { number, xtd } = identifier;
    let Payload { rtr, dlc, bytes } = payload;
    Frame::new(number, xtd, rtr, dlc, bytes).map_err(|_| LeftOut::Unreadable)
}

/// The data of up to sixteen digits, two for each byte.
fn data_in(digits: &[u8]) -> Option<Payload> {
    if digits.len() > 16 || digits.len() % 2 != 0 {
        return None;
    }
    let mut bytes = [0u8; 8];
    for place in 0..digits.len() / 2 {
        let high = digit_in(digits[2 * place])?;
        let low = digit_in(digits[2 * place + 1])?;
        bytes[place] = 16 * high + low;
    }
    Some(Payload {
        rtr: false,
        dlc: (digits.len() / 2) as u8,
        bytes,
    })
}

/// What comes after the `R` of a remote frame: nothing, or its length.
fn remote_in(digits: &[u8]) -> Option<Payload> {
    let dlc = match digits {
        [] => 0,
        [glyph] => digit_in(*glyph)?,
        _ => return None,
    };
    Some(Payload {
        rtr: true,
        dlc,
        bytes: [0; 8],
    })
}

/// The same with a data length code above 8, which comes after an underscore.
fn with_length(payload: Payload, digits: &[u8]) -> Option<Payload> {
    match digits {
        [glyph] if payload.dlc == 8 => Some(Payload {
            dlc: digit_in(*glyph)?,
            ..payload
        }),
        _ => None,
    }
}

/// What comes after the `#` of a compact frame.
fn payload_in(text: &str) -> Option<Payload> {
    let (front, length) = match text.split_once("_") {
        Some((front, length)) => (front, Some(length)),
        None => (text, None),
    };
    let payload = match front.strip_prefix("R") {
        Some(digits) => remote_in(digits.as_bytes())?,
        None => data_in(front.as_bytes())?,
    };
    match length {
        Some(length) => with_length(payload, length.as_bytes()),
        None => Some(payload),
    }
}

/// What a compact frame of CAN FD is left out as, by the digit after `##`: bit 0 is the switch of the bit rate.
fn flexible(text: &str) -> LeftOut {
    match text.as_bytes().first() {
        Some(glyph) => match digit_in(*glyph) {
            Some(flags) if flags % 2 == 1 => LeftOut::BitRateSwitch,
            Some(_) | None => LeftOut::FlexibleDataRate,
        },
        None => LeftOut::FlexibleDataRate,
    }
}

/// A frame in the compact form, `123#1122`, split at its first `#`.
fn compact(front: &str, back: &str) -> Result<Frame, LeftOut> {
    if let Some(rest) = back.strip_prefix("#") {
        return Err(flexible(rest));
    }
    let identifier = identifier_in(front)?;
    let payload = payload_in(back).ok_or(LeftOut::Unreadable)?;
    frame_of(identifier, payload)
}

/// The length between brackets. One of two digits is that of a frame of CAN FD.
fn length_in(word: &str) -> Result<u8, LeftOut> {
    match word.as_bytes() {
        [b'[', glyph, b']'] => digit_in(*glyph).ok_or(LeftOut::Unreadable),
        [b'[', _, _, b']'] => Err(LeftOut::FlexibleDataRate),
        _ => Err(LeftOut::Unreadable),
    }
}

/// The data of the long form: a word of two digits for each byte.
fn bytes_in(words: &[&str]) -> Option<[u8; 8]> {
    let mut bytes = [0u8; 8];
    for place in 0..8 {
        if let Some(word) = words.get(place) {
            bytes[place] = byte_in(word.as_bytes())?;
        }
    }
    Some(bytes)
}

/// The byte of two digits.
fn byte_in(digits: &[u8]) -> Option<u8> {
    match digits {
        [high, low] => Some(16 * digit_in(*high)? + digit_in(*low)?),
        _ => None,
    }
}

/// A frame in the long form: its identifier, its length in brackets, and its data or `remote request`.
fn long(front: &str, length: &str, words: &[&str]) -> Result<Frame, LeftOut> {
    let identifier = identifier_in(front)?;
    let dlc = length_in(length)?;
    let rtr = words.first().copied() == Some("remote");
    let count = usize::from(dlc.min(8));
    if rtr {
        return frame_of(
            identifier,
            Payload {
                rtr,
                dlc,
                bytes: [0; 8],
            },
        );
    }
    if words.len() < count {
        return Err(LeftOut::Unreadable);
    }
    let bytes = bytes_in(&words[..count]).ok_or(LeftOut::Unreadable)?;
    frame_of(identifier, Payload { rtr, dlc, bytes })
}

/// The first words of a line.
fn words_of(line: &str) -> ArrayVec<&str, 16> {
    let mut words = ArrayVec::new();
    for word in line.split_whitespace() {
        if !words.is_full() {
            words.push(word);
        }
    }
    words
}

/// The frame of a line, or why it gives none. None: the line is empty.
pub fn read_line(line: &str) -> Option<Result<Frame, LeftOut>> {
    let all = words_of(line);
    let words = all.as_slice();
    for place in 0..words.len() {
        if let Some((front, back)) = words[place].split_once("#") {
            return Some(compact(front, back));
        }
        if place > 0 && words[place].starts_with("[") {
            let rest = &words[place + 1..];
            return Some(long(words[place - 1], words[place], rest));
        }
    }
    if words.is_empty() {
        None
    } else {
        Some(Err(LeftOut::Unreadable))
    }
}
