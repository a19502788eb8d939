//! The bytes of a saved chip, written by hand after the table of their format, and what is reported of bytes that are
//! not a saved chip.
ghost use Rattle.std.specs.Prelude.{◌≤◌, ◌+◌};

use crate::expect::holds;
use ccan_registers::saved::{Field, FormatError, LENGTH, from_bytes, to_bytes};
use std::process::Abort;

/// Puts a word at an index.
fn put(bytes: &mut [u8; LENGTH], place: usize, word: u64)
    requires { place + 8 ≤ 1672 }
{
    bytes[place..place + 8].copy_from_slice(&word.to_le_bytes());
}

/// A C_CAN with 32 objects, one try and no other node, on which nothing was done: each interface names object 1.
fn plain() -> [u8; LENGTH] {
    let mut bytes = [0u8; LENGTH];
    bytes[..8].copy_from_slice(b"ccansave");
    put(&mut bytes, 8, 2);
    put(&mut bytes, 16, 32);
    put(&mut bytes, 32, 1);
    put(&mut bytes, 56, 1);
    put(&mut bytes, 96, 1);
    bytes
}

/// What is reported of these bytes, if they are not a saved chip.
fn told(bytes: &[u8]) -> Option<FormatError> {
    match from_bytes(bytes) {
        Ok(_) => None,
        Err(why) => Some(why),
    }
}

/// The plain chip with another word at an index is refused for this reason.
fn refuses(rt: &impl Abort, place: usize, word: u64, why: FormatError)
    requires { place + 8 ≤ 1672 }
{
    let mut bytes = plain();
    put(&mut bytes, place, word);
    holds(rt, told(&bytes) == Some(why));
}

/// Whether the plain chip is read, and written as it was.
fn is_read_back() -> bool {
    let bytes = plain();
    match from_bytes(&bytes) {
        Ok(saved) => to_bytes(&saved) == bytes,
        Err(_) => false,
    }
}

#[test]
fn bytes_are_read_by_their_table(rt: HostRuntime) {
    holds(&rt, is_read_back());
    holds(&rt, told(&plain()[..24]) == Some(FormatError::Length(24)));
    holds(&rt, told(&plain()[..15]) == Some(FormatError::Length(15)));
    refuses(&rt, 0, 0x6576_6173_6e61_6364, FormatError::Name);
    refuses(&rt, 8, 1, FormatError::Version(1));
    refuses(&rt, 16, 33, FormatError::Range(Field::Objects));
    refuses(&rt, 24, 3, FormatError::Range(Field::Map));
    refuses(&rt, 32, 1001, FormatError::Range(Field::Tries));
    refuses(&rt, 40, 9, FormatError::Range(Field::Others));
    refuses(&rt, 48, 1 << 63, FormatError::Range(Field::Controller));
    refuses(&rt, 56, 33, FormatError::Range(Field::If1));
    refuses(&rt, 64, 256, FormatError::Range(Field::If1));
    refuses(&rt, 96, 0, FormatError::Range(Field::If2));
    refuses(&rt, 232, 1 << 61, FormatError::Range(Field::Object(5)));
    refuses(&rt, 904, 1, FormatError::Range(Field::Unused));
}
