ghost use Rattle.std.specs.Prelude.{◌≡◌, ◌<◌, ◌^◌, ◌↔◌, IfSome, IsNone, IsTrue, All, length};
ghost use Rattle.std.specs.Int.{from_le_bytes, w64};
ghost use Rattle.ccan_object.specs.declared.record.Record.{Record};
ghost use Rattle.ccan_object.specs.Record.{IsRecord};
ghost use Rattle.ccan_object.specs.Packing.{packed, unpacked, unpacked_from, has_reserved};

use crate::bits::{bit, part};
use crate::identifier::Identifier;
use crate::interface::with_control;
use crate::record::Record;

/// A record as three words: the Arbitration registers below the Mask registers, Message Control, and the data with
/// byte 0 lowest.
pub fn pack(object: &Record) -> [u64; 3]
    ensures words { result ≡ packed object.now }
    ensures is_record { IsRecord object.now }
{
    let identifiers = (u64::from(object.masks()) << 32) + u64::from(object.arbitration());
    [
        identifiers,
        u64::from(object.control()),
        content_word(&object.bytes),
    ]
}

/// The data as a word, byte 0 lowest. It is a function of its own for its clauses, which `pack` passes on to its callers.
fn content_word(bytes: &[u8; 8]) -> u64
    ensures word { result ≡ from_le_bytes w64 bytes.now }
    ensures length { length bytes.now ≡ 8 }
    ensures bytes { All (λ byte. byte < 2 ^ 8) bytes.now }
{
    u64::from_le_bytes(*bytes)
}

/// The record that packs to these words. There is none if a bit is 1 that no field has: bit 61 of the first word,
/// or one of bits 6 to 4 and 63 to 16 of the second.
pub fn unpack(words: [u64; 3]) -> Option<Record>
    ensures value { result ≡ unpacked_from words }
    ensures packs { IfSome result (λ object. packed object ≡ words) }
    ensures is_record { IfSome result IsRecord }
    ensures every { (o : Record) → IsRecord o → packed o ≡ words → result ≡ Some o }
    ensures none { IsNone result ↔ IsTrue (has_reserved words) }
{
    let [identifiers, control, content] = words;
    if bit(identifiers, 61) || part(control, 4, 3) != 0 || control >= 1 << 16 {
        return None;
    }
    Some(unpacked(identifiers, control as u16, content))
}

/// The record in three words, whatever is at the places that no field has.
fn unpacked(identifiers: u64, control: u16, content: u64) -> Record
    ensures { result ≡ unpacked identifiers control content }
{
    let object = Record {
        valid: bit(identifiers, 31),
        xtd: bit(identifiers, 30),
        dir: bit(identifiers, 29),
        id: Identifier::of(part(identifiers, 0, 29) as u32),
        mxtd: bit(identifiers, 63),
        mdir: bit(identifiers, 62),
        mask: Identifier::of(part(identifiers, 32, 29) as u32),
        bytes: content.to_le_bytes(),
        ..Record::zero()
    };
    with_control(&object, control)
}
