//! Records and flags for people.
ghost use Rattle.std.specs.Prelude.{◌≡◌, [], ◌++◌, OnOk, string_bytes, if◌then◌else◌};
ghost use Rattle.ccan_accept.specs.Send.{number_of};
ghost use Rattle.ccan_explain.specs.RecordWords.{data_text, enables_text, flag_text, flags_text, has_flag, identifier_text};
ghost use Rattle.ccan_explain.specs.RecordWords.{left_text, mask_number, mask_text, part_text, record_text, spaced_text};

use crate::digits::{push_decimal, push_hex};
use crate::frame_text::push_id;
use crate::step::Touched;
use ccan_object::{DataLength, Record};
use std::alloc::AllocError;

/// The number of an object's identifier: of 29 bits if it is extended, and else of the 11 in ID28 to ID18.
pub(crate) fn id_of(object: &Record) -> u32
    ensures { result ≡ number_of object.now }
{
    if object.xtd {
        object.id.get()
    } else {
        object.id.get() >> 18
    }
}

/// The part of an object's mask that is at the bits of its identifier.
pub(crate) fn mask_of(object: &Record) -> u32
    ensures { result ≡ mask_number object.now }
{
    if object.xtd {
        object.mask.get()
    } else {
        object.mask.get() >> 18
    }
}

/// Appends a word if it is so.
pub(crate) fn push_if(text: &mut String, is: bool, word: &str) -> Result<(), AllocError>
    ensures { OnOk result
        (string_bytes text.new ≡ string_bytes text.old ++ (if is then word.now else [])) }
{
    if is { text.push_str(word) } else { Ok(()) }
}

/// Appends one of two words.
fn push_either(text: &mut String, is: bool, yes: &str, no: &str) -> Result<(), AllocError>
    ensures { OnOk result
        (string_bytes text.new ≡ string_bytes text.old ++ (if is then yes.now else no.now)) }
{
    text.push_str(if is { yes } else { no })
}

/// Appends the mask, if acceptance uses it, and whether it compares Xtd and Dir.
fn push_mask(text: &mut String, object: &Record) -> Result<(), AllocError>
    ensures { OnOk result
        (string_bytes text.new ≡ string_bytes text.old ++ mask_text object.now) }
{
    if object.umask {
        text.push_str(", mask ")?;
        push_id(text, mask_of(object), object.xtd)?;
        push_if(text, object.mxtd, " MXtd")?;
        push_if(text, object.mdir, " MDir")?;
    }
    Ok(())
}

/// Appends two digits for each byte, after a space.
fn push_spaced(text: &mut String, bytes: &[u8]) -> Result<(), AllocError>
    ensures { OnOk result
        (string_bytes text.new ≡ string_bytes text.old ++ spaced_text bytes.now) }
{
    for byte in bytes {
        text.push_str(" ")?;
        push_hex(text, 2, u64::from(*byte))?;
    }
    Ok(())
}

/// Appends the data that the length means: `2 bytes 11 22`, and whether the data length code is above 8.
fn push_bytes(text: &mut String, dlc: DataLength, bytes: &[u8; 8]) -> Result<(), AllocError>
    ensures { OnOk result
        (string_bytes text.new ≡ string_bytes text.old ++ data_text dlc bytes.now) }
{
    let count = dlc.byte_count();
    push_decimal(text, count as u64)?;
    push_either(text, count == 1, " byte", " bytes")?;
    push_if(text, dlc.get() > 8, " (DLC above 8)")?;
    push_spaced(text, &bytes[..count])
}

/// Appends the identifier and its width: `id 123 std`.
fn push_identifier(text: &mut String, object: &Record) -> Result<(), AllocError>
    ensures { OnOk result
        (string_bytes text.new ≡ string_bytes text.old ++ identifier_text object.now) }
{
    text.push_str("id ")?;
    push_id(text, id_of(object), object.xtd)?;
    push_either(text, object.xtd, " ext", " std")
}

/// Appends Dir and MsgVal: `, transmit, valid`.
fn push_part(text: &mut String, object: &Record) -> Result<(), AllocError>
    ensures { OnOk result
        (string_bytes text.new ≡ string_bytes text.old ++ part_text object.now) }
{
    push_either(text, object.dir, ", transmit", ", receive")?;
    push_either(text, object.valid, ", valid", ", not valid")
}

/// Appends what is enabled, and EoB: `, RxIE, EoB`.
fn push_enables(text: &mut String, object: &Record) -> Result<(), AllocError>
    ensures { OnOk result
        (string_bytes text.new ≡ string_bytes text.old ++ enables_text object.now) }
{
    push_if(text, object.txie, ", TxIE")?;
    push_if(text, object.rxie, ", RxIE")?;
    push_if(text, object.rmten, ", RmtEn")?;
    push_if(text, object.eob, ", EoB")
}

/// Appends what a record says of an object, except its four flags: `id 123 std, transmit, valid, EoB, 2 bytes 11 22`.
pub(crate) fn push_record(text: &mut String, object: &Record) -> Result<(), AllocError>
    ensures { OnOk result
        (string_bytes text.new ≡ string_bytes text.old ++ record_text object.now) }
{
    push_identifier(text, object)?;
    push_part(text, object)?;
    push_mask(text, object)?;
    push_enables(text, object)?;
    text.push_str(", ")?;
    push_bytes(text, object.dlc, &object.bytes)
}

/// Appends a flag after its mark: `+` if it was set, `-` if it was cleared, a space alone if it stayed set. Nothing if it is not
/// set, and was not.
fn push_flag(text: &mut String, name: &str, before: bool, after: bool) -> Result<(), AllocError>
    ensures { OnOk result
        (string_bytes text.new ≡ string_bytes text.old ++ flag_text before after name.now) }
{
    match (before, after) {
        (false, false) => return Ok(()),
        (true, true) => text.push_str(" ")?,
        (false, true) => text.push_str(" +")?,
        (true, false) => text.push_str(" -")?,
    }
    text.push_str(name)
}

/// Whether one of the four flags is set.
fn has_flag(object: &Record) -> bool
    ensures { result ≡ has_flag object.now }
{
    object.newdat || object.msglst || object.intpnd || object.txrqst
}

/// Appends the flags of an object, those that changed with a mark: ` | NewDat +MsgLst -TxRqst`. Nothing if none is set and none
/// was.
pub(crate) fn push_flags(
    text: &mut String,
    before: &Record,
    after: &Record,
) -> Result<(), AllocError>
    ensures { OnOk result
        (string_bytes text.new ≡ string_bytes text.old ++ flags_text before.now after.now) }
{
    push_if(text, has_flag(before) || has_flag(after), " |")?;
    push_flag(text, "NewDat", before.newdat, after.newdat)?;
    push_flag(text, "MsgLst", before.msglst, after.msglst)?;
    push_flag(text, "IntPnd", before.intpnd, after.intpnd)?;
    push_flag(text, "TxRqst", before.txrqst, after.txrqst)
}

/// Appends what a record became, after a colon: `: id 123 std, receive, valid, 1 byte 11 | +NewDat`. A flag that was set has a
/// `+`, and one that was cleared a `-`.
#[tactic(auto, unfolding(crate::specs::RecordWords::left_text))]
pub fn push_left(text: &mut String, before: &Record, after: &Record) -> Result<(), AllocError>
    ensures { OnOk result
        (string_bytes text.new ≡ string_bytes text.old ++ left_text before.now after.now) }
{
    text.push_str(": ")?;
    push_record(text, after)?;
    push_flags(text, before, after)
}

/// Appends an object as a line left it, with its flags, after some words.
pub(crate) fn push_touched(
    text: &mut String,
    words: &str,
    touched: &Touched,
) -> Result<(), AllocError> {
    text.push_str(words)?;
    text.push_str(" object ")?;
    push_decimal(text, u64::from(touched.object.get()))?;
    push_left(text, &touched.before, &touched.after)
}
