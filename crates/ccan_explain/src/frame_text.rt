//! Frames as can-utils writes them.
ghost use Rattle.std.specs.Prelude.{◌≡◌, ◌++◌, OnOk, string_bytes, take, if◌then◌else◌};
ghost use Rattle.ccan_object.specs.DataLength.{byte_count};
ghost use Rattle.ccan_explain.specs.FrameText.{bytes_text, code_text, frame_text, id_text, remote_text};

use crate::digits::{push_decimal, push_hex};
use ccan_accept::Frame;
use std::alloc::AllocError;

/// Appends an identifier: three hexadecimal digits, or eight if it is extended.
pub fn push_id(text: &mut String, id: u32, xtd: bool) -> Result<(), AllocError>
    ensures { OnOk result (string_bytes text.new ≡ string_bytes text.old ++ id_text id xtd) }
{
    push_hex(text, if xtd { 8 } else { 3 }, u64::from(id))
}

/// Appends what a remote frame has after its identifier: `R`, and the length of the data that it asks for, except 0.
fn push_remote(text: &mut String, dlc: u8) -> Result<(), AllocError>
    ensures { OnOk result
        (string_bytes text.new ≡ string_bytes text.old ++ remote_text dlc) }
{
    text.push_str("R")?;
    if dlc > 0 {
        push_decimal(text, u64::from(dlc.min(8)))?;
    }
    Ok(())
}

/// Appends two digits for each byte.
fn push_bytes(text: &mut String, bytes: &[u8]) -> Result<(), AllocError>
    ensures { OnOk result
        (string_bytes text.new ≡ string_bytes text.old ++ bytes_text bytes.now) }
{
    for byte in bytes {
        push_hex(text, 2, u64::from(*byte))?;
    }
    Ok(())
}

/// Appends what a frame carries, or that it is remote.
fn push_body(text: &mut String, frame: &Frame) -> Result<(), AllocError>
    ensures { OnOk result (string_bytes text.new ≡ string_bytes text.old
        ++ (if frame.now.rtr then remote_text frame.now.dlc
        else bytes_text (take (byte_count frame.now.dlc) frame.now.bytes))) }
{
    if frame.rtr() {
        return push_remote(text, frame.dlc().get());
    }
    let bytes = frame.bytes();
    push_bytes(text, &bytes[..frame.dlc().byte_count()])
}

/// Appends a data length code above 8.
fn push_code(text: &mut String, dlc: u8) -> Result<(), AllocError>
    ensures { OnOk result
        (string_bytes text.new ≡ string_bytes text.old ++ code_text dlc) }
{
    if dlc > 8 {
        text.push_str("_")?;
        push_hex(text, 1, u64::from(dlc))?;
    }
    Ok(())
}

/// Appends a frame in the compact form of can-utils: `123#1122`, `00000123#`, `123#R`. A data length code above 8 comes after the
/// data as one digit, `123#1122334455667788_9`, and after a remote frame's 8 in the same way.
#[tactic(auto, unfolding(crate::specs::FrameText::frame_text))]
pub fn push_frame(text: &mut String, frame: &Frame) -> Result<(), AllocError>
    ensures { OnOk result
        (string_bytes text.new ≡ string_bytes text.old ++ frame_text frame.now) }
{
    push_id(text, frame.id(), frame.xtd())?;
    text.push_str("#")?;
    push_body(text, frame)?;
    push_code(text, frame.dlc().get())
}
