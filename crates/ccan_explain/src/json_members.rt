//! Members of JSON objects.
use crate::digits::{push_data, push_decimal};
use crate::record_words::{id_of, mask_of};
use ccan_accept::Frame;
use ccan_object::Record;
use std::alloc::AllocError;

/// Appends a comma, a name and a colon.
pub(crate) fn push_name(text: &mut String, name: &str) -> Result<(), AllocError> {
    text.push_str(",\"")?;
    text.push_str(name)?;
    text.push_str("\":")
}

/// Appends a member that is a number.
pub(crate) fn push_number(text: &mut String, name: &str, value: u64) -> Result<(), AllocError> {
    push_name(text, name)?;
    push_decimal(text, value)
}

/// Appends a member that is 0 or 1.
pub(crate) fn push_switch(text: &mut String, name: &str, is: bool) -> Result<(), AllocError> {
    push_name(text, name)?;
    text.push_str(if is { "1" } else { "0" })
}

/// Appends a member that is a word.
pub(crate) fn push_word(text: &mut String, name: &str, word: &str) -> Result<(), AllocError> {
    push_name(text, name)?;
    text.push_str("\"")?;
    text.push_str(word)?;
    text.push_str("\"")
}

/// Appends the data, two digits a byte.
fn push_bytes(text: &mut String, bytes: &[u8]) -> Result<(), AllocError> {
    push_name(text, "data")?;
    text.push_str("\"")?;
    push_data(text, bytes)?;
    text.push_str("\"")
}

/// Appends the settings of Message Control that enable something.
fn push_enables(text: &mut String, object: &Record) -> Result<(), AllocError> {
    push_switch(text, "umask", object.umask)?;
    push_switch(text, "txie", object.txie)?;
    push_switch(text, "rxie", object.rxie)?;
    push_switch(text, "rmten", object.rmten)?;
    push_switch(text, "eob", object.eob)
}

/// Appends the four flags.
fn push_flags(text: &mut String, object: &Record) -> Result<(), AllocError> {
    push_switch(text, "newdat", object.newdat)?;
    push_switch(text, "msglst", object.msglst)?;
    push_switch(text, "intpnd", object.intpnd)?;
    push_switch(text, "txrqst", object.txrqst)
}

/// Appends a member that is a record, decoded.
pub(crate) fn push_record(
    text: &mut String,
    name: &str,
    object: &Record,
) -> Result<(), AllocError> {
    push_name(text, name)?;
    text.push_str("{\"id\":")?;
    push_decimal(text, u64::from(id_of(object)))?;
    push_switch(text, "xtd", object.xtd)?;
    push_switch(text, "dir", object.dir)?;
    push_switch(text, "valid", object.valid)?;
    push_number(text, "mask", u64::from(mask_of(object)))?;
    push_switch(text, "mxtd", object.mxtd)?;
    push_switch(text, "mdir", object.mdir)?;
    push_enables(text, object)?;
    push_flags(text, object)?;
    push_number(text, "dlc", u64::from(object.dlc.get()))?;
    push_bytes(text, &object.bytes)?;
    text.push_str("}")
}

/// Appends a frame with the node that sends it, with the names that scripts have.
pub(crate) fn push_frame(text: &mut String, node: u8, frame: &Frame) -> Result<(), AllocError> {
    text.push_str("{\"node\":")?;
    push_decimal(text, u64::from(node))?;
    push_number(text, "id", u64::from(frame.id()))?;
    push_switch(text, "xtd", frame.xtd())?;
    push_switch(text, "rtr", frame.rtr())?;
    push_number(text, "dlc", u64::from(frame.dlc().get()))?;
    let bytes = frame.bytes();
    let count = if frame.rtr() {
        0
    } else {
        frame.dlc().byte_count()
    };
    push_bytes(text, &bytes[..count])?;
    text.push_str("}")
}
