//! Records, frames and changes as JSON, with the names that `ccan-lab explain --json` has.
ghost use Rattle.std.specs.Prelude.{◌≡◌, ◌++◌, OnOk, take, if◌then◌else◌};
ghost use Rattle.ccan_object.specs.DataLength.{byte_count};
ghost use Rattle.ccan_accept.specs.Send.{number_of};
ghost use Rattle.ccan_page.specs.Data.{carried, change_text, control_text, fields_text, flags_text, frame_text, heading_text, mask_number, masking_text, object_text, record_text};

use crate::bytes::Bytes;
use crate::page::{Change, ObjectChange, SentFrame};
use ccan_accept::Frame;
use ccan_object::Record;
use std::alloc::AllocError;

/// The number of an object's identifier: of 29 bits if it is extended, and else of the 11 in ID28 to ID18.
fn id_of(object: &Record) -> u32
    ensures { result ≡ number_of object.now }
{
    if object.xtd {
        object.id.get()
    } else {
        object.id.get() >> 18
    }
}

/// The part of an object's mask that is at the bits of its identifier.
fn mask_of(object: &Record) -> u32
    ensures { result ≡ mask_number object.now }
{
    if object.xtd {
        object.mask.get()
    } else {
        object.mask.get() >> 18
    }
}

/// Appends the identifier and what is beside it, after the opening brace.
fn push_heading(data: &mut Bytes, object: &Record) -> Result<(), AllocError>
    ensures { OnOk result (data.new ≡ data.old ++ heading_text object.now) }
{
    data.push_str("{\"id\":")?;
    data.push_number(u64::from(id_of(object)))?;
    data.push_switch("xtd", object.xtd)?;
    data.push_switch("dir", object.dir)?;
    data.push_switch("valid", object.valid)
}

/// Appends the mask and what it compares.
fn push_masking(data: &mut Bytes, object: &Record) -> Result<(), AllocError>
    ensures { OnOk result (data.new ≡ data.old ++ masking_text object.now) }
{
    data.push_number_member("mask", u64::from(mask_of(object)))?;
    data.push_switch("mxtd", object.mxtd)?;
    data.push_switch("mdir", object.mdir)?;
    data.push_switch("umask", object.umask)
}

/// Appends the settings of Message Control that enable something, and EoB.
fn push_control(data: &mut Bytes, object: &Record) -> Result<(), AllocError>
    ensures { OnOk result (data.new ≡ data.old ++ control_text object.now) }
{
    data.push_switch("txie", object.txie)?;
    data.push_switch("rxie", object.rxie)?;
    data.push_switch("rmten", object.rmten)?;
    data.push_switch("eob", object.eob)
}

/// Appends the four flags.
fn push_flags(data: &mut Bytes, object: &Record) -> Result<(), AllocError>
    ensures { OnOk result (data.new ≡ data.old ++ flags_text object.now) }
{
    data.push_switch("newdat", object.newdat)?;
    data.push_switch("msglst", object.msglst)?;
    data.push_switch("intpnd", object.intpnd)?;
    data.push_switch("txrqst", object.txrqst)
}

/// Appends a record, decoded.
#[tactic(auto, unfolding(crate::specs::Data::record_text))]
fn push_record(data: &mut Bytes, object: &Record) -> Result<(), AllocError>
    ensures { OnOk result (data.new ≡ data.old ++ record_text object.now) }
{
    push_heading(data, object)?;
    push_masking(data, object)?;
    push_control(data, object)?;
    push_flags(data, object)?;
    data.push_number_member("dlc", u64::from(object.dlc.get()))?;
    data.push_data(&object.bytes)?;
    data.push_str("}")
}

/// Appends a record before and after, without the braces.
#[tactic(auto, unfolding(crate::specs::Data::change_text))]
pub fn push_change(data: &mut Bytes, change: &Change) -> Result<(), AllocError>
    ensures { OnOk result (data.new ≡ data.old ++ change_text change.now) }
{
    data.push_str("\"before\":")?;
    push_record(data, &change.before)?;
    data.push_str(",\"after\":")?;
    push_record(data, &change.after)
}

/// Appends an object before and after.
#[tactic(auto, unfolding(crate::specs::Data::object_text))]
pub fn push_object(data: &mut Bytes, object: &ObjectChange) -> Result<(), AllocError>
    ensures { OnOk result (data.new ≡ data.old ++ object_text object.now) }
{
    data.push_str("{\"number\":")?;
    data.push_number(u64::from(object.object.get()))?;
    data.push_str(",")?;
    push_change(data, &object.change)?;
    data.push_str("}")
}

/// Appends the bytes that a frame carries, as a member: none if it is remote.
fn push_carried(data: &mut Bytes, frame: &Frame) -> Result<(), AllocError>
    ensures { OnOk result (data.new ≡ data.old ++ carried frame.now) }
{
    if frame.rtr() {
        return data.push_data(&[]);
    }
    let bytes = frame.bytes();
    data.push_data(&bytes[..frame.dlc().byte_count()])
}

/// Appends the members of a frame.
fn push_fields(data: &mut Bytes, frame: &Frame) -> Result<(), AllocError>
    ensures { OnOk result (data.new ≡ data.old ++ fields_text frame.now) }
{
    data.push_number_member("id", u64::from(frame.id()))?;
    data.push_switch("xtd", frame.xtd())?;
    data.push_switch("rtr", frame.rtr())?;
    data.push_number_member("dlc", u64::from(frame.dlc().get()))?;
    push_carried(data, frame)
}

/// Appends a frame with the node that sends it.
#[tactic(auto, unfolding(crate::specs::Data::frame_text))]
pub fn push_frame(data: &mut Bytes, sent: &SentFrame) -> Result<(), AllocError>
    ensures { OnOk result (data.new ≡ data.old ++ frame_text sent.now) }
{
    data.push_str("{\"node\":")?;
    data.push_number(u64::from(sent.node))?;
    push_fields(data, &sent.frame)?;
    data.push_str("}")
}
