//! What a test expects, asserted by calls that promise nothing: what a test itself asserts stays known up to its end, and makes
//! the proof of a test of many lines long. If a test fails, the two values show which line it was.
ghost use Rattle.std.specs.Prelude.{◌≤◌, ◌<◌, ◌^◌};
ghost use Rattle.ccan_accept.specs.Frame.{identifier_bits};
ghost use Rattle.ccan_ram.specs.Tries.{IsTries};

use ccan_accept::Frame;
use ccan_handler::ScanRefused;
use ccan_object::{Iface, Record, Reg};
use ccan_ram::{Change, Tries};
use std::fmt::Debug;
use std::process::Abort;

/// Two values are the same.
pub fn same<T: Copy + PartialEq + Debug>(rt: &impl Abort, got: T, want: T) {
    assert_eq!(rt; got, want);
}

/// This is so.
pub fn holds(rt: &impl Abort, so: bool) {
    assert!(rt; so);
}

/// So many tries.
pub fn tries(most: u16) -> Tries
    requires { IsTries most }
{
    match Tries::new(most) {
        Some(tries) => tries,
        None => unreachable!(),
    }
}

/// A frame of these parts.
pub fn frame(id: u32, xtd: bool, rtr: bool, dlc: u8, bytes: [u8; 8]) -> Frame
    requires id { id < 2 ^ identifier_bits xtd }
    requires dlc { dlc ≤ 15 }
{
    match Frame::new(id, xtd, rtr, dlc, bytes) {
        Ok(frame) => frame,
        Err(_) => unreachable!(),
    }
}

/// A standard data frame without bytes.
pub fn empty_frame(id: u32) -> Frame
    requires { id < 2 ^ 11 }
{
    frame(id, false, false, 0, [0; 8])
}

/// What a scan found, if it was neither refused nor in vain.
pub fn found<T>(rt: &impl Abort, scanned: Result<Option<T>, ScanRefused>) -> T {
    match scanned {
        Ok(Some(found)) => found,
        _ => panic!(rt; "nothing was found"),
    }
}

/// Registers that were set to these values in turn.
pub fn registers(some: &[(Reg, u16)], more: &[(Reg, u16)]) -> Iface {
    let mut registers = Iface::new();
    for (register, value) in some {
        registers.set(*register, *value);
    }
    for (register, value) in more {
        registers.set(*register, *value);
    }
    registers
}

/// The change that a driver asks for by setting these registers.
pub fn change_of(some: &[(Reg, u16)], more: &[(Reg, u16)]) -> Change {
    let registers = registers(some, more);
    let command = registers.command();
    if command.is_write() {
        Change::Write(command, registers.buffer())
    } else {
        Change::Clear(command)
    }
}

/// What registers show of a record: Arbitration 2 and 1, Mask 2 and 1, Message Control, and the data.
pub fn shown(object: &Record) -> (u32, u32, u16, [u8; 8]) {
    (
        object.arbitration(),
        object.masks(),
        object.control(),
        object.bytes,
    )
}

/// The registers that a driver sets to write the standard message 0x123 of eight bytes, except Message Control.
pub const MESSAGE: [(Reg, u16); 6] = [
    (Reg::CMask, 0x00f3),
    (Reg::Arb2, 0xa48c),
    (Reg::DataA1, 0x2211),
    (Reg::DataA2, 0x4433),
    (Reg::DataB1, 0x6655),
    (Reg::DataB2, 0x8877),
];

/// The bytes of that message.
pub const BYTES: [u8; 8] = [0x11, 0x22, 0x33, 0x44, 0x55, 0x66, 0x77, 0x88];

/// The registers that a driver sets to receive standard frames 0x123, except Message Control.
pub const RECEIVER: [(Reg, u16); 2] = [(Reg::CMask, 0x00f3), (Reg::Arb2, 0x848c)];

/// The registers of a write of Message Control alone, except for its value.
pub const CONTROL: [(Reg, u16); 1] = [(Reg::CMask, 0x0090)];
