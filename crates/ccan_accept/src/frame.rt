ghost use Rattle.std.specs.Prelude.{◌≡◌, ◌≤◌, ◌<◌, ◌^◌, ◌↔◌, IsOk, IfOk};
ghost use Rattle.ccan_accept.specs.Frame.{FitsKind, IsFrame, framed, first_bytes, identifier_bits, identifier_of};

use crate::frame_error::FrameError;
use ccan_object::{DataLength, Identifier};
use std::marker::Model;

/// A data frame or a remote frame, without what the bus adds (CAN Specification 2.0, part B, section 3). Contracts see
/// its fields: the identifier as a number of 11 or 29 bits, and eight bytes; those that are not data are 0.
#[derive(Clone, Copy, PartialEq, Eq, Hash, Debug, Default)]
pub struct Frame {
    id: u32,
    xtd: bool,
    rtr: bool,
    dlc: DataLength,
    bytes: [u8; 8],
}

impl Model for Frame {
    ghost use Rattle.ccan_accept.specs.Frame.{FrameFields, IsFrame};

    ghost Value = { FrameFields };

    ghost view = { λ f. record { id = f.id; xtd = f.xtd; rtr = f.rtr; dlc = f.dlc; bytes = f.bytes } };

    ghost invariant = { λ f. IsFrame record { id = f.id; xtd = f.xtd; rtr = f.rtr; dlc = f.dlc; bytes = f.bytes } };

    ghost inverse = { λ f. record { id = f.id; xtd = f.xtd; rtr = f.rtr; dlc = f.dlc; bytes = f.bytes } };
}

impl Frame {
    /// The frame of these parts. Bytes past the length, and all bytes of a remote frame, become 0. An identifier out of
    /// range is reported first.
    pub fn new(id: u32, xtd: bool, rtr: bool, dlc: u8, bytes: [u8; 8]) -> Result<Frame, FrameError>
        ensures known { IsOk result ↔ (FitsKind xtd id × (dlc ≤ 15)) }
        ensures id_range { (result ≡ Err FrameError.IdRange) ↔ (2 ^ identifier_bits xtd ≤ id) }
        ensures dlc_range { (result ≡ Err FrameError.DlcRange) ↔ (FitsKind xtd id × (15 < dlc)) }
        ensures value { IfOk result (λ frame. frame ≡ framed id xtd rtr dlc bytes) }
        ensures is_frame { IfOk result IsFrame }
    {
        let limit: u32 = if xtd { 1 << 29 } else { 1 << 11 };
        if id >= limit {
            return Err(FrameError::IdRange);
        }
        match DataLength::new(dlc) {
            Some(length) => Ok(Frame::made(id, xtd, rtr, length, &bytes)),
            None => Err(FrameError::DlcRange),
        }
    }

    /// The frame of an identifier that fits, a length and eight bytes.
    pub(crate) fn made(id: u32, xtd: bool, rtr: bool, dlc: DataLength, bytes: &[u8; 8]) -> Frame
        requires { FitsKind xtd id }
        ensures value { result ≡ framed id xtd rtr dlc bytes.now }
        ensures is_frame { IsFrame result }
    {
        let count = if rtr { 0 } else { dlc.byte_count() };
        Frame {
            id,
            xtd,
            rtr,
            dlc,
            bytes: first_bytes(bytes, count),
        }
    }

    /// The identifier as a number, of 11 bits or, if it is extended, of 29.
    pub fn id(&self) -> u32
        ensures id { result ≡ self.now.id }
        ensures is_frame { IsFrame self.now }
    {
        self.id
    }

    /// Whether the identifier is an extended one.
    pub fn xtd(&self) -> bool
        ensures { result ≡ self.now.xtd }
    {
        self.xtd
    }

    /// Whether it is a remote frame, which carries no data.
    pub fn rtr(&self) -> bool
        ensures { result ≡ self.now.rtr }
    {
        self.rtr
    }

    /// The data length code. That of a remote frame is the length of the data that it asks for.
    pub fn dlc(&self) -> DataLength
        ensures { result ≡ self.now.dlc }
    {
        self.dlc
    }

    /// The data, byte 0 first.
    pub fn bytes(&self) -> [u8; 8]
        ensures bytes { result ≡ self.now.bytes }
        ensures is_frame { IsFrame self.now }
    {
        self.bytes
    }

    /// The identifier as it is in a message object: a standard one in ID28 to ID18, with 0 below.
    pub(crate) fn identifier(&self) -> Identifier
        ensures identifier { result ≡ identifier_of self.now }
        ensures is_frame { IsFrame self.now }
    {
        Identifier::of(if self.xtd { self.id } else { self.id << 18 })
    }
}

/// The first of eight bytes, and 0 past them.
pub(crate) fn first_bytes(bytes: &[u8; 8], count: usize) -> [u8; 8]
    requires { count ≤ 8 }
    ensures { result ≡ first_bytes count bytes.now }
{
    let mut kept = [0; 8];
    kept[..count].copy_from_slice(&bytes[..count]);
    kept
}
