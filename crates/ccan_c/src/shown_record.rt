ghost use Rattle.std.specs.Prelude.{◌≡◌};
ghost use Rattle.ccan_c.specs.Record.{c_record};

use ccan_object::Record;

/// The record of a message object.
#[repr(C)]
#[derive(Clone, Copy, PartialEq, Eq, Debug)]
pub struct ShownRecord {
    /// MXtd 31, MDir 30, Msk28 to Msk0 below.
    pub masks: u32,
    /// MsgVal 31, Xtd 30, Dir 29, ID28 to ID0 below.
    pub arbitration: u32,
    /// NewDat 15, MsgLst 14, IntPnd 13, UMask 12, TxIE 11, RxIE 10, RmtEn 9, TxRqst 8, EoB 7, DLC 3 to 0.
    pub control: u16,
    /// The data, byte 0 first.
    pub bytes: [u8; 8],
}

impl ShownRecord {
    /// A record as C sees it.
    pub fn of(found: &Record) -> ShownRecord
        ensures { result ≡ c_record found.now }
    {
        ShownRecord {
            masks: found.masks(),
            arbitration: found.arbitration(),
            control: found.control(),
            bytes: found.bytes,
        }
    }
}
