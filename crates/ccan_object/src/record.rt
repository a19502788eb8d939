ghost use Rattle.std.specs.Prelude.{◌≡◌, ◌≤◌, ◌<◌, ◌^◌};

use crate::bits::flag;
use crate::data_length::DataLength;
use crate::identifier::Identifier;

/// The record of a message object (User's Manual, section 3.3.4).
///
/// The identifiers have 29 bits and the data length code four, by their types.
#[derive(Clone, Copy, PartialEq, Eq, Hash, Default, Debug)]
pub struct Record {
    /// MsgVal: the object takes part.
    pub valid: bool,
    /// Xtd: the identifier is an extended one, of 29 bits.
    pub xtd: bool,
    /// Dir: 1 transmits, 0 receives.
    pub dir: bool,
    /// ID28 to ID0. A standard identifier is in ID28 to ID18.
    pub id: Identifier,
    /// MXtd: the mask compares Xtd.
    pub mxtd: bool,
    /// MDir: the mask compares Dir.
    pub mdir: bool,
    /// Msk28 to Msk0: 1 compares that bit of the identifier.
    pub mask: Identifier,
    /// NewDat: a frame or a host wrote data here, and nobody has cleared this flag since.
    pub newdat: bool,
    /// MsgLst: a message was overwritten before NewDat was cleared.
    pub msglst: bool,
    /// IntPnd: the object asks for an interrupt.
    pub intpnd: bool,
    /// UMask: acceptance uses the mask.
    pub umask: bool,
    /// TxIE: a transmission sets IntPnd.
    pub txie: bool,
    /// RxIE: a reception sets IntPnd.
    pub rxie: bool,
    /// RmtEn: a remote frame sets TxRqst.
    pub rmten: bool,
    /// TxRqst: a transmission is requested.
    pub txrqst: bool,
    /// EoB: the object is single, or the last of a FIFO buffer.
    pub eob: bool,
    /// DLC: the data length code.
    pub dlc: DataLength,
    /// The data, byte 0 first.
    pub bytes: [u8; 8],
}

impl Record {
    ghost use Rattle.ccan_object.specs.Record.{reset_record, zero_record};
    ghost use Rattle.ccan_object.specs.Register.{arbitration, masks, control};

    /// The record of an object that nobody has written.
    pub fn zero() -> Record
        ensures { result ≡ zero_record }
    {
        Record {
            valid: false,
            xtd: false,
            dir: false,
            id: Identifier::zero(),
            mxtd: false,
            mdir: false,
            mask: Identifier::zero(),
            newdat: false,
            msglst: false,
            intpnd: false,
            umask: false,
            txie: false,
            rxie: false,
            rmten: false,
            txrqst: false,
            eob: false,
            dlc: DataLength::zero(),
            bytes: [0; 8],
        }
    }

    /// The record as a hardware reset leaves it: MsgVal, NewDat, IntPnd and TxRqst are 0, and all else stays (User's Manual,
    /// "Hardware Reset Description").
    #[must_use]
    pub fn reset(&self) -> Record
        ensures { result ≡ reset_record self.now }
    {
        Record {
            valid: false,
            newdat: false,
            intpnd: false,
            txrqst: false,
            ..*self
        }
    }

    /// Arbitration 2 (the upper half) and Arbitration 1.
    pub fn arbitration(&self) -> u32
        ensures word { result ≡ arbitration self.now }
        ensures identifier { self.now.id < 2 ^ 29 }
    {
        let flags = flag(self.valid, 31) + flag(self.xtd, 30) + flag(self.dir, 29);
        flags as u32 + self.id.get()
    }

    /// Mask 2 (the upper half) and Mask 1.
    pub fn masks(&self) -> u32
        ensures word { result ≡ masks self.now }
        ensures mask { self.now.mask < 2 ^ 29 }
    {
        let flags = flag(self.mxtd, 31) + flag(self.mdir, 30);
        flags as u32 + self.mask.get()
    }

    /// Message Control.
    pub fn control(&self) -> u16
        ensures word { result ≡ control self.now }
        ensures length { self.now.dlc ≤ 15 }
    {
        // in three sums, each short enough for the prover to see that it doesn't wrap
        let state = flag(self.newdat, 15) + flag(self.msglst, 14) + flag(self.intpnd, 13);
        let enables = flag(self.umask, 12)
            + flag(self.txie, 11)
            + flag(self.rxie, 10)
            + flag(self.rmten, 9);
        let buffer = flag(self.txrqst, 8) + flag(self.eob, 7);
        (state + enables + buffer) as u16 + u16::from(self.dlc.get())
    }
}
