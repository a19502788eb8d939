//! A record in two parts: its marks, 14 bits in its object's word, and its body, two words in a place.
//!
//! ```text
//! marks    MsgVal 13, NewDat 12, MsgLst 11, IntPnd 10, UMask 9, TxIE 8, RxIE 7, RmtEn 6, TxRqst 5, EoB 4, DLC 3 to 0
//! body 0   MXtd 63, MDir 62, Msk28 to Msk0 60 to 32, Xtd 30, Dir 29, ID28 to ID0 28 to 0
//! body 1   the data, byte 0 lowest
//! ```
//!
//! The body is the first and the last word of a packed record, except that MsgVal, bit 31 of the first, is 0 there: it is
//! among the marks, above Message Control without its reserved bits.
ghost use Rattle.std.specs.Prelude.{◌≡◌, ◌<◌, ◌+◌};
ghost use Rattle.ccan_object.specs.Bits.{flag, at};
ghost use Rattle.ccan_object.specs.declared.record.Record.{Record};
ghost use Rattle.ccan_object.specs.Record.{IsRecord};
ghost use Rattle.ccan_endless.specs.Parts.{body_of, marks_limit, marks_of};

use ccan_object::{Record, pack, unpack};

/// The marks of a record.
pub fn marks_of(object: &Record) -> u64
    ensures value { result ≡ marks_of object.now }
    ensures small { result < marks_limit }
{
    // Straight from the flags: those of Message Control would then have to be moved to their places among the marks.
    let state = joint(object.valid, object.newdat, object.msglst, object.intpnd);
    let enables = joint(object.umask, object.txie, object.rxie, object.rmten);
    let buffer = joint(false, false, object.txrqst, object.eob);
    ((state * 16 + enables) * 4 + buffer) * 16 + u64::from(object.dlc.get())
}

/// Four flags side by side, the first highest.
#[inline(always)]
fn joint(first: bool, second: bool, third: bool, fourth: bool) -> u64
    ensures value { result
        ≡ at 3 (flag first) + at 2 (flag second) + at 1 (flag third) + flag fourth }
    ensures small { result < 16 }
{
    let upper = u64::from(first) * 2 + u64::from(second);
    (upper * 2 + u64::from(third)) * 2 + u64::from(fourth)
}

/// The body of a record, in which MsgVal is 0.
pub fn body_of(object: &Record) -> [u64; 2]
    ensures value { result ≡ body_of object.now }
    ensures is_record { IsRecord object.now }
{
    let unmarked = Record {
        valid: false,
        ..*object
    };
    let [identifiers, _control, content] = pack(&unmarked);
    [identifiers, content]
}

/// The record that has these marks and this body. If no record has them, it is an unspecified record. In a place that
/// an object's word named, there are always those of a record.
pub fn joined(marks: u64, body: [u64; 2]) -> Record
    requires { marks < marks_limit }
    ensures { (object : Record) → IsRecord object → marks_of object ≡ marks
        → body_of object ≡ body → result ≡ object }
{
    let [identifiers, content] = body;
    let control = marks / 16 % 512 * 128 + marks % 16;
    let unmarked = unpack([identifiers, control, content]).unwrap_or(Record::zero());
    Record {
        valid: marks / 8192 == 1,
        ..unmarked
    }
}
