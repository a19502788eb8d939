ghost use Rattle.std.specs.Prelude.{◌≡◌, map};
ghost use Rattle.ccan_c.specs.Record.{IsFinal, c_record};

use crate::shown_record::ShownRecord;
use ccan_object::{MOST_OBJECTS, Record};
use ccan_ram::Final;

/// The records that a chip ends with.
#[repr(C)]
#[derive(Clone, Copy, PartialEq, Eq, Debug)]
pub struct ShownFinal {
    /// How many objects the chip has.
    pub objects: u32,
    /// The record of object 1 first. The records past the chip's last object are zero.
    pub records: [ShownRecord; 64],
}

/// Records as C sees them.
fn c_records(records: &[Record; MOST_OBJECTS]) -> [ShownRecord; 64]
    ensures { result ≡ map c_record records.now }
{
    let mut shown = [ShownRecord::of(&Record::zero()); 64];
    for i in 0..64 {
        shown[i] = ShownRecord::of(&records[i]);
    }
    shown
}

impl ShownFinal {
    /// The records of a memory as C sees them.
    pub(crate) fn of(last: &Final) -> ShownFinal
        ensures { IsFinal last.now result }
    {
        ShownFinal {
            objects: u32::from(last.profile.objects()),
            records: c_records(&last.records),
        }
    }
}
