//! Laws of the definitions. The functions do nothing: their contracts are the laws.

ghost use Rattle.ccan_object.specs.Laws.{ReadsBeforeClearing, ReadsByGroups, RegistersReadBack, RoundTrips, WritesByGroups};

/// A masked write takes each selected group from the buffer and leaves each other group, except for TxRqst by bit 2.
pub fn writes_go_by_groups()
    ensures { WritesByGroups }
{}

/// A read shows each selected group of the object in the interface buffer, and leaves each other group of the buffer.
pub fn reads_go_by_groups()
    ensures { ReadsByGroups }
{}

/// A clearing read shows the object as it was before, group by group and with its flags, and then clears IntPnd and
/// NewDat by their bits and nothing else.
pub fn reads_before_clearing()
    ensures { ReadsBeforeClearing }
{}

/// A register reads back as it was written, less its reserved bits, and every other register as before.
pub fn registers_read_back()
    ensures { RegistersReadBack }
{}

/// A packed record is unpacked as itself, what is unpacked packs to the same words, and nothing is unpacked exactly when
/// no record packs to them.
pub fn round_trips()
    ensures { RoundTrips }
{}
