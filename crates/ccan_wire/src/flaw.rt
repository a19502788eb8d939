ghost use Rattle.std.specs.Prelude.{◌≡◌, ◌≤◌};
ghost use Rattle.ccan_wire.specs.Flaw.{code_of, is_before_the_ack_slot, is_in_the_stuffed_part};

/// An error that a member finds in a frame by itself (CAN Specification 2.0, "Error Detection"), so not one that it sees because
/// another member sent an error flag. An acknowledge error is not one: it comes from what the members do.
///
/// Where in the frame each is found, and so where the member's error flag begins, is given for the usual case:
///
/// | flaw | found by a sender | found by a listener |
/// |---|---|---|
/// | `Stuff` | between the start of the frame and its check sequence | there too |
/// | `Bit1`, `Bit0` | there too | in the ACK slot, the one bit that a listener sends; its flag begins after it |
/// | `Form` | in the CRC delimiter; its flag begins in the ACK slot | there too |
/// | `Crc` | as `Form`, since a sender checks no sequence | in the check sequence; its flag begins after the ACK delimiter |
#[derive(Clone, Copy, Debug, PartialEq, Eq, Hash)]
pub enum Flaw {
    /// Six equal bits in a row.
    Stuff,
    /// A wrong bit in a field of fixed form.
    Form,
    /// It sent a recessive bit and saw a dominant one.
    Bit1,
    /// It sent a dominant bit and saw a recessive one.
    Bit0,
    /// A check sequence that does not fit the frame.
    Crc,
}

impl Flaw {
    /// The last error code (LEC) of the member that finds it: 1 stuff, 2 form, 4 bit 1, 5 bit 0, 6 CRC.
    pub fn code(self) -> u8
        ensures value { result ≡ code_of self }
        ensures least { 1 ≤ result }
        ensures most { result ≤ 6 }
    {
        match self {
            Flaw::Stuff => 1,
            Flaw::Form => 2,
            Flaw::Bit1 => 4,
            Flaw::Bit0 => 5,
            Flaw::Crc => 6,
        }
    }

    /// Whether it is found between the start of the frame and the end of its check sequence, where bits are stuffed.
    pub fn is_in_the_stuffed_part(self, sends: bool) -> bool
        ensures { result ≡ is_in_the_stuffed_part sends self }
    {
        match self {
            Flaw::Stuff => true,
            Flaw::Bit1 | Flaw::Bit0 => sends,
            Flaw::Form | Flaw::Crc => false,
        }
    }

    /// Whether it is found in the CRC delimiter, so that the error flag begins in the ACK slot.
    pub fn is_before_the_ack_slot(self, sends: bool) -> bool
        ensures { result ≡ is_before_the_ack_slot sends self }
    {
        match self {
            Flaw::Form => true,
            Flaw::Crc => sends,
            Flaw::Stuff | Flaw::Bit1 | Flaw::Bit0 => false,
        }
    }
}
