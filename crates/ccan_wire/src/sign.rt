/// What a member may do on the bus while a frame is sent, as the others see it.
#[derive(Clone, Copy, Debug, PartialEq, Eq)]
pub(crate) enum Sign {
    /// Its error flag, of dominant bits, begins before the end of the check sequence.
    Breaks,
    /// It sends the frame beyond the end of the check sequence.
    GoesOn,
    /// Its error flag, of dominant bits, begins in the ACK slot.
    Covers,
    /// It sends an error flag of dominant bits, wherever that begins.
    Flags,
    /// It sends an error flag of dominant bits in a frame that nobody acknowledges.
    Protests,
    /// It sends a dominant bit in the ACK slot.
    Acknowledges,
}
