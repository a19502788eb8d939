ghost use Rattle.std.specs.Prelude.{◌≡◌};
ghost use Rattle.ccan_confine.specs.StatusEvent.{code_of, is_received, is_sent, is_transfer_or_error};

/// What happens to the Status register of the controller (C_CAN User's Manual 1.2, "Status Register"). Each is given
/// with the error counters as they are after it, since BOff and EWarn follow them.
#[derive(Clone, Copy, Debug, PartialEq, Eq, Hash)]
pub enum StatusEvent {
    /// The controller sent a frame: sets TxOk, and LEC to 0.
    Sent,
    /// It received a frame, whether a message object accepts it or not: sets RxOk, and LEC to 0.
    Received,
    /// In loop back mode it sent a frame and received it: sets TxOk and RxOk, and LEC to 0.
    Looped,
    /// An error on the bus, with its last error code, which becomes LEC: 1 stuff, 2 form, 3 acknowledgement, 4 bit 1,
    /// 5 bit 0, 6 CRC.
    Fault(u8),
    /// Groups of eleven recessive bits while the controller recovers from bus off: sets LEC to 5. It is no transfer and
    /// no error, so with SIE alone it makes nothing pending.
    Recovery,
    /// Only the counters may have changed: LEC stays.
    Level,
}

impl StatusEvent {
    // The last error code that it sets, if it sets one.
    pub(crate) fn code(self) -> Option<u8>
        ensures { result ≡ code_of self }
    {
        match self {
            StatusEvent::Sent | StatusEvent::Received | StatusEvent::Looped => Some(0),
            StatusEvent::Fault(code) => Some(code),
            StatusEvent::Recovery => Some(5),
            StatusEvent::Level => None,
        }
    }

    // Whether the controller sent a frame.
    pub(crate) fn is_sent(self) -> bool
        ensures { result ≡ is_sent self }
    {
        matches!(self, StatusEvent::Sent | StatusEvent::Looped)
    }

    // Whether it received one.
    pub(crate) fn is_received(self) -> bool
        ensures { result ≡ is_received self }
    {
        matches!(self, StatusEvent::Received | StatusEvent::Looped)
    }

    // Whether a message transfer ended or a bus error came.
    pub(crate) fn is_transfer_or_error(self) -> bool
        ensures { result ≡ is_transfer_or_error self }
    {
        matches!(
            self,
            StatusEvent::Sent | StatusEvent::Received | StatusEvent::Looped | StatusEvent::Fault(_)
        )
    }
}
