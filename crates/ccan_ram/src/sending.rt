ghost use Rattle.std.specs.Prelude.{◌≡◌};

use crate::change::Change;

/// How often the frame of an object is tried on the bus.
#[derive(Clone, Copy, PartialEq, Eq, Hash, Debug)]
pub enum Sending {
    /// Until it was sent: if it fails, it stays requested and is tried again.
    UntilSent,
    /// Once (C_CAN User's Manual 1.2, "Disabled Automatic Retransmission"): if it fails, it is no longer requested.
    Once,
}

impl Sending {
    ghost use Rattle.ccan_ram.specs.Sending.{finish_by, start_by};

    /// The change that starts the transmission.
    pub fn start(self) -> Change
        ensures { result ≡ start_by self }
    {
        match self {
            Sending::UntilSent => Change::Start,
            Sending::Once => Change::StartOnce,
        }
    }

    /// The change that ends it, once the frame was sent.
    pub fn finish(self) -> Change
        ensures { result ≡ finish_by self }
    {
        match self {
            Sending::UntilSent => Change::Finish,
            Sending::Once => Change::FinishOnce,
        }
    }
}
