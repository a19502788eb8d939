ghost use Rattle.std.specs.Prelude.{◌≡◌, ◌≤◌};
ghost use Rattle.ccan_confine.specs.StatusFlags.{Flags, flags_after, highest_code};
ghost use Rattle.ccan_confine.specs.StatusEvent.{HasFaultCode};
ghost use Rattle.ccan_confine.specs.RegisterWords.{flags_in};

use crate::bits::{bit, part};
use crate::status_event::StatusEvent;
use std::marker::Model;

/// What is stored of the Status register and a host may write: TxOk, RxOk and LEC (C_CAN User's Manual 1.2, "Status
/// Register"). LEC is 0 to 7: 0 none, 1 stuff, 2 form, 3 acknowledgement, 4 bit 1, 5 bit 0, 6 CRC. No event sets 7: a
/// host writes it to see whether one has set LEC since. Contracts see the record of the parts.
#[derive(Clone, Copy, Debug, PartialEq, Eq, Hash)]
pub struct StatusFlags {
    tx_ok: bool,
    rx_ok: bool,
    lec: u8,
}

impl Model for StatusFlags {
    ghost use Rattle.std.specs.Prelude.{◌≤◌};
    ghost use Rattle.ccan_confine.specs.StatusFlags.{Flags, highest_code};

    ghost Value = { Flags };

    ghost view = { λ s. record { tx_ok = s.tx_ok; rx_ok = s.rx_ok; lec = s.lec } };

    ghost invariant = { λ s. s.lec ≤ highest_code };

    // The fields back from the value: a `Copy` type with a model states it.
    ghost inverse = { λ s. record { tx_ok = s.tx_ok; rx_ok = s.rx_ok; lec = s.lec } };
}

impl StatusFlags {
    /// These flags and this last error code.
    #[inline(always)]
    pub fn new(tx_ok: bool, rx_ok: bool, lec: u8) -> StatusFlags
        requires { lec ≤ highest_code }
        ensures { result ≡ record { tx_ok = tx_ok; rx_ok = rx_ok; lec = lec } }
    {
        StatusFlags { tx_ok, rx_ok, lec }
    }

    /// What a host writes into the Status register with this word: RxOk 4, TxOk 3, LEC 2 to 0. Its other bits are dropped.
    #[inline(always)]
    pub fn of_word(word: u16) -> StatusFlags
        ensures { result ≡ flags_in word }
    {
        let word = u64::from(word);
        StatusFlags::new(bit(word, 3), bit(word, 4), part(word, 0, 3) as u8)
    }

    /// TxOk: a frame was sent.
    #[inline(always)]
    pub fn tx_ok(self) -> bool
        ensures { result ≡ self.tx_ok }
    {
        self.tx_ok
    }

    /// RxOk: a frame was received.
    #[inline(always)]
    pub fn rx_ok(self) -> bool
        ensures { result ≡ self.rx_ok }
    {
        self.rx_ok
    }

    /// LEC: the last error code.
    #[inline(always)]
    pub fn lec(self) -> u8
        ensures value { result ≡ self.lec }
        ensures in_range { result ≤ highest_code }
    {
        self.lec
    }

    // The flags after an event.
    pub(crate) fn after(self, event: StatusEvent) -> StatusFlags
        requires { HasFaultCode event }
        ensures { result ≡ flags_after event self }
    {
        StatusFlags {
            tx_ok: self.tx_ok || event.is_sent(),
            rx_ok: self.rx_ok || event.is_received(),
            lec: event.code().unwrap_or(self.lec),
        }
    }
}
