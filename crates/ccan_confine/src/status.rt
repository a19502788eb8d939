ghost use Rattle.std.specs.Prelude.{◌≡◌, ℕ, ◌<◌, ◌≤◌, ◌↔◌, IsTrue, false, List, [], ◌∷◌, if◌then◌else◌};
ghost use Rattle.ccan_confine.specs.StatusEvent.{HasFaultCode};
ghost use Rattle.ccan_confine.specs.Counters.{Levels, is_off, reaches};
ghost use Rattle.ccan_confine.specs.Status.{StatusStep, Happened, Enabled, WasRead, IsPending, IsHeldAfter, AddsStep};
ghost use Rattle.ccan_confine.specs.Status.{nothing_held, warning_limit, raises, held_after, word_held, word_after};
ghost use Rattle.ccan_confine.specs.Status.{lec_of, word_of};

use crate::counters::{Counters, PASSIVE};
use crate::status_event::StatusEvent;
use std::marker::Model;

/// From this count of either counter on the register shows EWarn.
pub(crate) const WARNING: u16 = 96;

// The flags of the word, each at its place.
const BOFF: u16 = 1 << 7;

const EWARN: u16 = 1 << 6;

const EPASS: u16 = 1 << 5;

const RX_OK: u16 = 1 << 4;

const TX_OK: u16 = 1 << 3;

/// The Status register of the controller, with its interrupt and the two bits of the Control register that enable it.
///
/// The word has BOff (bus off) at bit 7, EWarn (a counter is at least 96) at 6, EPass (a counter is at least 128) at 5,
/// RxOk (a frame was received) at 4, TxOk (a frame was sent) at 3, and LEC, the last error code, at 2 to 0: 0 none,
/// 1 stuff, 2 form, 3 acknowledgement, 4 bit 1, 5 bit 0, 6 CRC. BOff, EWarn and EPass are those of the error counters
/// at the read, so that each call is given the `Counters` of the controller. Nothing clears RxOk and TxOk. Contracts
/// see the record of the parts.
#[derive(Clone, Copy, Debug, PartialEq, Eq, Hash)]
pub struct Status {
    tx_ok: bool,
    rx_ok: bool,
    lec: u8,
    sie: bool,
    eie: bool,
    boff: bool,
    ewarn: bool,
    pending: bool,
}

impl Model for Status {
    ghost use Rattle.std.specs.Prelude.{◌≤◌};
    ghost use Rattle.ccan_confine.specs.Status.{Held};

    ghost Value = { Held };

    ghost view = { λ s. record {
      tx_ok = s.tx_ok;
      rx_ok = s.rx_ok;
      lec = s.lec;
      sie = s.sie;
      eie = s.eie;
      boff = s.boff;
      ewarn = s.ewarn;
      pending = s.pending;
    } };

    ghost invariant = { λ s. s.lec ≤ 6 };

    // The fields back from the value: a `Copy` type with a model states it.
    ghost inverse = { λ s. record {
      tx_ok = s.tx_ok;
      rx_ok = s.rx_ok;
      lec = s.lec;
      sie = s.sie;
      eie = s.eie;
      boff = s.boff;
      ewarn = s.ewarn;
      pending = s.pending;
    } };
}

impl Status {
    /// The register as it opens: nothing happened yet, and SIE and EIE are 0.
    pub fn new() -> Status
        ensures opened { result ≡ nothing_held }
        ensures listed { IsHeldAfter [] result }
    {
        Status {
            tx_ok: false,
            rx_ok: false,
            lec: 0,
            sie: false,
            eie: false,
            boff: false,
            ewarn: false,
            pending: false,
        }
    }

    /// An event, with the error counters of the controller after it. It makes the status interrupt pending if SIE is
    /// 1 and it is a transfer or an error, or if EIE is 1 and BOff or EWarn differs from the event before (from 0
    /// before the first). The code of a `Fault` has to be 1 to 6.
    pub fn after(&mut self, event: StatusEvent, counters: &Counters)
        requires { HasFaultCode event }
        ensures changed { self.new ≡ held_after event counters.now.levels self.old }
        ensures listed { AddsStep (Happened event counters.now.levels) self.old self.new }
    {
        self.pending = self.pending || self.is_raised(event, counters);
        self.tx_ok = self.tx_ok || event.is_sent();
        self.rx_ok = self.rx_ok || event.is_received();
        self.lec = event.code().unwrap_or(self.lec);
        self.boff = counters.is_off();
        self.ewarn = counters.reaches(WARNING);
    }

    /// Writes SIE (an interrupt for each transfer and error) and EIE (one for each change of BOff or EWarn), the bits 2
    /// and 3 of the Control register (C_CAN User's Manual 1.2, "CAN Control Register"). It leaves an interrupt pending.
    pub fn enable(&mut self, sie: bool, eie: bool)
        ensures changed { self.new ≡ record self.old { sie = sie; eie = eie } }
        ensures listed { AddsStep (Enabled sie eie) self.old self.new }
    {
        self.sie = sie;
        self.eie = eie;
    }

    /// Reads the register, a word below 256. The status interrupt is then no longer pending; the flags stay.
    pub fn read(&mut self, counters: &Counters) -> u16
        ensures word { result ≡ word_held self.old counters.now.levels }
        ensures in_range { result < 256 }
        ensures changed { self.new ≡ record self.old { pending = false } }
        ensures answers { (steps : List StatusStep) → IsHeldAfter steps self.old
            → result ≡ word_after steps counters.now.levels }
        ensures listed { AddsStep WasRead self.old self.new }
    {
        self.pending = false;
        self.word(counters)
    }

    /// Whether the status interrupt is pending: it is pending from its cause to the next read.
    pub fn pending(&self) -> bool
        ensures value { result ≡ self.now.pending }
        ensures listed { (steps : List StatusStep) → IsHeldAfter steps self.now
            → (IsTrue result ↔ IsPending steps) }
    {
        self.pending
    }

    /// LEC, the last error code: 0 none, 1 stuff, 2 form, 3 acknowledgement, 4 bit 1, 5 bit 0, 6 CRC.
    pub fn lec(&self) -> u8
        ensures value { result ≡ self.now.lec }
        ensures in_range { result ≤ 6 }
        ensures listed { (steps : List StatusStep) → IsHeldAfter steps self.now
            → result ≡ lec_of steps }
    {
        self.lec
    }

    fn word(&self, counters: &Counters) -> u16
        ensures word { result ≡ word_held self.now counters.now.levels }
        ensures in_range { result < 256 }
    {
        register_word(self.tx_ok, self.rx_ok, self.lec, counters)
    }

    // Whether this event makes the interrupt pending.
    fn is_raised(&self, event: StatusEvent, counters: &Counters) -> bool
        ensures { result ≡ raises self.now event counters.now.levels }
    {
        self.sie && event.is_transfer_or_error()
            || self.eie
                && (counters.is_off() != self.boff || counters.reaches(WARNING) != self.ewarn)
    }
}

// The word of the register. The flags have places of their own and above LEC, so that their sum is their union; a sum
// is what the prover reads best.
#[inline(always)]
pub(crate) fn register_word(tx_ok: bool, rx_ok: bool, lec: u8, counters: &Counters) -> u16
    requires { lec ≤ 7 }
    ensures word { result ≡ word_of tx_ok rx_ok lec counters.now.levels }
    ensures in_range { result < 256 }
{
    bit(BOFF, counters.is_off())
        + bit(EWARN, counters.reaches(WARNING))
        + bit(EPASS, counters.reaches(PASSIVE))
        + bit(RX_OK, rx_ok)
        + bit(TX_OK, tx_ok)
        + u16::from(lec)
}

// The mask if the flag is set, else 0.
fn bit(mask: u16, set: bool) -> u16
    ensures { result ≡ (if set then mask else 0) }
{
    if set { mask } else { 0 }
}

impl Default for Status {
    ghost is_default = { λ s. s ≡ nothing_held };

    fn default() -> Status {
        Status::new()
    }
}
