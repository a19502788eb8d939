ghost use Rattle.std.specs.Prelude.{◌≡◌, ◌<◌, ◌^◌, false};
ghost use Rattle.ccan_confine.specs.declared.controller.Controller.{Controller};
ghost use Rattle.ccan_confine.specs.StatusEvent.{HasFaultCode};
ghost use Rattle.ccan_confine.specs.Controller.{CanMake, IsController, changed_by, changes_level, controller_after, counted};
ghost use Rattle.ccan_confine.specs.Controller.{is_powered_down, powered_down};
ghost use Rattle.ccan_confine.specs.Controller.{leaving};
ghost use Rattle.ccan_confine.specs.Controller.{controlled, new_controller, packed, packed_flags, packed_numbers, packed_timing};
ghost use Rattle.ccan_confine.specs.Controller.{recovery_of, reset_controller, shows_interrupt, status_word, timed, unpacked};
ghost use Rattle.ccan_confine.specs.RegisterWords.{error_counter_word};

use crate::bit_timing::BitTiming;
use crate::bits::{bit, flag, part};
use crate::control_register::ControlRegister;
use crate::controller_change::ControllerChange;
use crate::counters::{Counters, PASSIVE};
use crate::status::{WARNING, register_word};
use crate::status_event::StatusEvent;
use crate::status_flags::StatusFlags;
use crate::test_register::TestRegister;

/// The Bit Timing register after a hardware reset: TSeg2 2, TSeg1 3, SJW 0 and BRP 1.
const BIT_TIMING_AT_RESET: u16 = 0x2301;

/// The registers of a controller at one moment: Control, Status, the error counters, Bit Timing, BRP Extension and Test, with
/// the status interrupts that are pending.
///
/// They fit into one word of 64 bits, so that they may be kept beside the words of the message objects:
///
/// | bits | field | bits | field |
/// |---|---|---|---|
/// | 0 to 7 | REC | 33 | IE |
/// | 8 to 16 | TEC | 34 | SIE |
/// | 17 to 23 | the groups that count so far | 35 | EIE |
/// | 24 to 26 | LEC | 36 | DAR |
/// | 27 | TxOk | 37 | CCE |
/// | 28 | RxOk | 38 | Test |
/// | 29 | pending of a transfer or an error | 39 | Basic |
/// | 30 | pending of a change of BOff or EWarn | 40 | Silent |
/// | 31 | Init was cleared since it went off | 41 | LBack |
/// | 32 | Init | 42 to 56 | Bit Timing |
/// | | | 57 to 60 | BRP Extension |
/// | | | 61 | the controller has left the bus |
/// | | | 62 | PDR |
/// | | | 63 | 0 |
#[derive(Clone, Copy, Debug, PartialEq, Eq, Hash)]
pub struct Controller {
    /// The error counters, with what the way back from bus off needs.
    pub counters: Counters,
    /// The Control register.
    pub control: ControlRegister,
    /// What the Status register stores.
    pub status: StatusFlags,
    /// A status interrupt of a transfer or an error was raised since the last read of the Status register.
    pub transfer_pending: bool,
    /// A status interrupt of a change of BOff or EWarn was raised since then.
    pub level_pending: bool,
    /// The Test register.
    pub test: TestRegister,
    /// The Bit Timing and the BRP Extension register.
    pub timing: BitTiming,
    /// The controller has left the bus: Init was 1 at some moment since the message handler joined last (own). So a frame
    /// that was loaded before that moment is not sent after it.
    pub has_left: bool,
}

impl Controller {
    /// A controller as it opens: every register is 0, Init too.
    pub fn new() -> Controller
        ensures opened { result ≡ new_controller }
        ensures is { IsController result }
    {
        Controller {
            counters: Counters::new(true),
            control: ControlRegister::default(),
            status: StatusFlags::new(false, false, 0),
            transfer_pending: false,
            level_pending: false,
            test: TestRegister::default(),
            timing: BitTiming::new(0, 0),
            has_left: false,
        }
    }

    // The controller as a hardware reset leaves it.
    fn reset() -> Controller
        ensures { result ≡ reset_controller }
    {
        let control = ControlRegister {
            init: true,
            ..ControlRegister::default()
        };
        Controller {
            control,
            timing: BitTiming::new(BIT_TIMING_AT_RESET, 0),
            has_left: true,
            ..Controller::new()
        }
    }

    /// The controller after a change. The code of a `Fault` in it has to be 1 to 6.
    #[must_use]
    #[inline(always)]
    pub fn after(self, change: &ControllerChange) -> Controller
        requires { CanMake change.now }
        ensures changed { result ≡ controller_after change.now self }
        ensures is { IsController self → IsController result }
    {
        let after = self.changed(change).leaving();
        // What these answer is in its range.
        let _ = after.counters.numbers();
        let _ = after.status.lec();
        let _ = after.timing.register();
        let _ = after.timing.extension();
        after
    }

    /// Whether the Interrupt register shows the status interrupt, 0x8000. What was raised while SIE or EIE was 0 is
    /// shown once the bit is 1, if no read came between. The interrupt line also needs IE.
    #[inline(always)]
    pub fn shows_status_interrupt(&self) -> bool
        ensures { result ≡ shows_interrupt self.now }
    {
        self.control.sie && self.transfer_pending || self.control.eie && self.level_pending
    }

    /// The word of the Status register: BOff 7, EWarn 6, EPass 5, RxOk 4, TxOk 3, LEC 2 to 0.
    #[inline(always)]
    pub fn status_word(&self) -> u16
        ensures word { result ≡ status_word self.now }
        ensures in_range { result < 256 }
    {
        register_word(
            self.status.tx_ok(),
            self.status.rx_ok(),
            self.status.lec(),
            &self.counters,
        )
    }

    /// The word of the Error Counter register: RP 15 (REC is at least 128), the low seven bits of REC 14 to 8, TEC 7 to 0;
    /// a TEC above 255 shows as 255 (C_CAN User's Manual 1.2, "Error Counter").
    #[inline(always)]
    pub fn error_counter_word(&self) -> u16
        ensures { result ≡ error_counter_word self.now }
    {
        let (tec, rec, _) = self.counters.numbers();
        (flag(rec >= u64::from(PASSIVE), 15) + ((rec % (1 << 7)) << 8) + tec.min(255)) as u16
    }

    /// PDA of a D_CAN, bit 10 of its Error and Status register: PDR asks for local power down, and Init is 1 (Texas
    /// Instruments, AM335x Technical Reference Manual, chapter DCAN, "Local Power-Down Mode").
    #[inline(always)]
    pub fn is_powered_down(&self) -> bool
        ensures { result ≡ is_powered_down self.now }
    {
        self.control.pdr && self.control.init
    }

    /// The registers in one word, below 2^63.
    #[inline(always)]
    pub fn pack(&self) -> u64
        ensures word { result ≡ packed self.now }
        ensures small { result < 2 ^ 63 }
    {
        let left = flag(self.control.pdr, 62) + flag(self.has_left, 61);
        left + (self.pack_timing() << 42) + (self.pack_flags() << 27) + self.pack_numbers()
    }

    /// The controller that packs to this word; some controller if none does.
    #[inline(always)]
    pub fn unpack(word: u64) -> Controller
        ensures { (c : Controller) → IsController c → packed c ≡ word → result ≡ c }
    {
        Controller::unpacked(word)
    }

    #[inline(always)]
    fn pack_flags(&self) -> u64
        ensures word { result ≡ packed_flags self.now }
        ensures small { result < 2 ^ 15 }
    {
        flag(self.test.lback, 14)
            + flag(self.test.silent, 13)
            + flag(self.test.basic, 12)
            + flag(self.control.test, 11)
            + flag(self.control.cce, 10)
            + flag(self.control.dar, 9)
            + flag(self.control.eie, 8)
            + flag(self.control.sie, 7)
            + flag(self.control.ie, 6)
            + flag(self.control.init, 5)
            + flag(self.counters.init_cleared, 4)
            + flag(self.level_pending, 3)
            + flag(self.transfer_pending, 2)
            + flag(self.status.rx_ok(), 1)
            + flag(self.status.tx_ok(), 0)
    }

    #[inline(always)]
    fn pack_numbers(&self) -> u64
        ensures word { result ≡ packed_numbers self.now }
        ensures small { result < 2 ^ 27 }
    {
        let (tec, rec, groups) = self.counters.numbers();
        (u64::from(self.status.lec()) << 24) + (groups << 17) + (tec << 8) + rec
    }

    #[inline(always)]
    fn pack_timing(&self) -> u64
        ensures word { result ≡ packed_timing self.now }
        ensures small { result < 2 ^ 19 }
    {
        (u64::from(self.timing.extension()) << 15) + u64::from(self.timing.register())
    }

    #[inline(always)]
    fn unpacked(word: u64) -> Controller
        ensures { result ≡ unpacked word }
    {
        let flags = part(word, 27, 15);
        let register = part(word, 42, 15) as u16;
        let extension = part(word, 57, 4) as u16;
        let lec = part(word, 24, 3) as u8;
        Controller {
            counters: Counters {
                host: true,
                tec: (part(word, 8, 9) as u16).min(263),
                rec: part(word, 0, 8) as u8,
                init_cleared: bit(flags, 4),
                groups: part(word, 17, 7) as u8,
            },
            control: ControlRegister {
                init: bit(flags, 5),
                ie: bit(flags, 6),
                sie: bit(flags, 7),
                eie: bit(flags, 8),
                dar: bit(flags, 9),
                cce: bit(flags, 10),
                test: bit(flags, 11),
                pdr: bit(word, 62),
            },
            status: StatusFlags::new(bit(flags, 0), bit(flags, 1), lec),
            transfer_pending: bit(flags, 2),
            level_pending: bit(flags, 3),
            test: TestRegister {
                basic: bit(flags, 12),
                silent: bit(flags, 13),
                lback: bit(flags, 14),
            },
            timing: BitTiming::new(register, extension),
            has_left: bit(word, 61),
        }
    }

    // The controller, which has left the bus if Init is 1.
    #[inline(always)]
    fn leaving(self) -> Controller
        ensures { result ≡ leaving self }
    {
        Controller {
            has_left: self.has_left || self.control.init,
            ..self
        }
    }

    #[inline(always)]
    fn changed(self, change: &ControllerChange) -> Controller
        requires { CanMake change.now }
        ensures { result ≡ changed_by change.now self }
    {
        match *change {
            ControllerChange::Frame(event, noted) => self.counted(
                noted,
                self.counters.after(event),
            ),
            ControllerChange::Recessive(groups) => self.grouped(groups),
            ControllerChange::ReadStatus => self.read(self.status),
            ControllerChange::ReadAndClearStatus => self.read(StatusFlags::new(false, false, 7)),
            ControllerChange::WriteStatus(status) => Controller { status, ..self },
            ControllerChange::WriteControl(control) => self.controlled(control),
            ControllerChange::WriteControlBits(which, to) => {
                self.controlled(self.control.with(which, to))
            }
            ControllerChange::WriteTest(test) if self.control.test => Controller { test, ..self },
            ControllerChange::WriteTest(_) => self,
            ControllerChange::WriteBitTiming(word) => self.timed(self.timing.with_register(word)),
            ControllerChange::WriteExtension(word) => self.timed(self.timing.with_extension(word)),
            ControllerChange::WriteTiming(register, extension) => {
                self.timed(BitTiming::new(register, extension))
            }
            ControllerChange::Reset => Controller::reset(),
            ControllerChange::ResetDcan => Controller {
                status: StatusFlags::new(false, false, 7),
                ..Controller::reset()
            },
            ControllerChange::Join => Controller {
                has_left: false,
                ..self
            },
            ControllerChange::PowerDown => self.powered_down(),
        }
    }

    // In local power down, if PDR asks for it.
    #[inline(always)]
    fn powered_down(self) -> Controller
        ensures { result ≡ powered_down self }
    {
        Controller {
            control: ControlRegister {
                init: self.control.init || self.control.pdr,
                ..self.control
            },
            ..self
        }
    }

    // The controller with these counters, after this event of the Status register.
    #[inline(always)]
    fn counted(self, event: StatusEvent, counters: Counters) -> Controller
        requires { HasFaultCode event }
        ensures { result ≡ counted event counters self }
    {
        let goes_off = !self.counters.is_off() && counters.is_off();
        Controller {
            counters,
            control: ControlRegister {
                init: self.control.init || goes_off,
                ..self.control
            },
            status: self.status.after(event),
            transfer_pending: self.transfer_pending || event.is_transfer_or_error(),
            level_pending: self.level_pending || changes_level(self.counters, counters),
            ..self
        }
    }

    // After groups of recessive bits.
    #[inline(always)]
    fn grouped(self, groups: u16) -> Controller
        ensures { result ≡ changed_by (ControllerChange.Recessive groups) self }
    {
        let event = recovery_of(groups, self.counters);
        self.counted(event, self.counters.recessive_groups(groups))
    }

    // After a read of the Status register that leaves these flags.
    #[inline(always)]
    fn read(self, status: StatusFlags) -> Controller
        ensures { result
            ≡ record self { status = status; transfer_pending = false; level_pending = false } }
    {
        Controller {
            status,
            transfer_pending: false,
            level_pending: false,
            ..self
        }
    }

    // After a write of the Control register.
    #[inline(always)]
    fn controlled(self, control: ControlRegister) -> Controller
        ensures { result ≡ controlled control self }
    {
        let counters = if self.control.init && !control.init {
            self.counters.clear_init()
        } else {
            self.counters
        };
        Controller {
            counters,
            control,
            ..self
        }
    }

    // After a write of the bit timing.
    #[inline(always)]
    fn timed(self, timing: BitTiming) -> Controller
        ensures { result ≡ timed timing self }
    {
        if self.control.init && self.control.cce {
            Controller { timing, ..self }
        } else {
            self
        }
    }
}

// What groups of recessive bits are to the Status register.
#[inline(always)]
fn recovery_of(groups: u16, counters: Counters) -> StatusEvent
    ensures value { result ≡ recovery_of groups counters }
    ensures known { HasFaultCode result }
{
    if groups >= 1 && counters.recovering() {
        StatusEvent::Recovery
    } else {
        StatusEvent::Level
    }
}

// Whether BOff or EWarn changes.
#[inline(always)]
fn changes_level(before: Counters, after: Counters) -> bool
    ensures { result ≡ changes_level before.levels after.levels }
{
    before.is_off() != after.is_off() || before.reaches(WARNING) != after.reaches(WARNING)
}

impl Default for Controller {
    ghost is_default = { λ c. c ≡ new_controller };

    fn default() -> Controller {
        Controller::new()
    }
}
