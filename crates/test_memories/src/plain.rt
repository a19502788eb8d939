//! A plain memory, for worked examples.

ghost use Rattle.ccan_ram.specs.Port.{IsQuota};

use crate::expect::{change_of, tries};
use ccan_accept::Frame;
use ccan_handler::{ScanRefused, Stored};
use ccan_object::{ObjectNo, Profile, Record, Reg};
use ccan_ram::{Access, Array, Change, Changed, Flag, PortName, Refused, Sending};
use test_contended::calls;

/// A plain memory, whose changes have four tries. Its calls promise nothing, so a test has no more to carry than its own lines. A
/// request names an object, as in the Command Request register; what scans and reads all objects is the bus's.
#[derive(Drop)]
pub struct Plain {
    ram: Array,
}

/// What a scan for an object that is ready found, and what its start left.
pub type Chosen = Result<Option<(ObjectNo, Record)>, ScanRefused>;

impl Plain {
    /// A memory whose ports may each make so many changes.
    pub fn new(profile: Profile, quota: u64) -> Plain
        requires { IsQuota quota }
    {
        Plain {
            ram: Array::new(profile, quota),
        }
    }

    /// The object that a request names.
    pub fn object(&self, request: u16) -> ObjectNo {
        ObjectNo::from_request(self.ram.profile(), request)
    }

    /// A change by a port.
    pub fn change(
        &mut self,
        port: PortName,
        request: u16,
        change: &Change,
    ) -> Result<Changed, Refused> {
        self.ram.at(port);
        let object = ObjectNo::from_request(self.ram.profile(), request);
        self.ram.change(object, change, tries(4))
    }

    /// A write by IF1 with these registers. Whether it was made.
    pub fn write(&mut self, request: u16, some: &[(Reg, u16)], more: &[(Reg, u16)]) -> bool {
        let change = change_of(some, more);
        matches!(
            self.change(PortName::If1, request, &change),
            Ok(Changed::Done { .. })
        )
    }

    /// A look.
    pub fn look(&mut self, request: u16) -> Record {
        let object = ObjectNo::from_request(self.ram.profile(), request);
        self.ram.look(object)
    }

    /// The choice of what is sent, from an object on.
    pub fn choose_from(&mut self, request: u16) -> Chosen {
        self.ram.at(PortName::Bus);
        calls::choose_from(&mut self.ram, request, tries(4))
    }

    /// The choice of what is sent.
    pub fn choose(&mut self) -> Chosen {
        self.ram.at(PortName::Bus);
        calls::choose(&mut self.ram, tries(4))
    }

    /// The same, of one moment.
    pub fn choose_at_once(&mut self, sending: Sending) -> Chosen {
        self.ram.at(PortName::Bus);
        calls::choose_at_once(&mut self.ram, sending, tries(4))
    }

    /// A receipt of a frame.
    pub fn receive(&mut self, frame: &Frame) -> Result<Option<Stored>, ScanRefused> {
        self.ram.at(PortName::Bus);
        calls::receive(&mut self.ram, frame, tries(4))
    }

    /// The same from an object on.
    pub fn receive_from(
        &mut self,
        frame: &Frame,
        request: u16,
    ) -> Result<Option<Stored>, ScanRefused> {
        self.ram.at(PortName::Bus);
        calls::receive_from(&mut self.ram, frame, request, tries(4))
    }

    /// A flag of all objects, by looks one after another, and by one look at all.
    pub fn flags(&mut self, flag: Flag) -> [u64; 2] {
        let word = calls::flags(&mut self.ram, flag);
        [word, calls::flags_at_once(&mut self.ram, flag)]
    }

    /// The interrupt value, likewise.
    pub fn interrupt(&mut self, status_pending: bool) -> [u16; 2] {
        let value = calls::interrupt(&mut self.ram, status_pending);
        [
            value,
            calls::interrupt_at_once(&mut self.ram, status_pending),
        ]
    }

    /// Whether an object shows a flag within so many looks.
    pub fn shows_within(&mut self, request: u16, flag: Flag, turns: u32) -> bool {
        calls::until(&mut self.ram, request, flag, turns)
    }
}
