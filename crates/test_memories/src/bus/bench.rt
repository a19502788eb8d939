//! A plain memory and a bus, for worked examples.

ghost use Rattle.std.specs.Prelude.{◌≡◌, ◌≤◌};
ghost use Rattle.ccan_ram.specs.Port.{IsQuota};

use crate::expect::{change_of, tries};
use arrayvec::ArrayVec;
use ccan_accept::Frame;
use ccan_bus::{
    Bus, Choice, Decision, Fault, LoadAnswer, MemoryStep, RoundAnswer, RoundLine, RoundReport,
};
use ccan_confine::NodeState;
use ccan_object::{ObjectNo, Profile, Record, Reg};
use ccan_ram::{Access, Array, Change, Changed, PortName, Sending};

/// The object that a request names.
pub fn object(request: u16) -> ObjectNo {
    ObjectNo::from_request(Profile::One, request)
}

/// A memory and a bus.
#[derive(Drop)]
pub struct Bench {
    ram: Array,
    bus: Bus,
    ghost same: { (⟦<Array as Access>⟧.passes ram).terms.profile ≡ bus.profile },
}

impl Bench {
    /// With so many other nodes; each port may make so many changes.
    pub fn new(nodes: u8, quota: u64) -> Bench
        requires nodes { nodes ≤ 8 }
        requires quota { IsQuota quota }
    {
        Bench {
            ram: Array::new(Profile::One, quota),
            bus: Bus::new(Profile::One, nodes),
        }
    }

    /// The same, with a bus that chooses at one moment.
    pub fn choosing_at_once(nodes: u8, quota: u64) -> Bench
        requires nodes { nodes ≤ 8 }
        requires quota { IsQuota quota }
    {
        Bench {
            ram: Array::new(Profile::One, quota),
            bus: Bus::choosing_at_once(Profile::One, nodes),
        }
    }

    /// How the bus chooses.
    pub fn choice(&self) -> Choice {
        self.bus.choice()
    }

    /// A transfer by IF1 of the object that a request names, with these registers. Whether it was made.
    pub fn transfer(&mut self, request: u16, some: &[(Reg, u16)], more: &[(Reg, u16)]) -> bool {
        let change = change_of(some, more);
        self.ram.at(PortName::If1);
        let object = ObjectNo::from_request(self.ram.profile(), request);
        let made = self.ram.change(object, &change, tries(100));
        matches!(made, Ok(Changed::Done { .. }))
    }

    /// The record of the object that a request names.
    pub fn record(&self, request: u16) -> Record {
        self.ram
            .record_of(ObjectNo::from_request(self.ram.profile(), request))
    }

    /// A load by the bus.
    pub fn load(&mut self) -> LoadAnswer {
        self.ram.at(PortName::Bus);
        self.bus.load(&mut self.ram, tries(100))
    }

    /// The start of an object's transmission by a change of the bus's port, and then its note. Whether it was started.
    pub fn start(&mut self, request: u16) -> bool {
        self.ram.at(PortName::Bus);
        let object = ObjectNo::from_request(self.ram.profile(), request);
        match self.ram.change(object, &Change::Start, tries(100)) {
            Ok(Changed::Done { after, .. }) => {
                self.bus.note_loaded(object, &after);
                true
            }
            Ok(Changed::NotNow(_)) | Err(_) => false,
        }
    }

    /// Whether the controller is on.
    pub fn controller_is_on(&self) -> bool {
        self.bus.controller_is_on()
    }

    /// A round in which these nodes send, and this spoils the winner's frame. A line that can't be made is an idle round.
    pub fn round(&mut self, sends: &[(u8, Frame)], fault: Fault) -> RoundAnswer {
        match line_of(sends, fault) {
            Some(line) => {
                self.ram.at(PortName::Bus);
                self.bus.round(&mut self.ram, &line, tries(100))
            }
            None => RoundAnswer::Idle,
        }
    }

    /// A round in which these nodes send, with what came of each of its steps. None: its line can't be made.
    pub fn report(&mut self, sends: &[(u8, Frame)], fault: Fault) -> Option<RoundReport> {
        let line = line_of(sends, fault)?;
        self.ram.at(PortName::Bus);
        Some(self.bus.report_round(&mut self.ram, &line, tries(100)))
    }

    /// The same by a call for each step, if the load isn't refused.
    pub fn steps(&mut self, sends: &[(u8, Frame)], fault: Fault) -> Option<RoundReport> {
        let line = line_of(sends, fault)?;
        self.ram.at(PortName::Bus);
        let loading = self.bus.load(&mut self.ram, tries(100));
        let decision = self.bus.decide(&line);
        let end = decision.complete(&mut self.ram, Sending::UntilSent, tries(100));
        Some(RoundReport {
            loading,
            decision: Some(decision),
            end,
        })
    }

    /// What is decided in such a round, by a call for each step.
    pub fn decides(&mut self, sends: &[(u8, Frame)], fault: Fault) -> Option<Decision> {
        match self.steps(sends, fault) {
            Some(report) => report.decision,
            None => None,
        }
    }

    /// What a round in which no node sends loads, and which of its steps is refused.
    pub fn refused_step(&mut self) -> (Option<LoadAnswer>, Option<MemoryStep>) {
        match self.report(&[], Fault::Quiet) {
            Some(report) => (Some(report.loading), report.end.refused),
            None => (None, None),
        }
    }

    /// Whether a round here and its steps there come to the same.
    pub fn is_parted(&mut self, parted: &mut Bench, sends: &[(u8, Frame)], fault: Fault) -> bool {
        let whole = self.report(sends, fault);
        let steps = parted.steps(sends, fault);
        whole == steps
    }

    /// The bus as it is.
    pub fn bus(&self) -> Bus {
        self.bus
    }

    /// What waits to be sent.
    pub fn loaded(&self) -> Option<(ObjectNo, Record)> {
        self.bus.loaded()
    }

    /// TEC, REC and the state of a node.
    pub fn counters(&self, node: u8) -> (u16, u8, NodeState) {
        let counters = self.bus.counters(node.min(self.bus.others()));
        (counters.tec(), counters.rec(), counters.state())
    }

    /// Whether the status interrupt is pending after a round in which these nodes send, with SIE set before it; what the Status
    /// register then reads; and whether it is pending after that.
    pub fn interrupts(&mut self, sends: &[(u8, Frame)]) -> (bool, u16, bool) {
        self.bus.enable(true, false);
        let _heard = self.round(sends, Fault::Quiet);
        let before = self.bus.status_pending();
        let status = self.bus.status_read();
        (before, status, self.bus.status_pending())
    }

    /// The controller's state after groups of recessive bits: 500 while Init is set, and 127 and one more once it is cleared.
    pub fn comes_back(&mut self) -> [NodeState; 3] {
        self.bus.recessive(500);
        let waiting = self.bus.counters(0).state();
        self.bus.clear_init();
        self.bus.recessive(127);
        let counting = self.bus.counters(0).state();
        self.bus.recessive(1);
        [waiting, counting, self.bus.counters(0).state()]
    }

    /// Sets loop back mode.
    pub fn loop_back(&mut self, on: bool) {
        self.bus.loop_back(on);
    }
}

/// A line in which these nodes send, and this spoils the winner's frame. None: it can't be made.
fn line_of(sends: &[(u8, Frame)], fault: Fault) -> Option<RoundLine> {
    let mut send = ArrayVec::new();
    for sender in sends {
        let _full = send.try_push(*sender);
    }
    RoundLine::new(8, send, fault)
}
