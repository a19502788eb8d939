//! Rounds of two chips and a node without one on one bus, with time between the start of a frame and its end: worked examples
//! from CAN Specification 2.0 and the C_CAN User's Manual 1.2, "CAN Control Register", "Test Register", "Disabled Automatic
//! Retransmission" and section 4.2.
ghost use Rattle.std.specs.Prelude.{◌≡◌, ◌<◌};
ghost use Rattle.std.specs.Arc.{arc_value};
ghost use Rattle.ccan_ram.specs.declared.port.PortName.TheVariants.{If1, If2, Bus};
ghost use Rattle.ccan_object.specs.declared.profile.Profile.TheVariants.{One};

use super::message;
use crate::expect::{BYTES, RECEIVER, change_of, frame, holds, same, shown, tries};
use crate::shared::chips::{changed, looked};
use ccan_bus::LoadAnswer;
use ccan_chip::{ChipPort, Map, OwnEvent, PortSettings};
use ccan_confine::{
    BusEvent, ControlRegister, Controller, ControllerChange, Counters, StatusEvent, TestRegister,
};
use ccan_endless::{EndlessRam, Port};
use ccan_object::{Profile, Record, Reg};
use ccan_ram::{Change, Changed, SharedRam, Tries};
use ccan_station::{Plain, Station, laws};
use ccan_wire::{MOST_MEMBERS, Member, Role, Wire, decide, decide_again};
use std::alloc::Global;
use std::process::Abort;
use std::sync::Arc;

/// A chip on the bus. The host's calls are IF1's, and concern its last object. The calls promise nothing.
#[derive(Drop)]
struct Seat {
    ram: Arc<EndlessRam, Global>,
    if1: Port,
    if2: Port,
    chip: ChipPort,
    station: Station,
    tries: Tries,
    ghost first: { (if1.pass.memory ≡ (arc_value ram).words) × (if1.pass.port ≡ If1) },
    ghost second: { (if2.pass.memory ≡ (arc_value ram).words) × (if2.pass.port ≡ If2) },
    ghost third: { (chip.port.pass.memory ≡ (arc_value ram).words)
        × (chip.port.pass.port ≡ Bus) },
    ghost profile: { chip.port.pass.memory.profile ≡ station.profile },
    ghost objects: { chip.port.pass.memory.profile ≡ One },
}

impl Seat {
    /// A chip after its reset: Init is 1.
    fn open(rt: &impl Abort, alloc: Global) -> Seat {
        let Ok((ram, if1, if2, port)) = EndlessRam::open_reset(alloc, Profile::One, 64) else {
            panic!(rt; "no memory")
        };
        let Ok(ram) = Arc::new(alloc, ram) else {
            panic!(rt; "no memory")
        };
        let Ok(share) = Arc::try_clone(&ram) else {
            panic!(rt; "too many shares")
        };
        let settings = PortSettings {
            map: Map::Narrow,
            tries: tries(8),
        };
        Seat {
            ram,
            if1,
            if2,
            chip: ChipPort::new(share, port, settings),
            station: Station::new(Profile::One),
            tries: tries(8),
        }
    }

    /// The host's change of the controller. Whether it was made.
    fn control(&mut self, control: ControlRegister) -> bool {
        let written = ControllerChange::WriteControl(control);
        changed(&self.ram, &mut self.if1, &written, self.tries).is_some()
    }

    /// The host writes Init, and the other bits of the Control register as 0.
    fn init(&mut self, init: bool) -> bool {
        self.control(ControlRegister {
            init,
            ..ControlRegister::default()
        })
    }

    /// The host writes DAR as 1, and the other bits of the Control register as 0.
    fn set_dar(&mut self) -> bool {
        self.control(ControlRegister {
            dar: true,
            ..ControlRegister::default()
        })
    }

    /// The host sets Test of the Control register, and then writes the Test register.
    fn test(&mut self, mode: TestRegister) -> bool {
        let test = self.control(ControlRegister {
            test: true,
            ..ControlRegister::default()
        });
        let written = ControllerChange::WriteTest(mode);
        test && changed(&self.ram, &mut self.if1, &written, self.tries).is_some()
    }

    /// The host sets Test, and then Silent.
    fn silence(&mut self) -> bool {
        self.test(TestRegister {
            silent: true,
            ..TestRegister::default()
        })
    }

    /// The host sets Test, and then LBack, with Silent or without.
    fn loop_back(&mut self, silent: bool) -> bool {
        self.test(TestRegister {
            lback: true,
            silent,
            ..TestRegister::default()
        })
    }

    fn controller(&mut self) -> Controller {
        looked(&self.ram, &mut self.if1)
    }

    /// The host's change of the object. Whether it was made.
    fn change(&mut self, change: &Change) -> bool {
        let object = self.ram.profile().last();
        let made = self.ram.change(&mut self.if1, object, change, self.tries);
        matches!(made, Ok(Changed::Done { .. }))
    }

    fn record(&mut self) -> Record {
        let object = self.ram.profile().last();
        self.ram.look(&mut self.if1, object)
    }

    /// The chip's start of a frame: what came of its load, and what it is to the bus.
    fn begin(&mut self) -> (LoadAnswer, Member) {
        let begun = self.station.begin(&mut self.chip);
        (begun.loading, begun.member)
    }

    /// What it is to the bus while a frame is under way.
    fn stay(&mut self) -> Member {
        self.station.stay(&mut self.chip).member
    }

    /// The end of a frame, for the chip at this position: its event.
    fn end(&mut self, wire: &Wire, place: usize) -> Option<OwnEvent>
        requires { place < MOST_MEMBERS }
    {
        self.station.end(&mut self.chip, wire, place, None).own
    }
}

const SENT: Option<OwnEvent> = Some((BusEvent::Sent, StatusEvent::Sent));

const RECEIVED: Option<OwnEvent> = Some((BusEvent::Received, StatusEvent::Received));

/// A chip that requests to send 0x123, another one that receives it, and a node without a chip. The places are theirs.
#[derive(Drop)]
struct Network {
    a: Seat,
    b: Seat,
    c: Plain,
}

impl Network {
    /// Both chips are out of their reset, and A takes part.
    fn open(rt: &impl Abort, alloc: Global) -> Network {
        let mut a = Seat::open(rt, alloc);
        let mut b = Seat::open(rt, alloc);
        holds(rt, a.init(false));
        holds(rt, a.change(&message(0x0188)));
        holds(rt, b.change(&change_of(&RECEIVER, &[(Reg::Ctrl, 0x0088)])));
        Network {
            a,
            b,
            c: Plain {
                counters: Counters::new(false),
            },
        }
    }

    /// The start of a frame.
    fn start(self) -> (Network, Wire) {
        let Network { mut a, mut b, c } = self;
        let (_, first) = a.begin();
        let (_, second) = b.begin();
        let wire = decide(&[first, second, c.member(None, None)]);
        (Network { a, b, c }, wire)
    }

    /// Its end, those who listen first. The events of A and B.
    fn end(self, start: &Wire) -> (Network, Option<OwnEvent>, Option<OwnEvent>) {
        let Network {
            mut a,
            mut b,
            mut c,
        } = self;
        let third = c.member(None, None);
        let wire = decide_again(start, &[a.stay(), b.stay(), third]);
        let to_b = b.end(&wire, 1);
        let to_a = a.end(&wire, 0);
        c.end(&wire, 2, &third);
        (Network { a, b, c }, to_a, to_b)
    }

    /// Whether A's request is still there, and whether A has something loaded.
    fn waits(&mut self) -> (bool, bool) {
        (self.a.record().txrqst, self.a.station.loaded().is_some())
    }
}

#[test]
fn a_chip_joins_with_the_next_frame(rt: HostRuntime) {
    let network = Network::open(&rt, rt.alloc());
    // Init of B is 1: the node without a chip acknowledges.
    let (network, wire) = network.start();
    holds(&rt, matches!(wire, Wire::Carried(_)));
    let (mut network, to_a, to_b) = network.end(&wire);
    same(&rt, (to_a, to_b), (SENT, None));
    same(&rt, network.waits(), (false, false));
    // TxOk; and nothing.
    same(&rt, network.a.controller().status_word(), 0x0008);
    same(&rt, network.b.controller().status_word(), 0x0000);
    holds(&rt, network.b.init(false));
    holds(&rt, network.a.change(&message(0x0188)));
    let (mut network, wire) = network.start();
    same(&rt, network.waits(), (true, true));
    let (mut network, to_a, to_b) = network.end(&wire);
    same(&rt, (to_a, to_b), (SENT, RECEIVED));
    same(&rt, network.waits(), (false, false));
    // NewDat, EoB and eight bytes; RxOk.
    let (_, _, control, bytes) = shown(&network.b.record());
    same(&rt, (control, bytes), (0x8088, BYTES));
    same(&rt, network.b.controller().status_word(), 0x0010);
    same(&rt, network.c.counters.rec(), 0);
}

/// A's host sets Init in mid-frame, and clears it again or not. The events of A and B.
fn leave(
    rt: &impl Abort,
    mut network: Network,
    start: &Wire,
    is_cleared: bool,
) -> (Network, Option<OwnEvent>, Option<OwnEvent>) {
    holds(rt, matches!(start, Wire::Carried(_)));
    same(rt, network.waits(), (true, true));
    holds(rt, network.a.init(true));
    if is_cleared {
        holds(rt, network.a.init(false));
    }
    network.end(start)
}

/// Checks that a frame of A was cut off in this way. B then has so many receive errors.
fn was_cut_off(
    rt: &impl Abort,
    network: &mut Network,
    to_a: Option<OwnEvent>,
    to_b: Option<OwnEvent>,
    errors: u8,
) {
    let stuff = Some((BusEvent::ReceiveFault, StatusEvent::Fault(1)));
    same(rt, (to_a, to_b), (None, stuff));
    same(rt, network.waits(), (true, false));
    let a = network.a.controller();
    same(rt, (a.status_word(), a.counters.tec()), (0, 0));
    let b = network.b.controller();
    same(rt, (b.status_word(), b.counters.rec()), (1, errors));
    same(rt, network.c.counters.rec(), errors);
}

#[test]
fn init_in_mid_frame_cuts_the_frame_off(rt: HostRuntime) {
    let mut network = Network::open(&rt, rt.alloc());
    holds(&rt, network.b.init(false));
    let (network, wire) = network.start();
    let (mut network, to_a, to_b) = leave(&rt, network, &wire, false);
    was_cut_off(&rt, &mut network, to_a, to_b, 1);
    // While Init is 1 nobody sends; then the object is chosen again.
    let (network, wire) = network.start();
    same(&rt, wire, Wire::Idle);
    let (mut network, to_a, to_b) = network.end(&wire);
    same(&rt, (to_a, to_b), (None, None));
    holds(&rt, network.a.init(false));
    // Init is set and cleared: the same.
    let (network, wire) = network.start();
    let (mut network, to_a, to_b) = leave(&rt, network, &wire, true);
    was_cut_off(&rt, &mut network, to_a, to_b, 2);
    let (network, wire) = network.start();
    let (mut network, to_a, to_b) = network.end(&wire);
    same(&rt, (to_a, to_b), (SENT, RECEIVED));
    same(&rt, network.waits(), (false, false));
}

#[test]
fn the_end_sees_who_left_by_itself(rt: HostRuntime) {
    let network = Network::open(&rt, rt.alloc());
    let (mut network, wire) = network.start();
    // No look until the end, and Init is 0 again.
    holds(&rt, network.a.init(true) && network.a.init(false));
    same(&rt, network.a.end(&wire, 0), None);
    same(&rt, network.waits(), (true, false));
    // A reset in mid-frame, at the station.
    let (mut network, wire) = network.start();
    same(&rt, network.waits(), (true, true));
    same(&rt, network.a.station.member().role, Role::Active);
    network.a.station.unload();
    same(&rt, network.a.station.member().role, Role::Absent);
    same(&rt, network.a.end(&wire, 0), None);
    same(&rt, network.waits(), (true, false));
}

#[test]
fn a_silent_chip_loads_nothing_and_hears(rt: HostRuntime) {
    let mut network = Network::open(&rt, rt.alloc());
    // B requests to send, too, while it is silent.
    holds(&rt, network.b.change(&message(0x0188)));
    holds(&rt, network.b.silence());
    let (loading, member) = network.b.begin();
    same(
        &rt,
        (loading, member.role, member.frame),
        (LoadAnswer::Nothing, Role::Silent, None),
    );
    let (network, wire) = network.start();
    let (mut network, to_a, to_b) = network.end(&wire);
    // It stores nothing, since no object receives.
    same(&rt, (to_a, to_b), (SENT, RECEIVED));
    holds(&rt, network.b.record().txrqst);
    laws::who_leaves_changes_no_winner();
    laws::frames_of_who_left_are_cut_off();
    laws::who_left_has_no_event();
    laws::begins_are_loads();
    laws::ends_as_it_began();
}

/// A sends to itself, whether or not it is acknowledged. B receives the frame, and with Silent at A hears nothing of it.
#[test]
fn a_frame_in_loop_back_mode_is_heard_without_silent(rt: HostRuntime) {
    let looped = Some((BusEvent::Sent, StatusEvent::Looped));
    for (silent, role, to_others) in [(false, Role::Looped, RECEIVED), (true, Role::Alone, None)] {
        let mut network = Network::open(&rt, rt.alloc());
        holds(&rt, network.b.init(false));
        holds(&rt, network.a.loop_back(silent));
        let (network, wire) = network.start();
        same(&rt, network.a.station.member().role, role);
        let (mut network, to_a, to_b) = network.end(&wire);
        same(&rt, (to_a, to_b), (looped, to_others));
        same(&rt, network.waits(), (false, false));
        // TxOk and RxOk.
        same(&rt, network.a.controller().status_word(), 0x0018);
    }
}

/// Checks that the next start finds nothing of A to send. A's object has NewDat 1 and TxRqst 0.
fn is_not_tried_again(rt: &impl Abort, a: &mut Seat) {
    same(rt, a.record().control(), 0x8088);
    let (loading, member) = a.begin();
    same(rt, (loading, member.frame), (LoadAnswer::Nothing, None));
}

#[test]
fn a_frame_without_acknowledgement_is_tried_once_with_dar(rt: HostRuntime) {
    let Network { mut a, b, c } = Network::open(&rt, rt.alloc());
    // NewDat and TxRqst; no other node is on the bus.
    holds(&rt, a.set_dar() && a.change(&message(0x8188)));
    let (_, member) = a.begin();
    same(&rt, a.record().control(), 0x8088);
    let wire = decide(&[member]);
    let own = a.end(&wire, 0);
    let unheard = Some((BusEvent::SendNoAck, StatusEvent::Fault(3)));
    same(&rt, own, unheard);
    is_not_tried_again(&rt, &mut a);
    // The host sets TxRqst again, and the node without a chip is there.
    holds(&rt, a.change(&message(0x8188)));
    let (network, wire) = Network { a, b, c }.start();
    let (mut network, to_a, _) = network.end(&wire);
    same(&rt, to_a, SENT);
    same(&rt, network.a.record().control(), 0x0088);
}

#[test]
fn what_loses_the_arbitration_is_tried_once_with_dar(rt: HostRuntime) {
    let Network { mut a, mut b, c } = Network::open(&rt, rt.alloc());
    holds(&rt, a.set_dar() && a.change(&message(0x8188)));
    holds(&rt, b.init(false));
    let (_, first) = a.begin();
    let (_, second) = b.begin();
    let lower = frame(0x100, false, false, 0, [0; 8]);
    let wire = decide(&[first, second, c.member(Some(lower), None)]);
    let to_b = b.end(&wire, 1);
    let to_a = a.end(&wire, 0);
    same(&rt, (to_a, to_b), (RECEIVED, RECEIVED));
    is_not_tried_again(&rt, &mut a);
    // Once it is asked for again, it is sent to B.
    holds(&rt, a.change(&message(0x8188)));
    let (network, wire) = Network { a, b, c }.start();
    let (mut network, to_a, to_b) = network.end(&wire);
    same(&rt, (to_a, to_b), (SENT, RECEIVED));
    same(&rt, network.a.record().control(), 0x0088);
    same(&rt, shown(&network.b.record()).3, BYTES);
}

#[test]
fn dar_counts_as_it_was_at_the_start(rt: HostRuntime) {
    // It is cleared in mid-frame: NewDat falls. It is set in mid-frame: TxRqst falls.
    for is_set_before in [true, false] {
        let mut network = Network::open(&rt, rt.alloc());
        holds(&rt, network.a.change(&message(0x8188)));
        if is_set_before {
            holds(&rt, network.a.set_dar());
        }
        let (mut network, wire) = network.start();
        let meanwhile = if is_set_before { 0x8088 } else { 0x0188 };
        same(&rt, network.a.record().control(), meanwhile);
        holds(
            &rt,
            if is_set_before {
                network.a.init(false)
            } else {
                network.a.set_dar()
            },
        );
        let (mut network, to_a, _) = network.end(&wire);
        same(&rt, to_a, SENT);
        same(&rt, network.a.record().control(), 0x0088);
    }
}
