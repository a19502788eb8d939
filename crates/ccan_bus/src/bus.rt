ghost use Rattle.std.specs.Prelude.{ℕ, ◌≡◌, ◌≤◌, ◌↔◌, length, IsTrue, ◌&&◌, nat_le, ◌∷◌, if◌then◌else◌};
ghost use Rattle.std.specs.Option.{ForSome};
ghost use Rattle.ccan_object.specs.Profile.{Holds};
ghost use Rattle.ccan_confine.specs.Counters.{AreAfter};
ghost use Rattle.ccan_confine.specs.Status.{Enabled, IsPending};
ghost use Rattle.ccan_confine.specs.StatusEvent.{HasFaultCode};

use crate::choice::Choice;
use crate::nodes::{grouped, new_nodes};
use ccan_confine::{Counters, Status, StatusEvent};
use ccan_object::{ObjectNo, Profile, Record};

/// What groups of recessive bits are to the Status register.
fn recovery_of(groups: u16, recovering: bool) -> StatusEvent
    ensures value { result
        ≡ (if nat_le 1 groups && recovering then StatusEvent.Recovery else StatusEvent.Level) }
    ensures known { HasFaultCode result }
{
    if groups >= 1 && recovering {
        StatusEvent::Recovery
    } else {
        StatusEvent::Level
    }
}

/// The bus: the controller (node 0) and up to eight other nodes, with the error counters of each, the Status register and
/// what the controller is about to send.
#[derive(Clone, Copy, PartialEq, Eq, Hash, Debug)]
pub struct Bus {
    pub(crate) profile: Profile,
    pub(crate) others: u8,
    pub(crate) nodes: [Counters; 9],
    pub(crate) status: Status,
    pub(crate) loaded: Option<(ObjectNo, Record)>,
    pub(crate) loops_back: bool,
    pub(crate) choice: Choice,
    ghost few: { others ≤ 8 },
    ghost all: { length nodes ≡ 9 },
    ghost held: { ForSome loaded (λ found. Holds profile found.0) },
}

impl Bus {
    ghost use Rattle.ccan_bus.specs.Bus.{GoesOn, IsSameBus, LedTo, ReadsStatus};
    ghost use Rattle.ccan_bus.specs.Past.{BusPast, clears_init, is_controller, opened, opened_at_once};
    ghost use Rattle.ccan_bus.specs.Past.{opened_with, recovers};

    /// A bus with this many other nodes, to which nothing happened yet. Loop back mode is off. The profile is that of the
    /// message RAM with which its calls will be made. It chooses what it sends object after object.
    pub fn new(profile: Profile, nodes: u8) -> Bus
        requires { nodes ≤ 8 }
        ensures same_profile { result.profile ≡ profile }
        ensures opened { LedTo (opened nodes) result }
    {
        Bus::opened(profile, nodes, Choice::InTurn)
    }

    /// The same, but it chooses what it sends at one moment, as the part does.
    pub fn choosing_at_once(profile: Profile, nodes: u8) -> Bus
        requires { nodes ≤ 8 }
        ensures same_profile { result.profile ≡ profile }
        ensures opened { LedTo (opened_at_once nodes) result }
    {
        Bus::opened(profile, nodes, Choice::AtOnce)
    }

    /// A bus as it opens, which makes this choice.
    fn opened(profile: Profile, nodes: u8, choice: Choice) -> Bus
        requires { nodes ≤ 8 }
        ensures same_profile { result.profile ≡ profile }
        ensures opened { LedTo (opened_with choice nodes) result }
    {
        Bus {
            profile,
            others: nodes,
            nodes: new_nodes(),
            status: Status::new(),
            loaded: None,
            loops_back: false,
            choice,
        }
    }

    /// How it chooses what it sends next.
    pub fn choice(&self) -> Choice
        ensures { result ≡ self.now.choice }
    {
        self.choice
    }

    /// How many nodes there are beside the controller.
    pub fn others(&self) -> u8
        ensures { result ≡ self.now.others }
    {
        self.others
    }

    /// The error counters of a node.
    pub fn counters(&self, node: u8) -> Counters
        requires { node ≤ self.now.others }
        ensures { (past : BusPast) → LedTo past self.now
            → AreAfter (is_controller node) (past.events node) result }
    {
        self.nodes[usize::from(node)]
    }

    /// Reads the Status register (C_CAN User's Manual 1.2, "Status Register"): BOff 7, EWarn 6, EPass 5, RxOk 4, TxOk 3, LEC 2
    /// to 0. The status interrupt is then no longer pending.
    pub fn status_read(&mut self) -> u16
        ensures same { IsSameBus self.old self.new }
        ensures goes_on { GoesOn self.old self.new (λ past after. ReadsStatus past after result) }
    {
        let controller = self.nodes[0];
        self.status.read(&controller)
    }

    /// Whether the status interrupt is pending.
    pub fn status_pending(&self) -> bool
        ensures { (past : BusPast) → LedTo past self.now → (IsTrue result ↔ IsPending past.steps) }
    {
        self.status.pending()
    }

    /// Writes SIE and EIE of the CAN Control register.
    pub fn enable(&mut self, sie: bool, eie: bool)
        ensures same { IsSameBus self.old self.new }
        ensures goes_on { GoesOn self.old self.new
            (λ past after. after ≡ record past { steps = Enabled sie eie ∷ past.steps }) }
    {
        self.status.enable(sie, eie);
    }

    /// Clears Init of the CAN Control register; from then on groups count for a controller that is off.
    pub fn clear_init(&mut self)
        ensures same { IsSameBus self.old self.new }
        ensures goes_on { GoesOn self.old self.new (λ past after. after ≡ clears_init past) }
    {
        let controller = self.nodes[0].clear_init();
        self.nodes[0] = controller;
        self.status.after(StatusEvent::Level, &controller);
    }

    /// This many groups of eleven recessive bits pass on the bus, and every node sees them.
    pub fn recessive(&mut self, groups: u16)
        ensures same { IsSameBus self.old self.new }
        ensures goes_on { GoesOn self.old self.new (λ past after. after ≡ recovers groups past) }
    {
        let event = recovery_of(groups, self.nodes[0].recovering());
        self.nodes = grouped(self.nodes, groups);
        let controller = self.nodes[0];
        self.status.after(event, &controller);
    }
}
