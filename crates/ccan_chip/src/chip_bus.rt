ghost use Rattle.std.specs.Prelude.{◌≡◌, ◌≤◌, true, false, List, None, IfOk, IfErr};
ghost use Rattle.ccan_ram.specs.declared.port.PortName.{PortName};
ghost use Rattle.ccan_ram.specs.declared.port.PortName.TheVariants.{Bus as BusPort};
ghost use Rattle.ccan_ram.specs.SharedRam.{CanSee, IsSamePort, passes_of, terms_of};
ghost use Rattle.ccan_confine.specs.Counters.{AreAfter, NodeEvent};
ghost use Rattle.ccan_bus.specs.Bus.{GoesOnWith, IsSameBus, LedTo};
ghost use Rattle.ccan_bus.specs.Load.{Loads};
ghost use Rattle.ccan_bus.specs.Past.{BusPast, opened_at_once};
ghost use Rattle.ccan_bus.specs.RoundReport.{RunsSteps};
ghost use Rattle.ccan_endless.specs.ChipPort.{AddsNone, SeesOne};
ghost use Rattle.ccan_endless.specs.Layout.{same_object};
ghost use Rattle.ccan_chip.specs.Load.{ChipLoad};
ghost use Rattle.ccan_chip.specs.Arrival.{left_behind, takes_part, unloaded};
ghost use Rattle.ccan_chip.specs.Round.{ChipRound, IsRecessive, IsRecessiveLost, as_found, loops_back};

use crate::arrival::{arrive, own_tries, takes_part};
use crate::chip_port::ChipPort;
use crate::chip_report::ChipReport;
use crate::objects::{Earlier, Lent, Objects};
use crate::own_event::own_in;
use ccan_bus::{Bus, LoadAnswer, RoundAnswer, RoundEnd, RoundLine, RoundReport};
use ccan_confine::{Controller, ControllerChange, Counters};
use ccan_endless::{ControllerBusy, ControllerChanged};
use ccan_object::{ObjectNo, Profile, Record};
use ccan_ram::Tries;
use std::marker::Brand;

/// The bus of a chip: the other nodes, and what the controller is about to send. The controller's registers are in the chip,
/// where the hosts read and change them at any time.
#[derive(Clone, Copy, PartialEq, Eq, Hash, Debug)]
pub struct ChipBus {
    bus: Bus,
}

/// Whether a controller is in loop back mode: Test of the Control register and LBack of the Test register are 1.
fn loops_back(controller: &Controller) -> bool
    ensures { result ≡ loops_back controller.now }
{
    controller.control.test && controller.test.lback
}

/// The steps of a round that are made at the objects. What came of them goes into the place for it.
fn steps<'a, E: Earlier>(
    bus: &mut Bus,
    lent: Lent<'a>,
    line: &RoundLine,
    tries: Tries,
    report: &mut RoundReport,
) -> Lent<'a>
    requires profile { lent.port.now.pass.memory.profile ≡ bus.old.profile }
    requires none { AddsNone E.earlier lent.port.now }
    requires lent { lent.port.ghost_name ≡ E.lent }
    ensures none { AddsNone E.earlier result.port.now }
    ensures lent { result.port.ghost_name ≡ lent.entry.port.ghost_name }
    ensures same { IsSameBus bus.old bus.new }
    ensures goes_on { GoesOnWith (passes_of same_object lent.entry.port.now.pass)
        (passes_of same_object result.port.now.pass) bus.old bus.new
        (λ terms seen added past after.
        RunsSteps terms line.now tries seen added past after report.new) }
{
    let mut objects = Objects::<E>::new(lent);
    *report = bus.report_round(&mut objects, line, tries);
    objects.into_lent()
}

/// A load, over the objects. What came of it goes into the place for it.
fn load_over<'a, E: Earlier>(
    bus: &mut Bus,
    lent: Lent<'a>,
    tries: Tries,
    answer: &mut LoadAnswer,
) -> Lent<'a>
    requires profile { lent.port.now.pass.memory.profile ≡ bus.old.profile }
    requires none { AddsNone E.earlier lent.port.now }
    requires lent { lent.port.ghost_name ≡ E.lent }
    ensures none { AddsNone E.earlier result.port.now }
    ensures lent { result.port.ghost_name ≡ lent.entry.port.ghost_name }
    ensures same { IsSameBus bus.old bus.new }
    ensures goes_on { GoesOnWith (passes_of same_object lent.entry.port.now.pass)
        (passes_of same_object result.port.now.pass) bus.old bus.new
        (λ terms seen added past after. Loads terms tries seen added past after answer.new) }
{
    let mut objects = Objects::<E>::new(lent);
    *answer = bus.load(&mut objects, tries);
    objects.into_lent()
}

/// The steps of a round that are made at the objects, by the port where it is.
fn steps_at_objects(bus: &mut Bus, chip: &mut ChipPort, line: &RoundLine) -> RoundReport
    requires profile { chip.old.port.pass.memory.profile ≡ bus.old.profile }
    requires one { SeesOne chip.old.port }
    ensures settings { chip.new.settings ≡ chip.old.settings }
    ensures none { AddsNone chip.old.port chip.new.port }
    ensures same { IsSameBus bus.old bus.new }
    ensures goes_on { GoesOnWith (passes_of same_object chip.old.port.pass)
        (passes_of same_object chip.new.port.pass) bus.old bus.new
        (λ terms seen added past after.
        RunsSteps terms line.now chip.old.settings.tries seen added past after result) }
{
    let tries = chip.settings.tries;
    let mut report = RoundReport {
        loading: LoadAnswer::Nothing,
        decision: None,
        end: RoundEnd {
            answer: RoundAnswer::Idle,
            refused: None,
        },
    };
    let lent = Lent {
        port: &mut chip.port,
        ram: &chip.ram,
    };
    let lent = steps::<Brand>(bus, lent, line, tries, &mut report);
    lent.end();
    report
}

/// A load, by the port where it is.
fn load_at_objects(bus: &mut Bus, chip: &mut ChipPort) -> LoadAnswer
    requires profile { chip.old.port.pass.memory.profile ≡ bus.old.profile }
    requires one { SeesOne chip.old.port }
    ensures settings { chip.new.settings ≡ chip.old.settings }
    ensures none { AddsNone chip.old.port chip.new.port }
    ensures same { IsSameBus bus.old bus.new }
    ensures goes_on { GoesOnWith (passes_of same_object chip.old.port.pass)
        (passes_of same_object chip.new.port.pass) bus.old bus.new
        (λ terms seen added past after.
        Loads terms chip.old.settings.tries seen added past after result) }
{
    let tries = chip.settings.tries;
    let mut answer = LoadAnswer::Nothing;
    let lent = Lent {
        port: &mut chip.port,
        ram: &chip.ram,
    };
    let lent = load_over::<Brand>(bus, lent, tries, &mut answer);
    lent.end();
    answer
}

impl ChipBus {
    /// The bus of a chip of this profile, with so many other nodes, to which nothing happened yet.
    pub fn new(profile: Profile, nodes: u8) -> ChipBus
        requires { nodes ≤ 8 }
        ensures same_profile { result.bus.profile ≡ profile }
        ensures opened { LedTo (opened_at_once nodes) result.bus }
    {
        ChipBus {
            bus: Bus::choosing_at_once(profile, nodes),
        }
    }

    /// How many nodes there are besides the controller.
    pub fn others(&self) -> u8
        ensures value { result ≡ self.now.bus.others }
        ensures in_range { result ≤ 8 }
    {
        self.bus.others()
    }

    /// The error counters of another node, from 1 on. Those of the controller are in the chip.
    pub fn counters(&self, node: u8) -> Counters
        requires { (1 ≤ node) × (node ≤ self.now.bus.others) }
        ensures { (past : BusPast) → LedTo past self.now.bus
            → AreAfter false (past.events node) result }
    {
        self.bus.counters(node)
    }

    /// The object whose transmission was started and whose frame has not been sent yet, with its record after the start.
    pub fn loaded(&self) -> Option<(ObjectNo, Record)>
        ensures { (past : BusPast) → LedTo past self.now.bus → result ≡ past.loaded }
    {
        self.bus.loaded()
    }

    /// Drops what is loaded, as a reset does. Its object stays requested, so that a later load may start it again.
    pub fn unload(&mut self)
        ensures same { IsSameBus self.old.bus self.new.bus }
        ensures drops { (past : BusPast) → LedTo past self.old.bus
            → LedTo (unloaded past) self.new.bus }
    {
        self.bus.unload();
    }

    /// Drops what is loaded if the controller has left the bus.
    fn leave_behind(&mut self, first: &Controller)
        ensures same { IsSameBus self.old.bus self.new.bus }
        ensures drops { (past : BusPast) → LedTo past self.old.bus
            → LedTo (left_behind first.now past) self.new.bus }
    {
        if first.has_left {
            self.unload();
        }
    }

    /// Takes the controller that a look found.
    fn take(&mut self, found: &Controller)
        ensures same { IsSameBus self.old.bus self.new.bus }
        ensures takes { (past : BusPast) (events : List NodeEvent) → LedTo past self.old.bus
            → AreAfter true events found.now.counters
            → LedTo (as_found found.now events past) self.new.bus }
    {
        if takes_part(found) {
            self.bus.take_controller(found.counters, loops_back(found));
        } else {
            self.bus.take_controller(Counters::gone_off(), false);
            self.bus.unload();
        }
    }

    /// Chooses and starts an object, if nothing is loaded. What was loaded is dropped first if the controller has left the bus
    /// since: if Init was 1, even for a moment, or it was reset or went off. The controller takes part as its registers are at
    /// the last look; if it takes no part, nothing is loaded afterwards. The answer comes with the controller that this look
    /// found.
    pub fn load(&mut self, chip: &mut ChipPort) -> (Controller, LoadAnswer)
        requires bus { chip.old.port.pass.port ≡ BusPort }
        requires profile { chip.old.port.pass.memory.profile ≡ self.old.bus.profile }
        ensures same { IsSameBus self.old.bus self.new.bus }
        ensures settings { chip.new.settings ≡ chip.old.settings }
        ensures port { IsSamePort chip.old.port.pass chip.new.port.pass }
        ensures sees { CanSee chip.old.port.pass → CanSee chip.new.port.pass }
        ensures one { SeesOne chip.new.port }
        ensures load { (past : BusPast) → LedTo past self.old.bus
            → (after : BusPast) × LedTo after self.new.bus
            × ChipLoad (terms_of same_object chip.old.port.pass.memory BusPort)
            chip.old.settings.tries chip.old.port chip.new.port past after result.0 result.1 }
    {
        let (first, controller) = arrive(chip);
        self.leave_behind(&first);
        self.take(&controller);
        let answer = load_at_objects(&mut self.bus, chip);
        (controller, answer)
    }

    /// A round. What was loaded is dropped first if the controller has left the bus since. The controller takes part as its
    /// registers are at the look before all steps at objects. The round's event at the controller is made last, so that whoever
    /// is woken by it finds the object done, unless the step that is due at the object was refused. The event has 1,000 tries,
    /// however few the other steps have.
    pub fn round(&mut self, chip: &mut ChipPort, line: &RoundLine) -> ChipReport
        requires bus { chip.old.port.pass.port ≡ BusPort }
        requires profile { chip.old.port.pass.memory.profile ≡ self.old.bus.profile }
        ensures same { IsSameBus self.old.bus self.new.bus }
        ensures settings { chip.new.settings ≡ chip.old.settings }
        ensures port { IsSamePort chip.old.port.pass chip.new.port.pass }
        ensures sees { CanSee chip.old.port.pass → CanSee chip.new.port.pass }
        ensures one { SeesOne chip.new.port }
        ensures out { takes_part result.found ≡ false → result.own ≡ None }
        ensures round { (past : BusPast) → LedTo past self.old.bus
            → (after : BusPast) × LedTo after self.new.bus
            × ChipRound (terms_of same_object chip.old.port.pass.memory BusPort) line.now
            chip.old.settings.tries chip.old.port chip.new.port past after result }
    {
        let (first, found) = arrive(chip);
        self.leave_behind(&first);
        self.take(&found);
        let report = steps_at_objects(&mut self.bus, chip, line);
        let own = own_in(takes_part(&found), &report.decision, self.bus.last_error());
        let noted = match own {
            None => None,
            Some((event, status)) => {
                let change = ControllerChange::Frame(event, status);
                Some(chip.change_controller(&change, own_tries()))
            }
        };
        ChipReport {
            found,
            report,
            own,
            noted,
        }
    }

    /// So many groups of eleven recessive bits pass on the bus, and every node sees them. If each try at the controller was lost
    /// to a change of another port, no node has seen any, and the call may be made again.
    pub fn recessive(
        &mut self,
        chip: &mut ChipPort,
        groups: u16,
    ) -> Result<ControllerChanged, ControllerBusy>
        requires bus { chip.old.port.pass.port ≡ BusPort }
        ensures same { IsSameBus self.old.bus self.new.bus }
        ensures settings { chip.new.settings ≡ chip.old.settings }
        ensures sees { CanSee chip.old.port.pass → CanSee chip.new.port.pass }
        ensures made { IfOk result (λ made.
            IsRecessive groups chip.old.port chip.new.port self.old.bus self.new.bus made) }
        ensures busy { IfErr result (λ busy.
            IsRecessiveLost chip.old.settings.tries chip.old.port chip.new.port busy
            × (self.new ≡ self.old)) }
    {
        let tries = chip.settings.tries;
        let made = chip.change_controller(&ControllerChange::Recessive(groups), tries)?;
        self.bus.recessive(groups);
        Ok(made)
    }
}
