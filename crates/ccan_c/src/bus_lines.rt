//! The calls of the bus, on what an open handle stands for.
ghost use Rattle.std.specs.Prelude.{◌≡◌};
ghost use Rattle.ccan_confine.specs.Controller.{no_control};
ghost use Rattle.ccan_c.specs.Bus as named;

use crate::held::Held;
use crate::offer::Sends;
use ccan_bus::{Fault, LoadAnswer, RoundLine};
use ccan_chip::{ChipReport, Map};
use ccan_confine::{ControlRegister, Controller, ControllerChange, Counters, TestRegister};
use ccan_endless::{ControllerBusy, ControllerChanged};
use ccan_object::{ObjectNo, Record};
use ccan_registers::{
    AccessError, load, look, read_status, recessive, reset, reset_of, round, write_controller,
};

impl Held {
    ghost use Rattle.std.specs.Prelude.{◌≤◌, false, Some, IfNone, IfSome};
    ghost use Rattle.ccan_bus.specs.declared.round_line.RoundLine.{RoundLine};
    ghost use Rattle.ccan_bus.specs.Bus.{LedTo};
    ghost use Rattle.ccan_bus.specs.Past.{BusPast};
    ghost use Rattle.ccan_bus.specs.RoundLine.{AreSenders};
    ghost use Rattle.ccan_confine.specs.Counters.{AreAfter};
    ghost use Rattle.ccan_ram.specs.declared.port.PortName.TheVariants.{Bus};
    ghost use Rattle.ccan_endless.specs.declared.chip.ControllerStep.TheVariants.{Look};
    ghost use Rattle.ccan_endless.specs.Chip.{MayMake};
    ghost use Rattle.ccan_chip.specs.declared.map.Map.TheVariants.{Narrow};
    ghost use Rattle.ccan_registers.specs.ChipSteps.{AtController, Makes};
    ghost use Rattle.ccan_registers.specs.Dcan.{reset_of};
    ghost use Rattle.ccan_registers.specs.Frames.{at_rest};
    ghost use Rattle.ccan_registers.specs.Register.{ReadsStatus};
    ghost use Rattle.ccan_registers.specs.Resetting.{ResetsChip};
    ghost use Rattle.ccan_registers.specs.Rounds.{LoadsOnChip, RecoversOnChip, RoundOnChip};
    ghost use Rattle.ccan_c.specs.Answer.{c_counters};
    ghost use Rattle.ccan_c.specs.BusCall.{Counts0, LoopsBack};
    ghost use Rattle.ccan_c.specs.Codes.{done};
    ghost use Rattle.ccan_c.specs.Held.{map_of, pass_of, port_of, station_of, tries_of};
    ghost use Rattle.ccan_c.specs.HostCall.{code_of_access};
    ghost use Rattle.ccan_c.specs.Resetting.{DropsLoaded};
    ghost use Rattle.ccan_c.specs.Steps.{BusSteps, Steps};

    /// Chooses an object to send, and starts it. The answer comes with the controller that was found.
    fn load_next(&mut self) -> (Controller, LoadAnswer)
        requires { (pass_of self.old).port ≡ Bus }
        ensures steps { BusSteps (λ terms past seen added after.
            LoadsOnChip terms (tries_of self.old) past seen added after result.0 result.1)
            self.old self.new }
        ensures station { station_of self.new ≡ station_of self.old }
    {
        load(&mut self.bus, &mut self.chip)
    }

    /// What is loaded.
    fn loaded(&self) -> Option<(ObjectNo, Record)>
        ensures { (past : BusPast) → LedTo past self.now.bus.bus → result ≡ past.loaded }
    {
        self.bus.loaded()
    }

    /// Chooses an object to send, and starts it. The answer comes with the controller that was found, and with what is loaded
    /// then. What the start of a frame has loaded is dropped.
    pub(crate) fn load(&mut self) -> (Controller, LoadAnswer, Option<(ObjectNo, Record)>)
        requires { (pass_of self.old).port ≡ Bus }
        ensures steps { BusSteps (λ terms past seen added after.
            LoadsOnChip terms (tries_of self.old) past seen added after result.0 result.1
            × (result.2 ≡ after.loaded)) self.old self.new }
        ensures rests { station_of self.new ≡ at_rest }
    {
        self.station.unload();
        let (found, loading) = self.load_next();
        (found, loading, self.loaded())
    }

    /// Plays the round of a line.
    fn run_round(&mut self, line: &RoundLine) -> ChipReport
        requires { (pass_of self.old).port ≡ Bus }
        ensures steps { BusSteps (λ terms past seen added after.
            RoundOnChip terms line.now (tries_of self.old) past seen added after result)
            self.old self.new }
        ensures station { station_of self.new ≡ station_of self.old }
    {
        round(&mut self.bus, &mut self.chip, line)
    }

    /// Plays a round. None if a sender is not one of the other nodes, or sends twice. Otherwise what the start of a frame has
    /// loaded is dropped.
    pub(crate) fn play(&mut self, sends: Sends, fault: Fault) -> Option<ChipReport>
        requires { (pass_of self.old).port ≡ Bus }
        ensures port { (pass_of self.new).port ≡ (pass_of self.old).port }
        ensures none { IfNone result ((AreSenders self.old.nodes sends.items → ⊥)
            × (self.new ≡ self.old)) }
        ensures some { IfSome result (λ report. AreSenders self.old.nodes sends.items
            × ((line : RoundLine) × (line.send.items ≡ sends.items) × (line.fault ≡ fault)
            × BusSteps (λ terms past seen added after.
            RoundOnChip terms line (tries_of self.old) past seen added after report)
            self.old self.new)) }
        ensures rests { IfSome result (λ report. station_of self.new ≡ at_rest) }
    {
        let line = RoundLine::new(self.nodes, sends, fault)?;
        self.station.unload();
        Some(self.run_round(&line))
    }

    /// Lets groups of recessive bits pass.
    pub(crate) fn recessive(&mut self, groups: u16) -> Result<ControllerChanged, ControllerBusy>
        requires { (pass_of self.old).port ≡ Bus }
        ensures steps { BusSteps (λ terms past seen added after.
            RecoversOnChip terms groups (tries_of self.old) past seen added after result)
            self.old self.new }
        ensures station { station_of self.new ≡ station_of self.old }
    {
        recessive(&mut self.bus, &mut self.chip, groups)
    }

    /// Reads the Status register, as a C_CAN does it.
    pub(crate) fn status(&mut self) -> Result<u16, AccessError>
        ensures { Steps (λ terms seen added.
            ReadsStatus terms Narrow (tries_of self.old) seen added result) self.old self.new }
    {
        read_status(&mut self.chip, Map::Narrow)
    }

    /// Changes the controller.
    pub(crate) fn change(&mut self, change: &ControllerChange) -> Result<(), AccessError>
        requires { MayMake (pass_of self.old).port change.now }
        ensures { Steps (λ terms seen added.
            Makes terms change.now (tries_of self.old) seen added result) self.old self.new }
    {
        write_controller(&mut self.chip, change)
    }

    /// Resets the controller, and then each object.
    pub(crate) fn reset(&mut self) -> Result<(), AccessError>
        requires { (pass_of self.old).port ≡ Bus }
        ensures { Steps (λ terms seen added.
            ResetsChip terms (reset_of (map_of self.old)) (tries_of self.old) seen added result)
            self.old self.new }
    {
        let map = self.chip.settings.map;
        reset(&mut self.chip, &reset_of(map))
    }

    /// Drops what is loaded, and takes no more part in a frame that is under way.
    pub(crate) fn unload(&mut self)
        ensures port { port_of self.new ≡ port_of self.old }
        ensures drops { DropsLoaded self.old self.new }
    {
        self.bus.unload();
        self.station.unload();
    }

    /// The controller, by one look.
    pub(crate) fn controller(&mut self) -> Controller
        ensures { Steps (λ terms seen added. AtController terms.port Look result seen added)
            self.old self.new }
    {
        look(&mut self.chip)
    }

    /// The error counters of another node.
    fn counters(&self, node: u8) -> Counters
        requires { (1 ≤ node) × (node ≤ self.now.nodes) }
        ensures { (past : BusPast) → LedTo past self.now.bus.bus
            → AreAfter false (past.events node) result }
    {
        self.bus.counters(node)
    }

    /// The error counters of a node, node 0 being the controller.
    pub(crate) fn count(&mut self, node: u8) -> Counters
        requires { node ≤ self.old.nodes }
        ensures steps { BusSteps (λ terms past seen added after.
            Counts0 terms node past seen added after done (c_counters result.levels))
            self.old self.new }
        ensures station { station_of self.new ≡ station_of self.old }
    {
        if node == 0 {
            self.controller().counters
        } else {
            self.counters(node)
        }
    }

    /// Sets loop back mode, or leaves test mode.
    pub(crate) fn loop_back(&mut self, on: bool) -> Result<(), AccessError>
        ensures { Steps (λ terms seen added.
            LoopsBack terms (tries_of self.old) on seen added (code_of_access (Some result)))
            self.old self.new }
    {
        if !on {
            return self.change(&testing(false));
        }
        match self.change(&testing(true)) {
            Ok(()) => self.change(&looping()),
            Err(why) => Err(why),
        }
    }
}

/// A Control register with these bits, and all others 0.
fn bits(init: bool, sie: bool, eie: bool, test: bool) -> ControlRegister
    ensures { result ≡ record no_control { init = init; sie = sie; eie = eie; test = test } }
{
    ControlRegister {
        init,
        ie: false,
        sie,
        eie,
        dar: false,
        cce: false,
        test,
        pdr: false,
    }
}

/// SIE and EIE become these.
pub(crate) fn enabling(sie: bool, eie: bool) -> ControllerChange
    ensures { result ≡ named.enabling sie eie }
{
    let which = bits(false, true, true, false);
    ControllerChange::WriteControlBits(which, bits(false, sie, eie, false))
}

/// Init is cleared.
pub(crate) fn starting() -> ControllerChange
    ensures { result ≡ named.starting }
{
    let which = bits(true, false, false, false);
    ControllerChange::WriteControlBits(which, bits(false, false, false, false))
}

/// Test mode is on or off.
fn testing(on: bool) -> ControllerChange
    ensures { result ≡ named.testing on }
{
    let which = bits(false, false, false, true);
    ControllerChange::WriteControlBits(which, bits(false, false, false, on))
}

/// The controller receives what it sends.
fn looping() -> ControllerChange
    ensures { result ≡ named.looping }
{
    ControllerChange::WriteTest(TestRegister {
        basic: false,
        silent: false,
        lback: true,
    })
}
