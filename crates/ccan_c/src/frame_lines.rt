//! The start and the end of a frame on a bus of several, on what an open handle stands for.
ghost use Rattle.std.specs.Prelude.{◌≡◌};

use crate::held::Held;
use ccan_chip::{OwnEvent, own_tries};
use ccan_confine::ControllerChange;
use ccan_endless::{ControllerBusy, ControllerChanged};
use ccan_registers::{AccessError, begin, change, end, power_down, stay};
use ccan_station::{Begun, Ended, Stayed};
use ccan_wire::{Flaw, Wire};

impl Held {
    ghost use Rattle.std.specs.Prelude.{◌<◌, is_some};
    ghost use Rattle.ccan_bus.specs.Bus.{LedTo};
    ghost use Rattle.ccan_bus.specs.Past.{BusPast};
    ghost use Rattle.ccan_chip.specs.Arrival.{unloaded};
    ghost use Rattle.ccan_ram.specs.declared.port.PortName.TheVariants.{Bus};
    ghost use Rattle.ccan_confine.specs.declared.controller_change.ControllerChange.TheVariants.{Frame};
    ghost use Rattle.ccan_confine.specs.StatusEvent.{HasFaultCode};
    ghost use Rattle.ccan_ram.specs.Tries.{most_tries};
    ghost use Rattle.ccan_registers.specs.ChipSteps.{Changes};
    ghost use Rattle.ccan_registers.specs.Frames.{BeginsOnChip, EndsOnChip, StaysOnChip};
    ghost use Rattle.ccan_c.specs.FrameCall.{PowersDownBetween};
    ghost use Rattle.ccan_c.specs.Held.{pass_of, station_of, tries_of};
    ghost use Rattle.ccan_c.specs.Steps.{StationSteps, Steps};
    ghost use Rattle.ccan_c.specs.Wire.{most_members};

    /// The start of a frame. What a load for a round has loaded is dropped.
    pub(crate) fn begin(&mut self) -> Begun
        requires { (pass_of self.old).port ≡ Bus }
        ensures port { (pass_of self.new).port ≡ (pass_of self.old).port }
        ensures steps { StationSteps (λ terms old seen added new.
            BeginsOnChip terms (tries_of self.old) old seen added new result) self.old self.new }
        ensures drops { (past : BusPast) → LedTo past self.old.bus.bus
            → LedTo (unloaded past) self.new.bus.bus }
    {
        self.bus.unload();
        begin(&mut self.station, &mut self.chip)
    }

    /// A look until its end.
    pub(crate) fn stay(&mut self) -> Stayed
        ensures port { (pass_of self.new).port ≡ (pass_of self.old).port }
        ensures steps { StationSteps (λ terms old seen added new.
            StaysOnChip terms old seen added new result) self.old self.new }
        ensures bus { self.new.bus ≡ self.old.bus }
    {
        stay(&mut self.station, &mut self.chip)
    }

    /// Its end, for the chip at this position.
    pub(crate) fn finish(&mut self, wire: &Wire, place: usize, flaw: Option<Flaw>) -> Ended
        requires bus { (pass_of self.old).port ≡ Bus }
        requires within { place < most_members }
        ensures port { (pass_of self.new).port ≡ (pass_of self.old).port }
        ensures steps { StationSteps (λ terms old seen added new.
            EndsOnChip terms (tries_of self.old) wire.now place flaw old seen added new result)
            self.old self.new }
        ensures bus { self.new.bus ≡ self.old.bus }
    {
        end(&mut self.station, &mut self.chip, wire, place, flaw)
    }

    /// Makes the event of a frame at the controller, in up to 1,000 tries.
    pub(crate) fn retry(&mut self, own: OwnEvent) -> Result<ControllerChanged, ControllerBusy>
        requires bus { (pass_of self.old).port ≡ Bus }
        requires known { HasFaultCode own.1 }
        ensures { Steps (λ terms seen added.
            Changes terms.port (Frame own.0 own.1) most_tries seen added result)
            self.old self.new }
    {
        let (event, status) = own;
        let made = ControllerChange::Frame(event, status);
        change(&mut self.chip, &made, own_tries())
    }

    /// Powers the controller down, if its driver asks for it and nothing is to be sent. Whether it is powered down. While a frame is
    /// under way it is not, and no step is made.
    pub(crate) fn power_down(&mut self) -> Result<bool, AccessError>
        requires { (pass_of self.old).port ≡ Bus }
        ensures { Steps (λ terms seen added.
            PowersDownBetween terms (tries_of self.old) (is_some (station_of self.old).under_way)
            seen added result) self.old self.new }
    {
        if self.station.is_under_way() {
            return Ok(false);
        }
        power_down(&mut self.chip)
    }
}
