ghost use Rattle.std.specs.Prelude.{◌≡◌};
ghost use Rattle.std.specs.Arc.{arc_value};

use crate::port_settings::PortSettings;
use ccan_confine::{Controller, ControllerChange};
use ccan_endless::{ControllerBusy, ControllerChanged, EndlessRam, Note, Port};
use ccan_object::{ObjectNo, Profile, Record};
use ccan_ram::{Change, Changed, HandlerRegisters, PortName, Refused, SharedRam, Tries};
use std::alloc::Global;
use std::sync::Arc;

/// A port of a chip with its share of the chip's memory, and how its calls work.
#[derive(Drop)]
pub struct ChipPort {
    pub ram: Arc<EndlessRam, Global>,
    pub port: Port,
    pub settings: PortSettings,
    ghost belongs: { port.pass.memory ≡ (arc_value ram).words },
}

impl ChipPort {
    ghost use Rattle.std.specs.Prelude.{IfErr, IfOk};
    ghost use Rattle.ccan_object.specs.Profile.{Holds, objects_in};
    ghost use Rattle.ccan_ram.specs.Access.{AddsAttempt, AddsLook};
    ghost use Rattle.ccan_ram.specs.Answer.{FewTries, Tells};
    ghost use Rattle.ccan_ram.specs.HandlerRegisters.{AreBelow};
    ghost use Rattle.ccan_ram.specs.Picture.{AddsPicture};
    ghost use Rattle.ccan_ram.specs.SharedRam.{CanSee, passes_of};
    ghost use Rattle.ccan_confine.specs.Controller.{IsController, controller_after};
    ghost use Rattle.ccan_endless.specs.declared.chip.ControllerStep.TheVariants.{Look, Make};
    ghost use Rattle.ccan_endless.specs.Chip.{GoesFrom, MayMake, controller_at};
    ghost use Rattle.ccan_endless.specs.ChipPort.{AddsController, AddsNoEvent, AddsNone, HasChanges};
    ghost use Rattle.ccan_endless.specs.ChipPort.{SeesOne};
    ghost use Rattle.ccan_endless.specs.Layout.{same_object};

    /// The port of this memory, whose calls work so.
    pub fn new(ram: Arc<EndlessRam, Global>, port: Port, settings: PortSettings) -> ChipPort
        requires memory { port.pass.memory ≡ (arc_value ram).words }
        ensures port { result.port ≡ port }
        ensures settings { result.settings ≡ settings }
    {
        ChipPort {
            ram,
            port,
            settings,
        }
    }

    /// The port's share of the memory, and the port.
    pub fn into_parts(self) -> (Arc<EndlessRam, Global>, Port)
        ensures port { result.1 ≡ self.port }
        ensures memory { (arc_value result.0).words ≡ self.port.pass.memory }
    {
        let ChipPort { ram, port, .. } = self;
        (ram, port)
    }

    /// How many objects the chip has.
    #[inline(always)]
    pub fn profile(&self) -> Profile
        ensures { result ≡ self.now.port.pass.memory.profile }
    {
        self.ram.profile()
    }

    /// Which port it is.
    #[inline(always)]
    pub fn name(&self) -> PortName
        ensures { result ≡ self.now.port.pass.port }
    {
        self.port.name()
    }

    /// What a port has seen is a legal history of the chip. This does nothing: its contract is a law.
    pub fn sees_one_history(&self)
        ensures one { SeesOne self.now.port }
        ensures sees { CanSee self.now.port.pass }
    {
        self.port.sees_one_history();
    }

    /// The record of an object, by one look.
    #[inline(always)]
    pub fn look(&mut self, object: ObjectNo) -> Record
        requires held { Holds self.old.port.pass.memory.profile object }
        ensures settings { self.new.settings ≡ self.old.settings }
        ensures looks { AddsLook (passes_of same_object self.old.port.pass)
            (passes_of same_object self.new.port.pass) object result }
        ensures chip { AddsNone self.old.port self.new.port }
    {
        self.ram.look(&mut self.port, object)
    }

    /// The Message Handler Registers of one moment.
    #[inline(always)]
    pub fn look_all(&mut self) -> HandlerRegisters
        ensures settings { self.new.settings ≡ self.old.settings }
        ensures pictures { AddsPicture (passes_of same_object self.old.port.pass)
            (passes_of same_object self.new.port.pass) result }
        ensures within { AreBelow (objects_in self.old.port.pass.memory.profile) result }
        ensures chip { AddsNone self.old.port self.new.port }
    {
        self.ram.look_all(&mut self.port)
    }

    /// Makes a change of an object, in at most so many tries.
    #[inline(always)]
    pub fn change(
        &mut self,
        object: ObjectNo,
        change: &Change,
        tries: Tries,
    ) -> Result<Changed, Refused>
        requires held { Holds self.old.port.pass.memory.profile object }
        ensures settings { self.new.settings ≡ self.old.settings }
        ensures attempts { AddsAttempt (passes_of same_object self.old.port.pass)
            (passes_of same_object self.new.port.pass) object change.now tries result }
        ensures tells { Tells change.now tries result }
        ensures few { FewTries self.old.port.pass.memory.quota tries result }
        ensures chip { AddsNone self.old.port self.new.port }
    {
        self.ram.change(&mut self.port, object, change, tries)
    }

    /// The controller's registers, by one look.
    #[inline(always)]
    pub fn look_controller(&mut self) -> Controller
        ensures settings { self.new.settings ≡ self.old.settings }
        ensures looks { AddsController self.old.port self.new.port Look result }
        ensures objects { AddsNoEvent self.old.port self.new.port }
        ensures is { IsController result }
    {
        self.ram.look_controller(&mut self.port)
    }

    /// Makes a change of the controller, whatever it is at that moment, in at most so many tries.
    #[inline(always)]
    pub fn change_controller(
        &mut self,
        change: &ControllerChange,
        tries: Tries,
    ) -> Result<ControllerChanged, ControllerBusy>
        requires may { MayMake self.old.port.pass.port change.now }
        ensures settings { self.new.settings ≡ self.old.settings }
        ensures made { IfOk result (λ made.
            AddsController self.old.port self.new.port (Make change.now) made.before) }
        ensures after { IfOk result
            (λ made. made.after ≡ controller_after change.now made.before) }
        ensures is { IfOk result
            (λ made. IsController made.before × IsController made.after) }
        ensures busy { IfErr result (λ busy.
            (busy.controller ≡ controller_at self.new.port.whole)
            × IsController busy.controller × AddsNone self.old.port self.new.port) }
        ensures lost { IfErr result (λ busy. (busy.tries ≡ tries)
            × HasChanges tries self.old.port.whole self.new.port.whole) }
        ensures objects { AddsNoEvent self.old.port self.new.port }
    {
        self.ram.change_controller(&mut self.port, change, tries)
    }

    /// What the port has seen of the chip so far, for another port of it. The port stays as it is.
    pub fn tell(&mut self) -> Note
        ensures kept { self.new ≡ self.old }
        ensures memory { result.memory ≡ self.old.port.pass.memory }
        ensures told { result.whole ≡ self.old.port.whole }
    {
        self.ram.tell(&mut self.port)
    }

    /// Shows the port what the note says: what the port does from now on comes after all that the port of the note had seen.
    pub fn heed(&mut self, note: Note)
        requires note { note.memory ≡ self.old.port.pass.memory }
        ensures settings { self.new.settings ≡ self.old.settings }
        ensures heeds { GoesFrom self.new.port.whole note.whole }
        ensures none { AddsNone self.old.port self.new.port }
        ensures objects { AddsNoEvent self.old.port self.new.port }
    {
        self.ram.heed(&mut self.port, note);
    }
}
