//! What the lines of a script make of the objects and of the interface registers, by what they say in their order.

use crate::check::object_image::{ALL_FLAGS, INTPND, ObjectImage, WriteFinding, flag_bit};
use ccan_bus::{Fault, RoundLine};
use ccan_line::{BusLine, ControllerLine, HostLine, RegisterSet};
use ccan_object::{CommandMask, Group, Iface, ObjectNo, Profile, Reg};
use ccan_ram::PortName;
use std::alloc::{AllocError, Global};

/// The objects and the interface registers, as the lines so far leave them.
#[derive(Drop)]
pub(crate) struct ScriptImage {
    profile: Profile,
    if1: Iface,
    if2: Iface,
    /// The objects, object 1 first.
    pub(crate) objects: Vec<ObjectImage>,
    loop_back: bool,
}

/// What is rarely meant in a transfer.
#[derive(Clone, Copy)]
pub(crate) struct TransferFinding {
    pub(crate) object: ObjectNo,
    /// The first register of `set` that the read overwrites.
    pub(crate) overwritten: Option<Reg>,
    pub(crate) write: WriteFinding,
}

/// The group of an object's fields that a register shows, `None` for the Command Mask.
fn group_of(register: Reg) -> Option<Group> {
    match register {
        Reg::CMask => None,
        Reg::Mask1 | Reg::Mask2 => Some(Group::Mask),
        Reg::Arb1 | Reg::Arb2 => Some(Group::Arb),
        Reg::Ctrl => Some(Group::Control),
        Reg::DataA1 | Reg::DataA2 => Some(Group::DataA),
        Reg::DataB1 | Reg::DataB2 => Some(Group::DataB),
    }
}

/// Whether a transfer moves what a register shows.
fn moves(command: CommandMask, register: Reg) -> bool {
    match group_of(register) {
        Some(group) => command.selects(group),
        None => false,
    }
}

/// The first register of a set that a read with this command overwrites.
fn overwritten(command: CommandMask, set: &RegisterSet) -> Option<Reg> {
    let setting = set.iter().find(|setting| moves(command, setting.0))?;
    Some(setting.0)
}

impl ScriptImage {
    /// The image before the first line: all registers and objects are 0.
    pub(crate) fn new(alloc: Global, profile: Profile) -> Result<ScriptImage, AllocError> {
        let mut objects = Vec::new(alloc);
        for _object in 0..profile.objects() {
            objects.push(ObjectImage::new())?;
        }
        Ok(ScriptImage {
            profile,
            if1: Iface::new(),
            if2: Iface::new(),
            objects,
            loop_back: false,
        })
    }

    /// The interface registers of a host.
    fn interface(&self, port: PortName) -> Iface {
        match port {
            PortName::If1 | PortName::Bus => self.if1,
            PortName::If2 => self.if2,
        }
    }

    /// A host's interface registers are now these.
    fn set_interface(&mut self, port: PortName, interface: Iface) {
        match port {
            PortName::If1 | PortName::Bus => self.if1 = interface,
            PortName::If2 => self.if2 = interface,
        }
    }

    /// A transfer of a host's line of this index.
    pub(crate) fn transfer(
        &mut self,
        port: PortName,
        index: usize,
        request: u16,
        set: &RegisterSet,
    ) -> TransferFinding {
        let object = ObjectNo::from_request(self.profile, request);
        let mut interface = self.interface(port);
        for (register, value) in set.iter() {
            interface.set(*register, *value);
        }
        let command = interface.command();
        let mut finding = TransferFinding {
            object,
            overwritten: None,
            write: WriteFinding::NOTHING,
        };
        let place = usize::from(object.get() - 1);
        if let Some(before) = self.objects.get(place) {
            let mut image = *before;
            if command.is_write() {
                finding.write = image.write(port, index, command, &interface.buffer());
            } else {
                finding.overwritten = overwritten(command, set);
                image.read(port, command);
            }
            interface.fill(command, &image.record);
            self.put(place, image);
        }
        self.set_interface(port, interface);
        finding
    }

    /// Puts an object at its index.
    fn put(&mut self, place: usize, image: ObjectImage) {
        if place < self.objects.len() {
            self.objects[place] = image;
        }
    }

    /// A port looks at these flags of an object.
    fn look(&mut self, port: PortName, object: ObjectNo, flags: u16) {
        let place = usize::from(object.get() - 1);
        if let Some(before) = self.objects.get(place) {
            let mut image = *before;
            image.look(port, flags);
            self.put(place, image);
        }
    }

    /// A port looks at these flags of all objects.
    fn look_at_all(&mut self, port: PortName, flags: u16) {
        for image in self.objects.iter_mut() {
            image.look(port, flags);
        }
    }

    /// A host's line that only looks.
    pub(crate) fn host_look(&mut self, port: PortName, line: &HostLine) {
        match line {
            HostLine::Transfer { .. } => {}
            HostLine::Until { object, .. } => self.look(port, *object, ALL_FLAGS),
            HostLine::Interrupt => self.look_at_all(port, INTPND),
            HostLine::Flags(flag) => self.look_at_all(port, flag_bit(*flag)),
        }
    }

    /// The bus may meet each request.
    fn meet_requests(&mut self) {
        for image in self.objects.iter_mut() {
            image.meet_request();
        }
    }

    /// The index of the first object that accepts the one frame of a round.
    fn storing_place(&self, round: &RoundLine) -> Option<usize> {
        match round.sends() {
            [(_node, frame)] => self.objects.iter().position(|image| image.accepts(frame)),
            _ => None,
        }
    }

    /// A round without a fault in which one node sends and the controller does not: its frame is stored.
    fn round(&mut self, round: &RoundLine) {
        if self.loop_back
            || round.fault() != Fault::Quiet
            || self.objects.iter().any(ObjectImage::is_ready)
        {
            return;
        }
        if let (Some(place), [(_node, frame)]) = (self.storing_place(round), round.sends()) {
            if let Some(before) = self.objects.get(place) {
                let mut image = *before;
                image.store(frame);
                self.put(place, image);
            }
        }
    }

    /// A line at the controller.
    fn controller_line(&mut self, line: &ControllerLine) {
        if let ControllerLine::LoopBack(on) = line {
            self.loop_back = *on;
        }
    }

    /// A line of the bus.
    pub(crate) fn bus_line(&mut self, line: &BusLine) {
        if let Some(round) = line.round() {
            self.round(round);
        }
        if line.moves_messages() {
            self.meet_requests();
        }
        if let BusLine::Controller(line) = line {
            self.controller_line(line);
        }
    }
}
