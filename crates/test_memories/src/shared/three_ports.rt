//! A shared memory with its three ports, for worked examples with a forced order of their steps.
ghost use Rattle.std.specs.Prelude.{◌≡◌};
ghost use Rattle.ccan_ram.specs.declared.port.PortName.TheVariants.{If1, If2, Bus};

use super::Contended;
use crate::shared::calls::{change, change_twice, commit, look, prepare, used};
use ccan_accept::Frame;
use ccan_handler::{ScanRefused, Stored};
use ccan_object::{ObjectNo, Profile, Record};
use ccan_ram::{
    Change, Changed, CommitError, Final, HandlerRegisters, PortName, Refused, Sending, SharedRam,
    Tries,
};
use std::alloc::Global;
use std::process::Abort;
use test_contended::calls::{choose_at_once, receive, receive_from};

/// A shared memory and its ports. It is part of the type that each port is the memory's, so its calls promise nothing, and a test
/// has no more to carry than its own lines. A request names an object, as in the Command Request register.
#[derive(Drop)]
pub struct ThreePorts<R: SharedRam> {
    ram: R,
    if1: R::Port,
    if2: R::Port,
    bus: R::Port,
    quota: u64,
    ghost first: { ((R.pass if1).memory ≡ R.memory ram) × ((R.pass if1).port ≡ If1) },
    ghost second: { ((R.pass if2).memory ≡ R.memory ram) × ((R.pass if2).port ≡ If2) },
    ghost third: { ((R.pass bus).memory ≡ R.memory ram) × ((R.pass bus).port ≡ Bus) },
    ghost quota_is: { quota ≡ (R.memory ram).quota },
}

/// What a choice found, and what its start left.
pub type Chosen = Result<Option<(ObjectNo, Record)>, ScanRefused>;

/// What a receipt stored.
pub type Received = Result<Option<Stored>, ScanRefused>;

impl<R: SharedRam + Drop> ThreePorts<R> {
    /// A memory that was just opened, with so many changes for each port.
    pub fn open(rt: &impl Abort, alloc: Global, profile: Profile, quota: u64) -> ThreePorts<R> {
        match R::open_ram(alloc, profile, quota) {
            Ok((ram, if1, if2, bus)) => ThreePorts {
                ram,
                if1,
                if2,
                bus,
                quota,
            },
            Err(_) => panic!(rt; "no memory"),
        }
    }

    /// The object that a request names.
    pub fn object(&self, request: u16) -> ObjectNo {
        ObjectNo::from_request(self.ram.profile(), request)
    }

    /// A change by a port.
    pub fn change(
        &mut self,
        port: PortName,
        request: u16,
        made: &Change,
        tries: Tries,
    ) -> Result<Changed, Refused> {
        let object = ObjectNo::from_request(self.ram.profile(), request);
        match port {
            PortName::If1 => change(&self.ram, &mut self.if1, object, made, tries),
            PortName::If2 => change(&self.ram, &mut self.if2, object, made, tries),
            PortName::Bus => change(&self.ram, &mut self.bus, object, made, tries),
        }
    }

    /// A look of a port.
    pub fn look(&mut self, port: PortName, request: u16) -> Record {
        let object = ObjectNo::from_request(self.ram.profile(), request);
        match port {
            PortName::If1 => look(&self.ram, &mut self.if1, object),
            PortName::If2 => look(&self.ram, &mut self.if2, object),
            PortName::Bus => look(&self.ram, &mut self.bus, object),
        }
    }

    /// What a draft of IF1 has: its object, the record that its look found, and the number of the last change that contends.
    pub fn drafted(&mut self, request: u16) -> (ObjectNo, Record, u64) {
        let object = ObjectNo::from_request(self.ram.profile(), request);
        let draft = prepare(&self.ram, &mut self.if1, object);
        (draft.object(), draft.held(), draft.number())
    }

    /// An attempt of IF1; between its look and its commit IF2 makes two changes at this object. And what IF2 was answered last.
    pub fn disturbed(
        &mut self,
        request: u16,
        (at, theirs): (u16, [&Change; 2]),
        made: &Change,
        tries: Tries,
    ) -> (Result<Changed, Refused>, Result<Changed, CommitError>) {
        let profile = self.ram.profile();
        let object = ObjectNo::from_request(profile, request);
        let other = ObjectNo::from_request(profile, at);
        let draft = prepare(&self.ram, &mut self.if1, object);
        let answer = change_twice(&self.ram, &mut self.if2, other, theirs, tries);
        (answer, commit(&self.ram, &mut self.if1, draft, made))
    }

    /// A choice of the bus at one moment, while IF1 disturbs each of its tries by this change; and how many changes the bus and
    /// IF1 have then made.
    pub fn chooses_disturbed(self, theirs: Change, tries: Tries) -> (Chosen, (u64, u64)) {
        let ThreePorts {
            ram,
            if1,
            bus,
            quota,
            ..
        } = self;
        let mut disturbed = Contended::new(&ram, bus, if1, theirs, quota);
        let chosen = choose_at_once(&mut disturbed, Sending::UntilSent, tries);
        (chosen, disturbed.used())
    }

    /// A receipt of the bus, while IF1 disturbs each of its tries by this change, and how many changes the bus and IF1 have then
    /// made; and a receipt from this object on that nobody disturbs.
    pub fn receives_disturbed(
        self,
        frame: &Frame,
        request: u16,
        theirs: Change,
        tries: Tries,
    ) -> (Received, (u64, u64), Received) {
        let ThreePorts {
            ram,
            if1,
            bus,
            quota,
            ..
        } = self;
        let mut disturbed = Contended::new(&ram, bus, if1, theirs, quota);
        let first = receive(&mut disturbed, frame, tries);
        let used = disturbed.used();
        let mut handler = disturbed.undisturbed();
        let second = receive_from(&mut handler, frame, request, tries);
        let _bus = handler.into_port();
        (first, used, second)
    }

    /// Shows each of IF1 and IF2 what the other has seen.
    pub fn meet(&mut self) {
        self.ram.meet(&mut self.if1, &mut self.if2);
    }

    /// The Message Handler Registers, by the bus.
    pub fn registers(&mut self) -> HandlerRegisters {
        self.ram.look_all(&mut self.bus)
    }

    /// How many changes IF1, IF2 and the bus have made.
    pub fn used(&self) -> (u64, u64, u64) {
        (
            used(&self.ram, &self.if1),
            used(&self.ram, &self.if2),
            used(&self.ram, &self.bus),
        )
    }

    /// What is left at the end.
    pub fn close(self) -> Final {
        let ThreePorts {
            ram,
            if1,
            if2,
            bus,
            ..
        } = self;
        ram.close(if1, if2, bus)
    }
}
