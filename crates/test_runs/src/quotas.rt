//! Quotas to their last change on every port, and what still answers afterwards.
ghost use Rattle.std.specs.Prelude.{◌≡◌};
ghost use Rattle.ccan_ram.specs.Port.{IsQuota};

use crate::expect::same;
use ccan_accept::Frame;
use ccan_handler::ScanRefused;
use ccan_object::{CommandMask, Identifier, ObjectNo, Profile, Record};
use ccan_ram::{Access, Array, Change, Changed, Flag, On, PortName, Refused, SharedRam, Tries};
use ccan_words::{RootRam, WordRam};
use std::alloc::Global;
use std::process::Abort;
use test_contended::calls::{choose, flags, interrupt, receive, until};

/// One try.
fn once(rt: &impl Abort) -> Tries {
    match Tries::new(1) {
        Some(tries) => tries,
        None => panic!(rt; "no try"),
    }
}

/// A standard data frame without bytes.
fn frame(rt: &impl Abort, id: u32) -> Frame {
    match Frame::new(id, false, false, 0, [0; 8]) {
        Ok(frame) => frame,
        Err(_) => panic!(rt; "no frame"),
    }
}

/// A write of an object that is ready, has a message, and receives standard frames 0x123.
fn write() -> Change {
    let record = Record {
        valid: true,
        id: Identifier::of(0x123 << 18),
        newdat: true,
        intpnd: true,
        txrqst: true,
        eob: true,
        ..Record::zero()
    };
    Change::Write(CommandMask::of(0x00f3), record)
}

/// A read that clears NewDat and IntPnd.
fn clear() -> Change {
    Change::Clear(CommandMask::of(0x000c))
}

/// A change in one try, by the request of its object.
fn change<A: Access>(
    rt: &impl Abort,
    access: &mut A,
    request: u16,
    change: &Change,
) -> Result<Changed, Refused> {
    let object = ObjectNo::from_request(access.profile(), request);
    access.change(object, change, once(rt))
}

/// The number of a change that was made.
fn number_of(rt: &impl Abort, answer: Result<Changed, Refused>) -> u64 {
    match answer {
        Ok(Changed::Done { number, .. }) => number,
        _ => panic!(rt; "a change was not made"),
    }
}

/// Uses up a port's quota: a write of object 3, and then reads of object 1 that clear its flags. The changes have the
/// numbers from this one on. Then each change is spent, whether it fits or not.
fn spend<A: Access>(rt: &impl Abort, access: &mut A, quota: u64, first: u64) {
    same(rt, number_of(rt, change(rt, access, 3, &write())), first);
    for made in 1..quota {
        let number = number_of(rt, change(rt, access, 1, &clear()));
        same(rt, number.wrapping_sub(made), first);
    }
    let store = Change::Store(frame(rt, 0x123));
    for spent in [write(), clear(), store, Change::Start, Change::Finish] {
        for request in [1, 3] {
            same(rt, change(rt, access, request, &spent), Err(Refused::Spent));
        }
    }
}

/// A scan that came to this object, at which no change is left.
fn spent(at: ObjectNo) -> ScanRefused {
    ScanRefused {
        at,
        why: Refused::Spent,
    }
}

/// A choice and a receipt are refused at object 3, and a frame that nobody accepts is not.
fn scans_are_spent<A: Access>(rt: &impl Abort, access: &mut A) {
    let third = ObjectNo::from_request(access.profile(), 3);
    let (accepted, other) = (frame(rt, 0x123), frame(rt, 0x124));
    same(rt, choose(access, once(rt)), Err(spent(third)));
    same(rt, receive(access, &accepted, once(rt)), Err(spent(third)));
    same(rt, receive(access, &other, once(rt)), Ok(None));
}

/// Arbitration and Message Control, as a driver reads them.
fn shown(object: &Record) -> (u32, u16) {
    (object.arbitration(), object.control())
}

/// Spends a port's quota. What is refused then is reported, and every look still answers.
fn spends<A: Access>(rt: &impl Abort, access: &mut A, quota: u64, first: u64) {
    spend(rt, access, quota, first);
    scans_are_spent(rt, access);
    same(rt, interrupt(access, false), 0x0003);
    same(rt, interrupt(access, true), 0x8000);
    same(rt, flags(access, Flag::NewDat), 0x0004);
    same(rt, until(access, 3, Flag::IntPnd, 1), true);
    same(rt, until(access, 3, Flag::MsgLst, 2), false);
    let third = ObjectNo::from_request(access.profile(), 3);
    same(rt, shown(&access.look(third)), (0x848c0000, 0xa180));
}

/// The number of each port's first change.
const PORTS: [(PortName, u64); 3] = [
    (PortName::If1, 1),
    (PortName::If2, 65_537),
    (PortName::Bus, 131_073),
];

/// Each port of a plain memory in turn, which doesn't mind that the others are spent.
fn spends_an_array(rt: &impl Abort, quota: u64)
    requires { IsQuota quota }
{
    let mut ram = Array::new(Profile::One, quota);
    for (port, first) in PORTS {
        ram.at(port);
        spends(rt, &mut ram, quota, first);
    }
}

/// A port of a shared memory, whose first change has this number.
fn spends_a_port<R: SharedRam>(rt: &impl Abort, ram: &R, port: R::Port, quota: u64, first: u64)
    requires { (R.pass port).memory ≡ R.memory ram.now }
{
    let mut access = On::new(ram, port);
    spends(rt, &mut access, quota, first);
}

/// Each port of a shared memory in turn.
fn spends_a_shared_memory<R: SharedRam + Drop>(rt: &impl Abort, alloc: Global, quota: u64) {
    match R::open_ram(alloc, Profile::One, quota) {
        Ok((ram, if1, if2, bus)) => {
            spends_a_port(rt, &ram, if1, quota, 1);
            spends_a_port(rt, &ram, if2, quota, 65_537);
            spends_a_port(rt, &ram, bus, quota, 131_073);
        }
        Err(_) => panic!(rt; "no memory"),
    }
}

#[test]
fn each_memory_is_spent_at_its_quota(rt: HostRuntime) {
    spends_an_array(&rt, 1);
    spends_an_array(&rt, 4096);
    for quota in [1, 4096] {
        spends_a_shared_memory::<WordRam>(&rt, rt.alloc(), quota);
    }
    for quota in [1, 64] {
        spends_a_shared_memory::<RootRam>(&rt, rt.alloc(), quota);
    }
}
