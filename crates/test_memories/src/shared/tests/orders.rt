//! Worked examples with a forced order of the ports' steps.
use super::*;
use crate::expect::{BYTES, RECEIVER, found, frame, same, shown, tries};
use crate::shared::three_ports::ThreePorts;
use ccan_handler::ScanRefused;
use ccan_ram::{CommitError, HandlerRegisters, OpenError, PortName, Refused};

/// What the registers of the message show.
const P: (u32, u32, u16, [u8; 8]) = (0xa48c0000, 0, 0x0088, BYTES);

/// A draft is lost to changes of its object since, even if the record is then the same as before; and to those of another object
/// if the two contend.
fn stale_drafts<R: SharedRam + Drop>(rt: &impl Abort, alloc: Global, beside: bool) {
    let mut three = ThreePorts::<R>::open(rt, alloc, Profile::One, 64);
    let written = three.change(PortName::If1, 4, &message(0x0088), tries(1));
    same(rt, number(&written), Some(1));
    let (other, same_again) = (control(0), message(0x0088));
    let there_and_back = [&other, &same_again];
    let (theirs, lost) = three.disturbed(4, (4, there_and_back), &control(0x0001), tries(1));
    same(rt, number(&theirs), Some(65538));
    same(rt, lost, Err(CommitError::Lost { now: 65538 }));
    same(rt, shown(&three.look(PortName::If1, 4)), P);
    let (theirs, made) = three.disturbed(4, (6, there_and_back), &control(0x0001), tries(1));
    same(rt, number(&theirs), Some(65540));
    let is_lost = matches!(&made, Err(CommitError::Lost { now: 65540 }));
    let want = if beside {
        (None, true)
    } else {
        (Some(2), false)
    };
    same(rt, (number(&made), is_lost), want);
}

/// What another port sees of a write of the last object, which a Command Request of 0 names, and what is left.
fn write_is_seen<R: SharedRam + Drop>(
    rt: &impl Abort,
    alloc: Global,
    profile: Profile,
    objects: u8,
) {
    let mut three = ThreePorts::<R>::open(rt, alloc, profile, 64);
    same(rt, three.look(PortName::If1, 0), Record::zero());
    let written = three.change(PortName::If2, 0, &message(0x0088), tries(1));
    same(rt, number(&written), Some(65537));
    let (object, held, last) = three.drafted(0);
    same(rt, (object.get(), shown(&held), last), (objects, P, 65537));
    same(rt, object, three.object(0x0040));
    three.meet();
    let after = three.look(PortName::If1, 0);
    same(rt, shown(&after), P);
    let end = three.close();
    same(rt, end.profile, profile);
    for (place, object) in end.records.iter().enumerate() {
        let is_last = place + 1 == usize::from(objects);
        let want = if is_last { after } else { Record::zero() };
        same(rt, (place, *object), (place, want));
    }
}

/// What the registers show once two objects were written.
fn registers_show_all_objects<R: SharedRam + Drop>(rt: &impl Abort, alloc: Global) {
    let mut three = ThreePorts::<R>::open(rt, alloc, Profile::Two, 64);
    let _third = three.change(PortName::If1, 3, &message(0x8188), tries(1));
    let _last = three.change(PortName::If1, 0, &control(0x6000), tries(1));
    let want = HandlerRegisters {
        newdat: 0x4,
        msglst: 0x8000000000000000,
        intpnd: 0x8000000000000000,
        txrqst: 0x4,
        msgval: 0x4,
    };
    same(rt, three.registers(), want);
}

/// A scan whose store loses every try is refused with its tries and the number of the last change that contends. It
/// goes on at the object where it was refused.
fn scan_is_resumed<R: SharedRam + Drop>(rt: &impl Abort, alloc: Global) {
    let mut three = ThreePorts::<R>::open(rt, alloc, Profile::One, 64);
    let at = three.object(3);
    let receiver = change_of(&RECEIVER, &[(Reg::Ctrl, 0x0088)]);
    let written = three.change(PortName::If1, 3, &receiver, tries(1));
    same(rt, number(&written), Some(1));
    let bytes = [1, 0, 0, 0, 0, 0, 0, 0];
    let sent = frame(0x123, false, false, 1, bytes);
    let again = change_of(&[(Reg::CMask, 0x0082)], &[]);
    let (busy, used, resumed) = three.receives_disturbed(&sent, 3, again, tries(2));
    let why = Refused::Busy { tries: 2, now: 3 };
    same(rt, busy, Err(ScanRefused { at, why }));
    let stored = found(rt, resumed);
    same(rt, stored.object, at);
    same(rt, shown(&stored.before), (0x848c0000, 0, 0x0088, [0; 8]));
    same(rt, shown(&stored.after), (0x848c0000, 0, 0x8081, bytes));
    same(rt, used, (0, 3));
}

/// A choice of one moment. The rival disturbs each of its tries by a write that takes the request away.
fn chosen_are_ready_no_more<R: SharedRam + Drop>(rt: &impl Abort, alloc: Global) {
    let mut three = ThreePorts::<R>::open(rt, alloc, Profile::One, 64);
    let second = three.change(PortName::If1, 2, &message(0x0188), tries(1));
    let fourth = three.change(PortName::If1, 4, &message(0x0188), tries(1));
    same(rt, (number(&second), number(&fourth)), (Some(1), Some(2)));
    let (chosen, used) = three.chooses_disturbed(control(0), tries(2));
    same(rt, chosen, Ok(None));
    // Of the two tries at each object one is lost, and the other finds no request; the rival writes in each.
    same(rt, used, (0, 2 + 2 * 2));
}

/// These orders at a memory whose objects contend with one another, or each with itself alone.
fn orders<R: SharedRam + Drop>(rt: &impl Abort, alloc: Global, beside: bool) {
    stale_drafts::<R>(rt, alloc, beside);
    write_is_seen::<R>(rt, alloc, Profile::One, 32);
    write_is_seen::<R>(rt, alloc, Profile::Two, 64);
    registers_show_all_objects::<R>(rt, alloc);
    scan_is_resumed::<R>(rt, alloc);
    chosen_are_ready_no_more::<R>(rt, alloc);
}

#[test]
fn ports_meet_in_forced_orders(rt: HostRuntime) {
    orders::<WordRam>(&rt, rt.alloc(), false);
    orders::<RootRam>(&rt, rt.alloc(), true);
    orders::<EndlessRam>(&rt, rt.alloc(), false);
}

/// Whether a memory is opened with this quota. None: it is refused for another reason than the quota.
fn takes<R: SharedRam + Drop>(alloc: Global, quota: u64) -> Option<bool> {
    match R::open_ram(alloc, Profile::Two, quota) {
        Ok(_) => Some(true),
        Err(OpenError::QuotaRange) => Some(false),
        Err(_) => None,
    }
}

/// A memory is opened with this quota, and with no greater one.
fn takes_up_to<R: SharedRam + Drop>(rt: &impl Abort, alloc: Global, most: u64) {
    for (quota, want) in [(0, false), (most, true), (most.saturating_add(1), false)] {
        same(rt, (quota, takes::<R>(alloc, quota)), (quota, Some(want)));
    }
}

/// A port makes its quota of changes, the last with this number, and then no more.
fn spent_after<R: SharedRam + Drop>(rt: &impl Abort, alloc: Global, quota: u64, greatest: u64) {
    let mut three = ThreePorts::<R>::open(rt, alloc, Profile::One, quota);
    let clear = change_of(&[(Reg::CMask, 0x000c)], &[]);
    let mut last = None;
    for _ in 0..quota {
        last = number(&three.change(PortName::Bus, 1, &clear, tries(1)));
    }
    same(rt, last, Some(greatest));
    let spent = three.change(PortName::Bus, 1, &clear, tries(1));
    same(rt, spent, Err(Refused::Spent));
    same(rt, three.look(PortName::Bus, 1), Record::zero());
    same(rt, three.used(), (0, 0, quota));
}

#[test]
fn ports_are_spent_after_their_quotas(rt: HostRuntime) {
    takes_up_to::<WordRam>(&rt, rt.alloc(), 4096);
    takes_up_to::<RootRam>(&rt, rt.alloc(), 64);
    // 2^47 - 1
    takes_up_to::<EndlessRam>(&rt, rt.alloc(), 140_737_488_355_327);
    spent_after::<WordRam>(&rt, rt.alloc(), 4096, 135168);
    spent_after::<RootRam>(&rt, rt.alloc(), 64, 131136);
    // after the 65,535th change the numbers go on above the ports' own
    spent_after::<EndlessRam>(&rt, rt.alloc(), 65_535, 196_607);
    spent_after::<EndlessRam>(&rt, rt.alloc(), 65_536, 393_216);
}
