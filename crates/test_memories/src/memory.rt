//! Worked examples of the plain memory, and of what changes are made of.
use crate::expect::{BYTES, MESSAGE, change_of, holds, same, shown, tries};
use crate::plain::Plain;
use ccan_object::{CommandMask, ObjectNo, Profile, Record, Reg};
use ccan_ram::{Change, Changed, Draft, PortName, Refused, Sending, Tries};

/// The number of a change that was made.
fn number(changed: Result<Changed, Refused>) -> Option<u64> {
    match changed {
        Ok(Changed::Done { number, .. }) => Some(number),
        _ => None,
    }
}

#[test]
fn numbers_the_changes_of_each_port_up_to_its_quota(rt: HostRuntime) {
    let mut ram = Plain::new(Profile::One, 2);
    let written = change_of(&MESSAGE, &[(Reg::Ctrl, 0x0088)]);
    for (port, first) in [
        (PortName::If1, 1),
        (PortName::If2, 65537),
        (PortName::Bus, 131073),
    ] {
        let made = ram.change(port, 5, &written);
        same(&rt, number(made), Some(first));
        // an object that isn't ready is shown, and that is no change
        let not_now = ram.change(port, 5, &Change::Start);
        same(&rt, not_now, Ok(Changed::NotNow(ram.look(5))));
        let made = ram.change(port, 5, &Change::Clear(CommandMask::of(0)));
        same(&rt, number(made), Some(first + 1));
        let refused = ram.change(port, 5, &written);
        same(&rt, refused, Err(Refused::Spent));
    }
    same(&rt, shown(&ram.look(5)), (0xa48c0000, 0, 0x0088, BYTES));
}

#[test]
fn changes_have_their_parts(rt: HostRuntime) {
    for (most, known) in [(0, false), (1, true), (1000, true), (1001, false)] {
        same(&rt, (most, Tries::new(most).is_some()), (most, known));
    }
    same(&rt, tries(4).get(), 4);
    let object = ObjectNo::from_request(Profile::One, 5);
    let empty = Record::zero();
    let draft = Draft::new(object, empty, 65537);
    same(
        &rt,
        (draft.object(), draft.held(), draft.number()),
        (object, empty, 65537),
    );
    let write = change_of(&MESSAGE, &[(Reg::Ctrl, 0x0088)]);
    holds(
        &rt,
        write.fits(&empty) && Change::Finish.fits(&empty) && !Change::Start.fits(&empty),
    );
    let written = write.applied(&empty);
    same(&rt, shown(&written), (0xa48c0000, 0, 0x0088, BYTES));
    same(&rt, Change::Finish.applied(&written), written);
    // what is tried once: TxRqst falls at the start, and NewDat at the end
    let requested = change_of(&MESSAGE, &[(Reg::Ctrl, 0x8188)]).applied(&empty);
    let [start, finish] = [Sending::Once.start(), Sending::Once.finish()];
    holds(
        &rt,
        start.fits(&requested) && !start.fits(&written) && finish.fits(&empty),
    );
    let started = start.applied(&requested);
    same(&rt, shown(&started), (0xa48c0000, 0, 0x8088, BYTES));
    same(&rt, finish.applied(&started), written);
    same(&rt, Sending::UntilSent.start(), Change::Start);
    same(&rt, Sending::UntilSent.finish(), Change::Finish);
}

#[test]
fn holds_the_laws() {
    ccan_ram::laws::flags_change_by_the_table();
    ccan_ram::laws::lost_messages_are_marked();
    ccan_ram::laws::looks_alone_show_the_memory();
    ccan_ram::laws::attempts_alone_are_determined();
    ccan_ram::laws::undisturbed_looks_are_one_thread();
    ccan_ram::laws::undisturbed_attempts_are_one_thread();
    ccan_ram::laws::lost_tries_have_changes_of_their_own();
    ccan_ram::laws::many_tries_are_never_busy();
    ccan_ram::laws::undisturbed_pictures_are_one_thread();
    ccan_ram::laws::pictures_make_no_change();
}
