//! A chip of one thread as a device: its steps, and all schedules of three threads on it.
//!
//! In the schedules IF1 looks at object 1 until NewDat is 1 (place 0), and then clears NewDat (places 1 and 2) by a second step,
//! whatever it finds then. The bus stores frame A (place 0) and frame B (place 1). IF2 takes a picture once. A situation is
//! written as the object and the places of IF1 and the bus: o is the object as it was configured, A and B are those that hold a
//! frame with NewDat 1, and a and b the same with NewDat 0. B' and b' are those with MsgLst 1, since A was overwritten before
//! NewDat was cleared.
//!
//! From o 0,0 the bus goes to A 0,1; from there to A 1,1 and B' 0,2; from A 1,1 to a 3,1 and B' 1,2; from B' 0,2 to B' 2,2; from
//! a 3,1 to B 3,2; from B' 1,2 to b' 4,2, where IF1 has read A and cleared NewDat of B, which nobody has read; and from B' 2,2 to
//! b' 5,2. With IF2 before or after its picture these ten are twenty.
use crate::expect::{holds, same};
use ccan_accept::Frame;
use ccan_confine::{BusEvent, ControlRegister, Controller, ControllerChange, StatusEvent};
use ccan_device::{ChipAnswer, ChipDevice, ChipMemory, ChipOperation};
use ccan_every::{
    Device, Entry, Found, Goes, Outcome, Places, Program, Situation, Step, Table, every_schedule,
};
use ccan_object::{CommandMask, DataLength, Identifier, Profile, Record};
use ccan_ram::Change;
use ccan_search::Untold;
use std::alloc::{AllocError, Global};
use std::process::Abort;

/// The identifier of object 1, and of the frames.
const ID: u32 = 0x123;

/// An object that takes frames of the identifier.
fn receiver() -> Record {
    Record {
        valid: true,
        id: Identifier::of(ID << 18),
        eob: true,
        ..Record::zero()
    }
}

/// The same object after a frame of this byte.
fn holding(byte: u8) -> Record {
    Record {
        newdat: true,
        dlc: DataLength::of(1),
        bytes: [byte, 0, 0, 0, 0, 0, 0, 0],
        ..receiver()
    }
}

/// The store of a frame of this byte in object 1.
fn store(rt: &impl Abort, byte: u8) -> ChipOperation {
    let Ok(frame) = Frame::new(ID, false, false, 1, [byte, 0, 0, 0, 0, 0, 0, 0]) else {
        panic!(rt; "no frame")
    };
    ChipOperation::Attempt(1, Change::Store(frame))
}

/// A write of a whole object, with WR/RD, Mask, Arb, Control, Data A and Data B.
fn write(new: Record) -> Change {
    Change::Write(CommandMask::of(0xf3), new)
}

/// A read that clears NewDat.
fn clear() -> Change {
    Change::Clear(CommandMask::of(0x04))
}

/// The answer to a change that made the second record of the first one.
fn made(before: Record, after: Record) -> ChipAnswer {
    ChipAnswer::Made { before, after }
}

/// A chip as it opens.
fn opened(rt: &impl Abort, alloc: Global, profile: Profile) -> ChipMemory {
    let Ok(chip) = ChipMemory::new(alloc, profile) else {
        panic!(rt; "no memory")
    };
    chip
}

/// What an operation can lead to, the last first.
fn steps(
    rt: &impl Abort,
    alloc: Global,
    refuses: bool,
    at: &ChipMemory,
    operation: ChipOperation,
) -> Vec<Step<ChipMemory, ChipAnswer>> {
    let Ok(steps) = (ChipDevice { refuses }).act(alloc, 0, operation, at) else {
        panic!(rt; "no memory")
    };
    steps
}

/// The one step of an operation.
fn step(
    rt: &impl Abort,
    alloc: Global,
    at: &ChipMemory,
    operation: ChipOperation,
) -> Step<ChipMemory, ChipAnswer> {
    let mut all = steps(rt, alloc, false, at, operation);
    let Some(step) = all.pop() else {
        panic!(rt; "no step")
    };
    holds(rt, all.is_empty());
    step
}

/// The chip after a write of an object.
fn written(
    rt: &impl Abort,
    alloc: Global,
    at: &ChipMemory,
    object: usize,
    new: Record,
) -> ChipMemory {
    step(rt, alloc, at, ChipOperation::Attempt(object, write(new))).memory
}

/// Holds that an operation shows this, and changes nothing.
fn shows(
    rt: &impl Abort,
    alloc: Global,
    at: &ChipMemory,
    operation: ChipOperation,
    want: ChipAnswer,
) {
    let step = step(rt, alloc, at, operation);
    holds(rt, step.answer == want);
    holds(rt, step.memory == *at);
}

/// A look shows what a write left. The chip of profile 1 has objects 1 to 32, and a look at another one can't be made.
#[test]
fn a_look_shows_what_a_write_left(rt: HostRuntime) {
    let chip = opened(&rt, rt.alloc(), Profile::One);
    let wrote = step(
        &rt,
        rt.alloc(),
        &chip,
        ChipOperation::Attempt(2, write(receiver())),
    );
    let want = made(Record::zero(), receiver());
    holds(&rt, wrote.answer == want);
    let after = wrote.memory;
    let found = ChipAnswer::Shown(receiver());
    shows(&rt, rt.alloc(), &after, ChipOperation::Look(2), found);
    let other = ChipAnswer::Shown(Record::zero());
    shows(&rt, rt.alloc(), &after, ChipOperation::Look(32), other);
    for object in [0, 33] {
        let none = steps(&rt, rt.alloc(), true, &after, ChipOperation::Look(object));
        holds(&rt, none.is_empty());
    }
}

/// A frame is not stored in an object that isn't valid, and the answer shows that object.
#[test]
fn a_store_that_does_not_fit_changes_nothing(rt: HostRuntime) {
    let chip = opened(&rt, rt.alloc(), Profile::One);
    let unfit = ChipAnswer::Unfit(Record::zero());
    shows(&rt, rt.alloc(), &chip, store(&rt, 0xa5), unfit);
    let chip = written(&rt, rt.alloc(), &chip, 1, receiver());
    let want = made(receiver(), holding(0xa5));
    let stored = step(&rt, rt.alloc(), &chip, store(&rt, 0xa5));
    holds(&rt, stored.answer == want);
}

/// NewDat of object k is bit k - 1, as in the NewDat registers, and so are the others.
#[test]
fn a_picture_shows_object_k_at_bit_k_less_1(rt: HostRuntime) {
    let chip = opened(&rt, rt.alloc(), Profile::Two);
    let chip = written(&rt, rt.alloc(), &chip, 1, holding(1));
    let chip = written(&rt, rt.alloc(), &chip, 64, holding(2));
    let requested = Record {
        valid: true,
        dir: true,
        txrqst: true,
        intpnd: true,
        msglst: true,
        ..Record::zero()
    };
    let chip = written(&rt, rt.alloc(), &chip, 33, requested);
    let want = ChipAnswer::Pictured {
        newdat: 0x8000_0000_0000_0001,
        msglst: 0x1_0000_0000,
        intpnd: 0x1_0000_0000,
        txrqst: 0x1_0000_0000,
        msgval: 0x8000_0001_0000_0001,
    };
    shows(&rt, rt.alloc(), &chip, ChipOperation::Picture, want);
}

/// A write of the Control register that sets Init.
fn stop() -> ControlRegister {
    ControlRegister {
        init: true,
        ..ControlRegister::default()
    }
}

/// A controller that opened and was stopped: it has left the bus.
fn stopped() -> Controller {
    Controller {
        control: stop(),
        has_left: true,
        ..Controller::new()
    }
}

/// What a write of the Control register left is found. No error code above 6 can come from the bus.
#[test]
fn a_change_of_the_controller_is_found(rt: HostRuntime) {
    let chip = opened(&rt, rt.alloc(), Profile::One);
    let write = ChipOperation::ChangeController(ControllerChange::WriteControl(stop()));
    let changed = step(&rt, rt.alloc(), &chip, write);
    let want = ChipAnswer::Changed {
        before: Controller::new(),
        after: stopped(),
    };
    holds(&rt, changed.answer == want);
    let after = changed.memory;
    let found = ChipAnswer::Found(stopped());
    shows(
        &rt,
        rt.alloc(),
        &after,
        ChipOperation::LookAtController,
        found,
    );
    let fault = ControllerChange::Frame(BusEvent::ReceiveFault, StatusEvent::Fault(7));
    let change = ChipOperation::ChangeController(fault);
    holds(&rt, steps(&rt, rt.alloc(), false, &chip, change).is_empty());
}

/// If changes may be refused, one is made or refused, and a refused one leaves the chip as it was.
#[test]
fn a_change_may_be_refused(rt: HostRuntime) {
    let chip = opened(&rt, rt.alloc(), Profile::One);
    let changes = [
        ChipOperation::Attempt(1, write(receiver())),
        ChipOperation::ChangeController(ControllerChange::ResetDcan),
    ];
    for operation in changes {
        let mut all = steps(&rt, rt.alloc(), true, &chip, operation);
        same(&rt, all.len(), 2);
        let Some(refused) = all.pop() else {
            panic!(&rt; "no step")
        };
        holds(&rt, refused.answer == ChipAnswer::Refused);
        holds(&rt, refused.memory == chip);
        let Some(made) = all.pop() else {
            panic!(&rt; "no step")
        };
        holds(&rt, made.memory != chip);
    }
    same(
        &rt,
        steps(&rt, rt.alloc(), true, &chip, ChipOperation::Look(1)).len(),
        1,
    );
}

/// A place where a thread does this, and goes on from these answers.
fn does(
    alloc: Global,
    operation: ChipOperation,
    goes: &[(ChipAnswer, usize)],
) -> Result<Entry<ChipOperation, ChipAnswer>, AllocError> {
    let mut all = Vec::new(alloc);
    for (answer, to) in goes {
        all.push(Goes {
            answer: *answer,
            to: *to,
        })?;
    }
    Ok(Entry::Acts {
        operation,
        goes: all,
    })
}

/// The record in which A was overwritten by B before NewDat was cleared.
fn overwritten() -> Record {
    Record {
        msglst: true,
        ..holding(2)
    }
}

/// The answer to a clear of NewDat that found this.
fn was_cleared(before: Record) -> ChipAnswer {
    let after = Record {
        newdat: false,
        ..before
    };
    made(before, after)
}

/// IF1, which clears NewDat after it has seen it.
fn reads_and_clears(alloc: Global) -> Result<Table<ChipOperation, ChipAnswer>, AllocError> {
    let looks = [
        (ChipAnswer::Shown(receiver()), 0),
        (ChipAnswer::Shown(holding(1)), 1),
        (ChipAnswer::Shown(overwritten()), 2),
    ];
    let first = [
        (was_cleared(holding(1)), 3),
        (was_cleared(overwritten()), 4),
    ];
    let second = [(was_cleared(overwritten()), 5)];
    let clears = ChipOperation::Attempt(1, clear());
    let mut entries = Vec::new(alloc);
    entries.push(does(alloc, ChipOperation::Look(1), &looks)?)?;
    entries.push(does(alloc, clears, &first)?)?;
    entries.push(does(alloc, clears, &second)?)?;
    for _ in 0..3 {
        entries.push(Entry::Ended)?;
    }
    Ok(Table { entries })
}

/// IF2, which takes a picture.
fn takes_a_picture(alloc: Global) -> Result<Table<ChipOperation, ChipAnswer>, AllocError> {
    let mut shown = Vec::new(alloc);
    for (newdat, msglst) in [(0, 0), (1, 0), (0, 1), (1, 1)] {
        let answer = ChipAnswer::Pictured {
            newdat,
            msglst,
            intpnd: 0,
            txrqst: 0,
            msgval: 1,
        };
        shown.push((answer, 1))?;
    }
    let mut entries = Vec::new(alloc);
    entries.push(does(alloc, ChipOperation::Picture, shown.as_slice())?)?;
    entries.push(Entry::Ended)?;
    Ok(Table { entries })
}

/// The bus, which stores A and then B.
fn stores_two(
    rt: &impl Abort,
    alloc: Global,
) -> Result<Table<ChipOperation, ChipAnswer>, AllocError> {
    let seen = Record {
        newdat: false,
        ..holding(1)
    };
    let first = [(made(receiver(), holding(1)), 1)];
    let second = [
        (made(holding(1), overwritten()), 2),
        (made(seen, holding(2)), 2),
    ];
    let mut entries = Vec::new(alloc);
    entries.push(does(alloc, store(rt, 1), &first)?)?;
    entries.push(does(alloc, store(rt, 2), &second)?)?;
    entries.push(Entry::Ended)?;
    Ok(Table { entries })
}

/// IF1, IF2 and the bus.
fn three(
    rt: &impl Abort,
    alloc: Global,
) -> Result<Vec<Table<ChipOperation, ChipAnswer>>, AllocError> {
    let mut tables = Vec::new(alloc);
    tables.push(reads_and_clears(alloc)?)?;
    tables.push(takes_a_picture(alloc)?)?;
    tables.push(stores_two(rt, alloc)?)?;
    Ok(tables)
}

/// Whether the places of three threads are these.
fn are(at: &Places, if1: usize, if2: usize, bus: usize) -> bool {
    at.get(0) == Some(if1) && at.get(1) == Some(if2) && at.get(2) == Some(bus)
}

/// Whether object 1 has this record.
fn has(memory: &ChipMemory, record: &Record) -> bool {
    match memory.record_of(1) {
        Some(found) => found == *record,
        None => false,
    }
}

/// Whether the threads can end with IF1 at this place and this record of object 1.
fn ends(found: &Found<ChipMemory, ChipAnswer>, if1: usize, record: &Record) -> bool {
    for situation in found.situations.iter() {
        if let Situation::At { memory, places } = situation {
            if are(places, if1, 1, 2) && has(memory, record) {
                return true;
            }
        }
    }
    false
}

/// What IF1, IF2 and the bus can come to.
fn whole(rt: &impl Abort, alloc: Global) -> Found<ChipMemory, ChipAnswer> {
    let Ok(tables) = three(rt, alloc) else {
        panic!(rt; "no memory")
    };
    let program = Program {
        device: &ChipDevice { refuses: false },
        tables: tables.as_slice(),
    };
    let chip = written(rt, alloc, &opened(rt, alloc, Profile::One), 1, receiver());
    let found = every_schedule(&program, alloc, chip, 20, &Untold);
    let Ok(Some(Outcome::Whole { found, .. })) = found else {
        panic!(rt; "not all situations")
    };
    found
}

/// If B comes between the look and the clear, IF1 has read A alone, and NewDat is 0.
#[test]
fn a_frame_can_be_cleared_unread(rt: HostRuntime) {
    let found = whole(&rt, rt.alloc());
    same(&rt, found.situations.len(), 20);
    let lost = Record {
        newdat: false,
        ..overwritten()
    };
    holds(&rt, ends(&found, 4, &lost));
    holds(&rt, ends(&found, 5, &lost));
    holds(&rt, ends(&found, 3, &holding(2)));
    holds(&rt, !ends(&found, 3, &lost));
}
