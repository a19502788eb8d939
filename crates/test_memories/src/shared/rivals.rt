//! What a port does in a thread of its own, while others work on the same memory.
ghost use Rattle.std.specs.Prelude.{◌≡◌, slice_index};
ghost use Rattle.ccan_object.specs.Profile.{Holds};
ghost use Rattle.ccan_ram.specs.declared.port.PortName.TheVariants.{If1, If2, Bus};

use ccan_object::{CommandMask, Identifier, ObjectNo, Record};
use ccan_ram::{Change, Changed, Final, Refused, SharedRam, Tries};
use std::thread::{Threads, join};

/// The work of a port, and the changes that it makes.
#[derive(Clone, Copy)]
pub enum Task {
    /// The mask counts up.
    Masks,
    /// The first two data bytes count up.
    Bytes,
    /// Transmissions are finished.
    Finishes,
}

impl Task {
    /// Its change of this number.
    pub fn change(self, number: u16) -> Change {
        let [low, high] = number.to_le_bytes();
        match self {
            Task::Masks => {
                let mask = Identifier::of(u32::from(number));
                Change::Write(
                    CommandMask::of(0x00c0),
                    Record {
                        mask,
                        ..Record::zero()
                    },
                )
            }
            Task::Bytes => {
                let bytes = [low, high, 0, 0, 0, 0, 0, 0];
                Change::Write(
                    CommandMask::of(0x0082),
                    Record {
                        bytes,
                        ..Record::zero()
                    },
                )
            }
            Task::Finishes => Change::Finish,
        }
    }

    /// How far the record shows that it got.
    pub fn count_in(self, object: &Record) -> u32 {
        match self {
            Task::Masks => object.mask.get(),
            Task::Bytes => u32::from(u16::from_le_bytes([object.bytes[0], object.bytes[1]])),
            Task::Finishes => 0,
        }
    }
}

/// What a port saw while it worked.
#[derive(Clone, Copy)]
pub struct Seen {
    /// How many changes it made.
    pub made: u16,
    /// Each change found what the one before had left of the port's own, and counted it up by one.
    pub own_in_turn: bool,
    /// What the others count never fell, and no change of the port's touched it.
    pub others_rise: bool,
    /// How often a change was busy.
    pub busy: u32,
}

/// Makes the change, in as many calls as it takes, up to this many. Gives what it found and left, and how often it was
/// busy.
pub fn insist<R: SharedRam>(
    ram: &R,
    port: &mut R::Port,
    object: ObjectNo,
    change: &Change,
    tries: Tries,
) -> Option<(Record, Record, u32)>
    requires memory { (R.pass port.old).memory ≡ R.memory ram.now }
    requires held { Holds (R.memory ram.now).profile object }
    ensures memory { (R.pass port.new).memory ≡ (R.pass port.old).memory }
    ensures port { (R.pass port.new).port ≡ (R.pass port.old).port }
{
    for busy in 0..100u32 {
        match ram.change(port, object, change, tries) {
            Ok(Changed::Done { before, after, .. }) => return Some((before, after, busy)),
            Err(Refused::Busy { .. }) => {}
            Ok(Changed::NotNow(_)) | Err(Refused::Spent) => return None,
        }
    }
    None
}

/// What one change shows: the port counts up its own, and leaves what the others count.
fn noted(
    seen: Seen,
    task: Task,
    found: &Record,
    left: &Record,
    others: &Record,
    busy: u32,
) -> Seen {
    let number = seen.made.saturating_add(1);
    let own = task == Task::Finishes
        || (task.count_in(found) == u32::from(seen.made)
            && task.count_in(left) == u32::from(number));
    Seen {
        made: number,
        own_in_turn: seen.own_in_turn && own,
        others_rise: seen.others_rise
            && others_rise(task, others, found)
            && others_stay(task, found, left),
        busy: seen.busy.saturating_add(busy),
    }
}

/// Whether what a task counts is no less in the second record.
fn rises(task: Task, first: &Record, second: &Record) -> bool {
    task.count_in(first) <= task.count_in(second)
}

/// Whether what the others count is no less in the second record.
fn others_rise(task: Task, first: &Record, second: &Record) -> bool {
    match task {
        Task::Masks => rises(Task::Bytes, first, second),
        Task::Bytes => rises(Task::Masks, first, second),
        Task::Finishes => { rises(Task::Masks, first, second) && rises(Task::Bytes, first, second) }
    }
}

/// Whether what the others count is the same in both records.
fn others_stay(task: Task, first: &Record, second: &Record) -> bool {
    others_rise(task, first, second) && others_rise(task, second, first)
}

/// Makes so many changes of an object, one after another.
pub fn work<R: SharedRam>(
    ram: &R,
    mut port: R::Port,
    object: ObjectNo,
    task: Task,
    turns: u16,
    tries: Tries,
) -> (Seen, R::Port)
    requires memory { (R.pass port).memory ≡ R.memory ram.now }
    requires held { Holds (R.memory ram.now).profile object }
    ensures memory { (R.pass result.1).memory ≡ (R.pass port).memory }
    ensures port { (R.pass result.1).port ≡ (R.pass port).port }
{
    let mut seen = Seen {
        made: 0,
        own_in_turn: true,
        others_rise: true,
        busy: 0,
    };
    let mut last = Record::zero();
    for turn in 0..turns {
        let change = task.change(turn.saturating_add(1));
        match insist(ram, &mut port, object, &change, tries) {
            Some((found, left, busy)) => {
                seen = noted(seen, task, &found, &left, &last, busy);
                last = left;
            }
            None => return (seen, port),
        }
    }
    (seen, port)
}

/// What three ports are to do, each in a thread of its own.
#[derive(Clone, Copy)]
pub struct Plan {
    /// The object of each port: IF1, IF2 and bus.
    pub objects: [ObjectNo; 3],
    /// The task of each port.
    pub tasks: [Task; 3],
    /// How many changes each port makes.
    pub turns: u16,
    /// In how many tries it makes one.
    pub tries: Tries,
}

/// Three ports at work, each in a thread of its own, and then the end of the memory.
pub fn three_at_work<R: SharedRam + Sync, T: Threads + Sync>(
    rt: &T,
    ram: R,
    if1: R::Port,
    if2: R::Port,
    bus: R::Port,
    plan: Plan,
) -> ([Seen; 3], Final)
    requires if1 { ((R.pass if1).memory ≡ R.memory ram) × ((R.pass if1).port ≡ If1) }
    requires if2 { ((R.pass if2).memory ≡ R.memory ram) × ((R.pass if2).port ≡ If2) }
    requires bus { ((R.pass bus).memory ≡ R.memory ram) × ((R.pass bus).port ≡ Bus) }
    requires first { Holds (R.memory ram).profile (slice_index plan.objects 0) }
    requires second { Holds (R.memory ram).profile (slice_index plan.objects 1) }
    requires third { Holds (R.memory ram).profile (slice_index plan.objects 2) }
{
    let shared = &ram;
    let Plan {
        objects: [a, b, c],
        tasks: [first_task, second_task, third_task],
        turns,
        tries,
    } = plan;
    let (first, (second, third)) = join(
        rt,
        move ||
            requires memory { (R.pass if1).memory ≡ R.memory shared.now }
            requires held { Holds (R.memory shared.now).profile a }
        { work(shared, if1, a, first_task, turns, tries) },
        move ||
            requires memory { ((R.pass if2).memory ≡ R.memory shared.now)
                × ((R.pass bus).memory ≡ R.memory shared.now) }
            requires held { Holds (R.memory shared.now).profile b
                × Holds (R.memory shared.now).profile c }
        {
            join(
                rt,
                move ||
                    requires memory { (R.pass if2).memory ≡ R.memory shared.now }
                    requires held { Holds (R.memory shared.now).profile b }
                { work(shared, if2, b, second_task, turns, tries) },
                move ||
                    requires memory { (R.pass bus).memory ≡ R.memory shared.now }
                    requires held { Holds (R.memory shared.now).profile c }
                { work(shared, bus, c, third_task, turns, tries) },
            )
        },
    );
    let (x, if1) = first;
    let (y, if2) = second;
    let (z, bus) = third;
    ([x, y, z], ram.close(if1, if2, bus))
}
