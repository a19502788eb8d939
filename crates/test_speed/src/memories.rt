//! The calls of one port of a shared memory, alone and beside two others.
ghost use Rattle.std.specs.Prelude.{◌≡◌};
ghost use Rattle.ccan_object.specs.Profile.{Holds};

use crate::rivals::three_writers;
use crate::timing::{median, tenths};
use anyhow::{Result, bail};
use ccan_handler::{flags, flags_at_once, until};
use ccan_object::{CommandMask, Iface, ObjectNo, Profile, Record, Reg};
use ccan_ram::{Access, Change, Flag, On, SharedRam, Tries};
use std::alloc::Global;
use std::rt::Clock;
use std::thread::Threads;
use std::time::Instant;

/// How many steps of a kind are timed together, if they are not changes.
const STEPS: u32 = 100_000;

/// How often that is done.
const RUNS: usize = 21;

/// How many memories are opened for changes, each of which takes as many as its quota.
const MEMORIES: usize = 63;

/// The quota that a memory is opened with: its greatest, or this if it has no end that could be reached.
pub fn quota_of<R: SharedRam>() -> u64 {
    R::MAX_QUOTA.min(4096)
}

/// The interface registers with what is written: a message with eight bytes.
pub fn registers_of_message() -> Iface {
    let mut registers = Iface::new();
    registers.set(Reg::Arb2, 0xa48c);
    registers.set(Reg::Ctrl, 0x0088);
    registers.set(Reg::DataA1, 0x2211);
    registers.set(Reg::DataA2, 0x4433);
    registers.set(Reg::DataB1, 0x6655);
    registers.set(Reg::DataB2, 0x8877);
    registers
}

/// The record that is written.
pub fn message() -> Record {
    registers_of_message().buffer()
}

/// A write of all parts of the message.
pub fn write_all() -> Change {
    Change::Write(CommandMask::of(0x00f3), message())
}

/// Looks at one object. Gives the time of one, in tenths of a nanosecond.
fn time_looks<A: Access>(clock: &impl Clock, access: &mut A) -> Result<u64> {
    let object = ObjectNo::from_request(access.profile(), 1);
    // The records are kept, so that each look has to give one whole.
    let mut shown = [Record::zero(); 16];
    let start = Instant::now(clock)?;
    for step in 0..STEPS {
        shown[(step % 16) as usize] = access.look(object);
    }
    let time = tenths(start.elapsed(clock)?, u64::from(STEPS));
    if shown != [message(); 16] {
        bail!("a look showed another record");
    }
    Ok(time)
}

/// Reads an object into the interface registers.
fn time_reads<A: Access>(clock: &impl Clock, access: &mut A) -> Result<u64> {
    let object = ObjectNo::from_request(access.profile(), 1);
    let mut registers = [Iface::new(); 16];
    let start = Instant::now(clock)?;
    for step in 0..STEPS {
        let registers = &mut registers[(step % 16) as usize];
        registers.set(Reg::CMask, 0x0073);
        let command = registers.command();
        if command.is_pure_read() {
            let shown = access.look(object);
            registers.fill(command, &shown);
        }
    }
    let time = tenths(start.elapsed(clock)?, u64::from(STEPS));
    for read in &registers {
        if read.buffer() != message() {
            bail!("the registers showed another record");
        }
    }
    Ok(time)
}

/// Gives the flag word of all objects, each of which has the flag.
fn time_flags<A: Access>(clock: &impl Clock, access: &mut A) -> Result<u64> {
    let mut sum = 0u64;
    let steps = STEPS / 16;
    let start = Instant::now(clock)?;
    for _ in 0..steps {
        sum = sum.wrapping_add(flags(access, Flag::MsgVal));
    }
    let time = tenths(start.elapsed(clock)?, u64::from(steps));
    if sum != u64::from(steps).wrapping_mul(0xffff_ffff) {
        bail!("the flags were others");
    }
    Ok(time)
}

/// Gives the flag word of all objects at one moment, each of which has the flag.
fn time_moments<A: Access>(clock: &impl Clock, access: &mut A) -> Result<u64> {
    let mut sum = 0u64;
    let steps = STEPS / 16;
    let start = Instant::now(clock)?;
    for _ in 0..steps {
        sum = sum.wrapping_add(flags_at_once(access, Flag::MsgVal));
    }
    let time = tenths(start.elapsed(clock)?, u64::from(steps));
    if sum != u64::from(steps).wrapping_mul(0xffff_ffff) {
        bail!("the flags were others");
    }
    Ok(time)
}

/// Waits for a flag that the object has, so that the first look shows it.
fn time_waits<A: Access>(clock: &impl Clock, access: &mut A) -> Result<u64> {
    let object = ObjectNo::from_request(access.profile(), 1);
    let mut shown = 0u64;
    let start = Instant::now(clock)?;
    for _ in 0..STEPS {
        if until(access, object, Flag::MsgVal, 1) {
            shown = shown.saturating_add(1);
        }
    }
    let time = tenths(start.elapsed(clock)?, u64::from(STEPS));
    if shown != u64::from(STEPS) {
        bail!("a look did not show the flag");
    }
    Ok(time)
}

/// Makes a change as often as the port's quota allows.
fn time_changes<A: Access>(
    clock: &impl Clock,
    access: &mut A,
    change: &Change,
    quota: u64,
) -> Result<u64> {
    let object = ObjectNo::from_request(access.profile(), 1);
    let Some(once) = Tries::new(1) else {
        bail!("one try is allowed")
    };
    let mut made = 0u64;
    let start = Instant::now(clock)?;
    for _ in 0..quota {
        if access.change(object, change, once).is_ok() {
            made = made.saturating_add(1);
        }
    }
    let time = tenths(start.elapsed(clock)?, quota);
    if made != quota {
        bail!("a change was not made");
    }
    Ok(time)
}

/// The time of a change in a memory that was just opened.
fn time_changes_of<R: SharedRam + Drop>(
    clock: &impl Clock,
    alloc: Global,
    change: &Change,
) -> Result<u64> {
    let quota = quota_of::<R>();
    let Ok((ram, if1, _if2, _bus)) = R::open_ram(alloc, Profile::One, quota) else {
        bail!("no memory")
    };
    let mut host = On::new(&ram, if1);
    time_changes(clock, &mut host, change, quota)
}

/// The median over several memories of the time of a change.
fn changes<R: SharedRam + Drop>(clock: &impl Clock, alloc: Global, change: &Change) -> Result<u64> {
    let mut times = [0; MEMORIES];
    for time in &mut times {
        *time = time_changes_of::<R>(clock, alloc, change)?;
    }
    Ok(median(times))
}

/// Writes the message into each of 32 objects.
pub fn fill<A: Access>(access: &mut A) -> Result<()> {
    let Some(once) = Tries::new(1) else {
        bail!("one try is allowed")
    };
    for request in 1..=32u16 {
        let object = ObjectNo::from_request(access.profile(), request);
        if access.change(object, &write_all(), once).is_err() {
            bail!("a change was not made");
        }
    }
    Ok(())
}

/// The times of a look, of a read into the registers, of a wait that one look ends, of a flag word, and of one of one moment.
fn time_each<A: Access>(clock: &impl Clock, access: &mut A) -> Result<[u64; 5]> {
    let look = time_looks(clock, access)?;
    let read = time_reads(clock, access)?;
    let wait = time_waits(clock, access)?;
    let word = time_flags(clock, access)?;
    let moment = time_moments(clock, access)?;
    Ok([look, read, wait, word, moment])
}

/// The medians of these times.
fn medians<A: Access>(clock: &impl Clock, access: &mut A) -> Result<[u64; 5]> {
    let mut looks = [0; RUNS];
    let mut reads = [0; RUNS];
    let mut waits = [0; RUNS];
    let mut words = [0; RUNS];
    let mut moments = [0; RUNS];
    for run in 0..RUNS {
        let [look, read, wait, word, moment] = time_each(clock, access)?;
        looks[run] = look;
        reads[run] = read;
        waits[run] = wait;
        words[run] = word;
        moments[run] = moment;
    }
    Ok([looks, reads, waits, words, moments].map(median))
}

/// The medians of these times, in a memory whose objects all have the message.
fn reads<R: SharedRam + Drop>(clock: &impl Clock, alloc: Global) -> Result<[u64; 5]> {
    let Ok((ram, if1, _if2, _bus)) = R::open_ram(alloc, Profile::One, quota_of::<R>()) else {
        bail!("no memory")
    };
    let mut host = On::new(&ram, if1);
    fill(&mut host)?;
    medians(clock, &mut host)
}

/// A line of the table: tenths of a nanosecond.
fn print_time(rt: &impl Print, what: &str, time: u64) -> Result<()> {
    println!(rt; "{what:<22} {}.{} ns", time / 10, time % 10)?;
    Ok(())
}

/// A line of the table: a write of three ports at once, and how many tries in a thousand were lost.
fn print_writers(rt: &impl Print, what: &str, (time, lost): (u64, u64)) -> Result<()> {
    println!(rt;
        "{what:<22} {}.{} ns, {}.{} % of the tries lost",
        time / 10,
        time % 10,
        lost / 10,
        lost % 10
    )?;
    Ok(())
}

/// Times looks, reads, waits and flag words of a memory, and prints them.
fn measure_reads<R: SharedRam + Drop>(rt: &(impl Clock + Print), alloc: Global) -> Result<()> {
    let [look, read, wait, word, moment] = reads::<R>(rt, alloc)?;
    for (what, time) in [
        ("look", look),
        ("read into registers", read),
        ("wait of one look", wait),
        ("32 looks of a flag", word),
        ("32 flags of a moment", moment),
    ] {
        print_time(rt, what, time)?;
    }
    Ok(())
}

/// Times changes of a memory, and prints them.
fn measure_changes<R: SharedRam + Drop>(rt: &(impl Clock + Print), alloc: Global) -> Result<()> {
    let clear = Change::Clear(CommandMask::of(0x007f));
    for (what, change) in [("full write", write_all()), ("clearing read", clear)] {
        print_time(rt, what, changes::<R>(rt, alloc, &change)?)?;
    }
    Ok(())
}

/// Times the calls of a memory, and prints them in nanoseconds.
pub fn measure_memory<R: SharedRam + Sync + Drop>(
    rt: &(impl Clock + Print + Threads + Sync),
    alloc: Global,
    name: &str,
) -> Result<()> {
    println!(rt; "memory with {name}")?;
    measure_reads::<R>(rt, alloc)?;
    measure_changes::<R>(rt, alloc)?;
    for (what, requests) in [
        ("three writers apart", [1, 2, 3]),
        ("three writers on one", [1, 1, 1]),
    ] {
        print_writers(rt, what, three_writers::<R, _>(rt, alloc, requests)?)?;
    }
    Ok(())
}
