//! Three ports that write at once, each in a thread of its own.
ghost use Rattle.std.specs.Prelude.{◌≡◌};

use crate::memories::{quota_of, write_all};
use crate::timing::{median, tenths};
use anyhow::{Result, bail};
use ccan_object::{ObjectNo, Profile};
use ccan_ram::{Access, On, Refused, SharedRam, Tries};
use std::alloc::Global;
use std::rt::Clock;
use std::sync::atomic::{AtomicU64, Ordering};
use std::thread::{Threads, join};
use std::time::Instant;

/// How many memories the three ports write into, one after another.
const MEMORIES: usize = 63;

/// How often a thread looks to see whether the others are there, before it begins without them.
const TURNS: u32 = 1_000_000;

/// The work of a port.
#[derive(Clone, Copy)]
struct Work {
    /// The time of a write, in tenths of a nanosecond.
    time: u64,
    /// How many tries were lost.
    lost: u64,
}

/// Waits until three threads are there, for a while.
fn meet_others(arrived: &AtomicU64) {
    let _before = arrived.fetch_add(1, Ordering::SeqCst);
    for _ in 0..TURNS {
        if arrived.load(Ordering::SeqCst) >= 3 {
            return;
        }
    }
}

/// Writes an object as often as the port's quota allows, each time in as many tries as it takes.
fn write_in_turn<A: Access>(
    clock: &impl Clock,
    arrived: &AtomicU64,
    access: &mut A,
    request: u16,
    quota: u64,
) -> Option<Work> {
    let object = ObjectNo::from_request(access.profile(), request);
    let once = Tries::new(1)?;
    let change = write_all();
    let mut lost = 0u64;
    meet_others(arrived);
    let start = Instant::now(clock).ok()?;
    for _ in 0..u64::MAX {
        match access.change(object, &change, once) {
            Ok(_) => {}
            Err(Refused::Busy { .. }) => lost = lost.saturating_add(1),
            Err(Refused::Spent) => break,
        }
    }
    let time = tenths(start.elapsed(clock).ok()?, quota);
    Some(Work { time, lost })
}

/// Three ports write into one memory, at the objects of these requests.
fn write_at_once<R: SharedRam + Sync + Drop, T: Threads + Clock + Sync>(
    rt: &T,
    alloc: Global,
    requests: [u16; 3],
) -> Option<[Work; 3]> {
    let quota = quota_of::<R>();
    let (ram, if1, if2, bus) = R::open_ram(alloc, Profile::One, quota).ok()?;
    let arrived = AtomicU64::new(0);
    let [first, second, third] = requests;
    let mut one = On::new(&ram, if1);
    let mut two = On::new(&ram, if2);
    let mut three = On::new(&ram, bus);
    let arrivals = &arrived;
    let (x, (y, z)) = join(
        rt,
        || write_in_turn(rt, arrivals, &mut one, first, quota),
        || {
            join(
                rt,
                || write_in_turn(rt, arrivals, &mut two, second, quota),
                || write_in_turn(rt, arrivals, &mut three, third, quota),
            )
        },
    );
    Some([x?, y?, z?])
}

/// The median over several memories of the time of a write, in tenths of a nanosecond, while three ports write at the
/// objects of these requests; and how many tries in a thousand were lost.
pub fn three_writers<R: SharedRam + Sync + Drop, T: Threads + Clock + Sync>(
    rt: &T,
    alloc: Global,
    requests: [u16; 3],
) -> Result<(u64, u64)> {
    let mut times = [0; 3 * MEMORIES];
    let mut lost = 0u64;
    for run in 0..MEMORIES {
        let Some(works) = write_at_once::<R, T>(rt, alloc, requests) else {
            bail!("no memory or no clock")
        };
        for port in 0..3 {
            times[3 * run + port] = works[port].time;
            lost = lost.saturating_add(works[port].lost);
        }
    }
    let made = quota_of::<R>().saturating_mul(3 * MEMORIES as u64);
    let share = lost.saturating_mul(1000) / lost.saturating_add(made).max(1);
    Ok((median(times), share))
}
