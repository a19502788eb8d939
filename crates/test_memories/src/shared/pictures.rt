//! Pictures of all objects, beside a port that sets and clears a flag of two objects in a fixed order.
ghost use Rattle.std.specs.Prelude.{◌≡◌, slice_index};
ghost use Rattle.ccan_object.specs.Profile.{Holds};

use crate::shared::rivals::insist;
use ccan_object::{CommandMask, ObjectNo, Record};
use ccan_ram::{Change, Flag, SharedRam, Tries};
use std::thread::{Threads, join};

/// Two objects, in the order in which a host sets their NewDat.
#[derive(Clone, Copy)]
pub struct Pair {
    /// The object whose flag is set first, and cleared last.
    pub first: ObjectNo,
    /// The object whose flag is set last, and cleared first.
    pub second: ObjectNo,
}

/// A write of Message Control in which NewDat is this, and all else is 0.
fn new_data(newdat: bool) -> Change {
    Change::Write(
        CommandMask::of(0x0090),
        Record {
            newdat,
            ..Record::zero()
        },
    )
}

/// Sets NewDat of the first object, then of the second, and clears it of the second, then of the first: so many times.
pub fn set_and_clear<R: SharedRam>(
    ram: &R,
    mut port: R::Port,
    pair: Pair,
    turns: u32,
    tries: Tries,
) -> R::Port
    requires memory { (R.pass port).memory ≡ R.memory ram.now }
    requires first { Holds (R.memory ram.now).profile pair.first }
    requires second { Holds (R.memory ram.now).profile pair.second }
    ensures memory { (R.pass result).memory ≡ (R.pass port).memory }
{
    for turn in 0..turns {
        let _set = insist(ram, &mut port, pair.first, &new_data(true), tries);
        let _set = insist(ram, &mut port, pair.second, &new_data(true), tries);
        let _cleared = insist(ram, &mut port, pair.second, &new_data(false), tries);
        let _cleared = insist(ram, &mut port, pair.first, &new_data(false), tries);
    }
    port
}

/// 1 if the second flag is set without the first.
pub fn torn_by(first: bool, second: bool) -> u32 {
    if first {
        return 0;
    }
    u32::from(second)
}

/// How many of so many pictures show the second object's NewDat without the first's, which no moment had.
pub fn torn_pictures<R: SharedRam>(ram: &R, mut port: R::Port, pair: Pair, turns: u32) -> u32
    requires memory { (R.pass port).memory ≡ R.memory ram.now }
{
    let mut torn: u32 = 0;
    for turn in 0..turns {
        let shown = ram.look_all(&mut port);
        torn = torn.saturating_add(torn_by(
            shown.shows(Flag::NewDat, pair.first),
            shown.shows(Flag::NewDat, pair.second),
        ));
    }
    torn
}

/// The same, by a look at the first object and then one at the second: each has a place of its own.
pub fn torn_looks<R: SharedRam>(ram: &R, mut port: R::Port, pair: Pair, turns: u32) -> u32
    requires memory { (R.pass port).memory ≡ R.memory ram.now }
    requires first { Holds (R.memory ram.now).profile pair.first }
    requires second { Holds (R.memory ram.now).profile pair.second }
{
    let mut torn: u32 = 0;
    for turn in 0..turns {
        let first = ram.look(&mut port, pair.first);
        let second = ram.look(&mut port, pair.second);
        torn = torn.saturating_add(torn_by(first.newdat, second.newdat));
    }
    torn
}

/// How many pictures, and how many pairs of looks, were torn beside a port that sets and clears.
pub fn torn_beside<R: SharedRam + Sync, T: Threads + Sync>(
    rt: &T,
    ram: &R,
    if1: R::Port,
    if2: R::Port,
    bus: R::Port,
    pair: Pair,
    turns: u32,
    tries: Tries,
) -> (u32, u32)
    requires if1 { (R.pass if1).memory ≡ R.memory ram.now }
    requires if2 { (R.pass if2).memory ≡ R.memory ram.now }
    requires bus { (R.pass bus).memory ≡ R.memory ram.now }
    requires first { Holds (R.memory ram.now).profile pair.first }
    requires second { Holds (R.memory ram.now).profile pair.second }
{
    let (host_pair, picture_pair, look_pair) = (pair, pair, pair);
    let (_host, torn) = join(
        rt,
        move ||
            requires memory { (R.pass if1).memory ≡ R.memory ram.now }
            requires held { Holds (R.memory ram.now).profile host_pair.first
                × Holds (R.memory ram.now).profile host_pair.second }
        { set_and_clear(ram, if1, host_pair, turns, tries) },
        move ||
            requires memory { ((R.pass if2).memory ≡ R.memory ram.now)
                × ((R.pass bus).memory ≡ R.memory ram.now) }
            requires held { Holds (R.memory ram.now).profile look_pair.first
                × Holds (R.memory ram.now).profile look_pair.second }
        {
            join(
                rt,
                move ||
                    requires memory { (R.pass if2).memory ≡ R.memory ram.now }
                { torn_pictures(ram, if2, picture_pair, turns) },
                move ||
                    requires memory { (R.pass bus).memory ≡ R.memory ram.now }
                    requires held { Holds (R.memory ram.now).profile look_pair.first
                        × Holds (R.memory ram.now).profile look_pair.second }
                { torn_looks(ram, bus, look_pair, turns) },
            )
        },
    );
    torn
}
