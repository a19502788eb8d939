//! Pictures of all objects at one place of the history.
ghost use Rattle.std.specs.Prelude.{◌≡◌};

use super::*;
use crate::expect::{same, tries};
use crate::shared::pictures::{Pair, torn_beside, torn_by};
use std::thread::Threads;

/// Two objects, as far apart as the smaller profile has them.
fn ends() -> Pair
    ensures first { result.first ≡ 1 }
    ensures second { result.second ≡ 32 }
{
    Pair {
        first: ObjectNo::from_request(Profile::One, 1),
        second: ObjectNo::from_request(Profile::One, 32),
    }
}

/// How many pictures and pairs of looks of a new memory were torn, beside a host that sets and clears.
fn torn_of<R: SharedRam + Sync + Drop, T: Abort + Threads + Sync>(
    rt: &T,
    alloc: Global,
    quota: u64,
    turns: u32,
) -> (u32, u32) {
    let Ok((ram, if1, if2, bus)) = R::open_ram(alloc, Profile::One, quota) else {
        panic!(rt; "no memory")
    };
    torn_beside(rt, &ram, if1, if2, bus, ends(), turns, tries(1000))
}

// In threads the schedule says how many pairs of looks are torn, so nothing is asked of them.
#[test]
fn no_picture_is_torn(rt: HostRuntime) {
    // what is counted
    same(&rt, (torn_by(false, true), torn_by(true, true)), (1, 0));
    for _ in 0..20u8 {
        let (pictures, _looks) = torn_of::<WordRam, HostRuntime>(&rt, rt.alloc(), 4096, 1024);
        same(&rt, pictures, 0);
    }
    let (pictures, _looks) = torn_of::<EndlessRam, HostRuntime>(
        &rt,
        rt.alloc(),
        2_000_000,
        200_000,
    );
    same(&rt, pictures, 0);
    let (pictures, _looks) = torn_of::<RootRam, HostRuntime>(&rt, rt.alloc(), 64, 16);
    same(&rt, pictures, 0);
}
