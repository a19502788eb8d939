//! All schedules of two threads that share a word, worked by hand. A situation is written as the word and the two places.
//!
//! Two threads that count read the word (place 0) and write one more (place 1 after a 0, place 2 after a 1), and have ended then
//! (place 3). Thread 0 comes first in each step of the search: from 0/0,0 to 0/1,0 and 0/0,1; then to 1/3,0, 0/1,1 and 1/0,3;
//! then to 1/3,2, 1/3,1, 1/1,3 and 1/2,3; and then to 2/3,3 and 1/3,3. These are twelve, and in the last an update is lost.
//!
//! Two threads with a lock take it (place 0), give it back (place 1) and have ended then (place 2): 0/0,0, 1/1,0, 1/0,1, 0/2,0,
//! 0/0,2, 1/2,1, 1/1,2 and 0/2,2. They are never both at place 1.
//!
//! A thread clears the word (place 0), reads it until it is 1 (place 1), and has ended then (place 2); another one writes 1 (place
//! 0), and has ended then (place 1). From 0/0,0 these go to 0/1,0 and 1/0,1; from there to 1/1,1 and 0/1,1, and from 1/1,1 to
//! 1/2,1. If the 1 is written before the word is cleared, the first thread reads 0 for ever: from 1/0,1 no end can come, and 0/1,1
//! is stuck.
//!
//! A thread that reads the word by turns at two places until it is 1 is stuck at both. One that writes 1 and 0 by turns is not
//! stuck, but never ends. If one of two threads takes the lock and ends, the other one waits for ever.
//!
//! Nine threads that read the word once come to 2 to the 9th, or 512, situations: each thread has read it or has not. A thread may
//! go to a place whose number needs more than sixteen bits.
use crate::expect::{holds, same};
use crate::shared_word::{SharedWord, WordAct};
use ccan_every::{
    Entry, Fate, Found, Goes, Lack, Outcome, Places, Program, Situation, Table, every_schedule,
    laws, way_to,
};
use ccan_search::Untold;
use std::alloc::{AllocError, Global};
use std::process::Abort;

/// A place where a thread does this, and goes on from this answer.
fn does(
    alloc: Global,
    operation: WordAct,
    goes: &[(u64, usize)],
) -> Result<Entry<WordAct, u64>, AllocError> {
    let mut all = Vec::new(alloc);
    for (answer, to) in goes {
        all.push(Goes {
            answer: *answer,
            to: *to,
        })?;
    }
    Ok(Entry::Acts {
        operation,
        goes: all,
    })
}

/// A thread that counts, which goes on in this way from what it read.
fn counts(alloc: Global, goes: &[(u64, usize)]) -> Result<Table<WordAct, u64>, AllocError> {
    let mut entries = Vec::new(alloc);
    entries.push(does(alloc, WordAct::Reads, goes)?)?;
    entries.push(does(alloc, WordAct::Writes(1), &[(1, 3)])?)?;
    entries.push(does(alloc, WordAct::Writes(2), &[(2, 3)])?)?;
    entries.push(Entry::Ended)?;
    Ok(Table { entries })
}

/// Two threads that count, the second of which goes on in this way from what it read.
fn counters(alloc: Global, goes: &[(u64, usize)]) -> Result<Vec<Table<WordAct, u64>>, AllocError> {
    let mut tables = Vec::new(alloc);
    tables.push(counts(alloc, &[(0, 1), (1, 2)])?)?;
    tables.push(counts(alloc, goes)?)?;
    Ok(tables)
}

/// A thread that takes the lock and gives it back.
fn locks(alloc: Global) -> Result<Table<WordAct, u64>, AllocError> {
    let mut entries = Vec::new(alloc);
    entries.push(does(alloc, WordAct::Takes, &[(1, 1)])?)?;
    entries.push(does(alloc, WordAct::Writes(0), &[(0, 2)])?)?;
    entries.push(Entry::Ended)?;
    Ok(Table { entries })
}

/// Two threads with a lock.
fn lockers(alloc: Global) -> Result<Vec<Table<WordAct, u64>>, AllocError> {
    let mut tables = Vec::new(alloc);
    tables.push(locks(alloc)?)?;
    tables.push(locks(alloc)?)?;
    Ok(tables)
}

/// Whether the places are these.
fn are(at: &Places, places: &[usize]) -> bool {
    for thread in 0..places.len() {
        if at.get(thread) != Some(places[thread]) {
            return false;
        }
    }
    at.len() == places.len()
}

/// Whether two threads can come to this, and their places are these.
fn comes(found: &Found<u64, u64>, word: u64, places: &[usize]) -> bool {
    for situation in found.situations.iter() {
        if let Situation::At { memory, places: at } = situation {
            if *memory == word && are(at, places) {
                return true;
            }
        }
    }
    false
}

/// What threads with these tables can come to, at most twelve situations, and what can still come of that, if none of them lacks a
/// place.
fn whole(
    rt: &impl Abort,
    alloc: Global,
    tables: &[Table<WordAct, u64>],
) -> (Found<u64, u64>, Vec<Fate>) {
    whole_of(rt, alloc, tables, 12)
}

/// The same, of at most so many situations.
fn whole_of(
    rt: &impl Abort,
    alloc: Global,
    tables: &[Table<WordAct, u64>],
    most: usize,
) -> (Found<u64, u64>, Vec<Fate>) {
    let program = Program {
        device: &SharedWord,
        tables,
    };
    let found = every_schedule(&program, alloc, 0, most, &Untold);
    let Ok(Some(Outcome::Whole { found, fates })) = found else {
        panic!(rt; "not all situations")
    };
    (found, fates)
}

/// The laws do nothing: they are called so that each is seen to hold of a device.
#[test]
fn laws_of_tables_hold(rt: HostRuntime) {
    let Ok(tables) = counters(rt.alloc(), &[(0, 1), (1, 2)]) else {
        panic!(&rt; "no memory")
    };
    let program = Program {
        device: &SharedWord,
        tables: tables.as_slice(),
    };
    laws::movers_are_told(&program);
    laws::rounds_may_be_left_out(&program);
    laws::stuck_stays(&program);
}

#[test]
fn an_update_can_be_lost(rt: HostRuntime) {
    let Ok(tables) = counters(rt.alloc(), &[(0, 1), (1, 2)]) else {
        panic!(&rt; "no memory")
    };
    let (found, _) = whole(&rt, rt.alloc(), tables.as_slice());
    same(&rt, found.situations.len(), 12);
    holds(&rt, comes(&found, 2, &[3, 3]));
    holds(&rt, comes(&found, 1, &[3, 3]));
    let program = Program {
        device: &SharedWord,
        tables: tables.as_slice(),
    };
    holds(
        &rt,
        matches!(
            every_schedule(&program, rt.alloc(), 0, 11, &Untold),
            Ok(None)
        ),
    );
}

/// Who moves on the way to the situation of this index.
fn moves_to(
    rt: &impl Abort,
    alloc: Global,
    program: &Program<SharedWord>,
    index: usize,
) -> Vec<Option<usize>> {
    let found = every_schedule(program, alloc, 0, 12, &Untold);
    let Ok(Some(Outcome::Whole { found, .. })) = found else {
        panic!(rt; "not all situations")
    };
    if found.situations.len() <= index {
        panic!(rt; "too few situations")
    }
    let Ok(way) = way_to(program, alloc, &found, index) else {
        panic!(rt; "no memory")
    };
    way
}

/// Who moves on the way to what is found as the last for two threads that count.
fn last_way(rt: &impl Abort, alloc: Global) -> Vec<Option<usize>> {
    let Ok(tables) = counters(alloc, &[(0, 1), (1, 2)]) else {
        panic!(rt; "no memory")
    };
    let program = Program {
        device: &SharedWord,
        tables: tables.as_slice(),
    };
    moves_to(rt, alloc, &program, 11)
}

/// Both read before one of them writes.
#[test]
fn the_way_to_a_lost_update_is_told(rt: HostRuntime) {
    let way = last_way(&rt, rt.alloc());
    same(&rt, way.as_slice(), &[Some(0), Some(1), Some(0), Some(1)]);
}

#[test]
fn a_lock_is_taken_by_one(rt: HostRuntime) {
    let Ok(tables) = lockers(rt.alloc()) else {
        panic!(&rt; "no memory")
    };
    let (found, _) = whole(&rt, rt.alloc(), tables.as_slice());
    same(&rt, found.situations.len(), 8);
    holds(&rt, comes(&found, 0, &[2, 2]));
    holds(&rt, !comes(&found, 1, &[1, 1]));
}

/// Holds what is missing for two threads that count to what the second lacks when it reads 1 after the first has ended.
fn lacks(rt: &impl Abort, alloc: Global, goes: &[(u64, usize)]) {
    let Ok(tables) = counters(alloc, goes) else {
        panic!(rt; "no memory")
    };
    let program = Program {
        device: &SharedWord,
        tables: tables.as_slice(),
    };
    let found = every_schedule(&program, alloc, 0, 12, &Untold);
    let Ok(Some(Outcome::Missing { lack, way })) = found else {
        panic!(rt; "nothing missing")
    };
    same(rt, (lack.thread, lack.place, lack.answer), (1, 0, 1));
    same(rt, way.as_slice(), &[Some(0), Some(0), Some(1)]);
}

/// An answer is not in the entry, or the place that the entry has for it is past the end of the table.
#[test]
fn what_a_table_lacks_is_answered(rt: HostRuntime) {
    lacks(&rt, rt.alloc(), &[(0, 1)]);
    lacks(&rt, rt.alloc(), &[(0, 1), (1, 4)]);
}

/// A thread that clears the word and waits for a 1, and one that writes it.
fn waiters(alloc: Global) -> Result<Vec<Table<WordAct, u64>>, AllocError> {
    let mut waits = Vec::new(alloc);
    waits.push(does(alloc, WordAct::Writes(0), &[(0, 1)])?)?;
    waits.push(does(alloc, WordAct::Reads, &[(0, 1), (1, 2)])?)?;
    waits.push(Entry::Ended)?;
    let mut wakes = Vec::new(alloc);
    wakes.push(does(alloc, WordAct::Writes(1), &[(1, 1)])?)?;
    wakes.push(Entry::Ended)?;
    let mut tables = Vec::new(alloc);
    tables.push(Table { entries: waits })?;
    tables.push(Table { entries: wakes })?;
    Ok(tables)
}

#[test]
fn a_wake_up_can_be_lost(rt: HostRuntime) {
    let Ok(tables) = waiters(rt.alloc()) else {
        panic!(&rt; "no memory")
    };
    let (found, fates) = whole(&rt, rt.alloc(), tables.as_slice());
    same(&rt, found.situations.len(), 6);
    holds(&rt, comes(&found, 0, &[1, 1]));
    let want = [
        Fate::GoesOn,
        Fate::GoesOn,
        Fate::Endless,
        Fate::GoesOn,
        Fate::Stuck,
        Fate::Ended,
    ];
    same(&rt, fates.as_slice(), &want);
    let program = Program {
        device: &SharedWord,
        tables: tables.as_slice(),
    };
    let way = moves_to(&rt, rt.alloc(), &program, 4);
    same(&rt, way.as_slice(), &[Some(1), Some(0)]);
}

/// A thread that goes by turns between two places, where it does these.
fn by_turns(
    alloc: Global,
    first: Entry<WordAct, u64>,
    second: Entry<WordAct, u64>,
) -> Result<Vec<Table<WordAct, u64>>, AllocError> {
    let mut entries = Vec::new(alloc);
    entries.push(first)?;
    entries.push(second)?;
    entries.push(Entry::Ended)?;
    let mut tables = Vec::new(alloc);
    tables.push(Table { entries })?;
    Ok(tables)
}

/// A thread that reads the word by turns at two places.
fn reads_by_turns(alloc: Global) -> Result<Vec<Table<WordAct, u64>>, AllocError> {
    let first = does(alloc, WordAct::Reads, &[(0, 1), (1, 2)])?;
    let second = does(alloc, WordAct::Reads, &[(0, 0), (1, 2)])?;
    by_turns(alloc, first, second)
}

/// A thread that writes the word by turns at two places.
fn writes_by_turns(alloc: Global) -> Result<Vec<Table<WordAct, u64>>, AllocError> {
    let first = does(alloc, WordAct::Writes(1), &[(1, 1)])?;
    let second = does(alloc, WordAct::Writes(0), &[(0, 0)])?;
    by_turns(alloc, first, second)
}

#[test]
fn a_poll_of_two_places_is_stuck(rt: HostRuntime) {
    let Ok(tables) = reads_by_turns(rt.alloc()) else {
        panic!(&rt; "no memory")
    };
    let (_, fates) = whole(&rt, rt.alloc(), tables.as_slice());
    same(&rt, fates.as_slice(), &[Fate::Stuck, Fate::Stuck]);
}

#[test]
fn who_writes_for_ever_is_not_stuck(rt: HostRuntime) {
    let Ok(tables) = writes_by_turns(rt.alloc()) else {
        panic!(&rt; "no memory")
    };
    let (_, fates) = whole(&rt, rt.alloc(), tables.as_slice());
    same(&rt, fates.as_slice(), &[Fate::Endless, Fate::Endless]);
}

/// Two threads of which each takes the lock, and has ended then.
fn takers(alloc: Global) -> Result<Vec<Table<WordAct, u64>>, AllocError> {
    let mut tables = Vec::new(alloc);
    for _ in 0..2 {
        let mut entries = Vec::new(alloc);
        entries.push(does(alloc, WordAct::Takes, &[(1, 1)])?)?;
        entries.push(Entry::Ended)?;
        tables.push(Table { entries })?;
    }
    Ok(tables)
}

#[test]
fn a_lock_that_is_kept_is_waited_for_ever(rt: HostRuntime) {
    let Ok(tables) = takers(rt.alloc()) else {
        panic!(&rt; "no memory")
    };
    let (_, fates) = whole(&rt, rt.alloc(), tables.as_slice());
    same(
        &rt,
        fates.as_slice(),
        &[Fate::Endless, Fate::Stuck, Fate::Stuck],
    );
}

/// Nine threads of which each reads the word, and has ended then.
fn readers(alloc: Global) -> Result<Vec<Table<WordAct, u64>>, AllocError> {
    let mut tables = Vec::new(alloc);
    for _ in 0..9 {
        let mut entries = Vec::new(alloc);
        entries.push(does(alloc, WordAct::Reads, &[(0, 1)])?)?;
        entries.push(Entry::Ended)?;
        tables.push(Table { entries })?;
    }
    Ok(tables)
}

#[test]
fn many_threads_are_searched(rt: HostRuntime) {
    let Ok(tables) = readers(rt.alloc()) else {
        panic!(&rt; "no memory")
    };
    let (found, _) = whole_of(&rt, rt.alloc(), tables.as_slice(), 512);
    same(&rt, found.situations.len(), 512);
    holds(&rt, comes(&found, 0, &[1, 1, 1, 1, 1, 1, 1, 1, 1]));
}

/// A thread that reads the word and goes to this place, and has ended there.
fn goes_far(alloc: Global, far: usize) -> Result<Vec<Table<WordAct, u64>>, AllocError> {
    let mut entries = Vec::new(alloc);
    entries.push(does(alloc, WordAct::Reads, &[(0, far)])?)?;
    for _ in 0..far {
        entries.push(Entry::Ended)?;
    }
    let mut tables = Vec::new(alloc);
    tables.push(Table { entries })?;
    Ok(tables)
}

#[test]
fn a_far_place_is_gone_to(rt: HostRuntime) {
    let Ok(tables) = goes_far(rt.alloc(), 65536) else {
        panic!(&rt; "no memory")
    };
    let (found, _) = whole(&rt, rt.alloc(), tables.as_slice());
    same(&rt, found.situations.len(), 2);
    holds(&rt, comes(&found, 0, &[65536]));
}
