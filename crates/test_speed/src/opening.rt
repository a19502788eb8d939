//! Opens each of the memories that threads share, and prints whether that could be done. `make sweep` runs it with each
//! request for memory refused in turn.

use ccan_endless::EndlessRam;
use ccan_object::Profile;
use ccan_ram::{OpenError, SharedRam};
use ccan_words::{RootRam, WordRam};
use std::alloc::Global;
use std::io;

/// Opens a memory of the larger profile with its greatest quota, and closes it again.
fn open<R: SharedRam>(alloc: Global) -> Result<(), OpenError> {
    let (ram, if1, if2, bus) = R::open_ram(alloc, Profile::Two, R::MAX_QUOTA)?;
    let _records = ram.close(if1, if2, bus);
    Ok(())
}

/// Prints what came of opening a memory.
fn tell(rt: &impl Print, name: &str, opened: Result<(), OpenError>) -> io::Result<()> {
    match opened {
        Ok(()) => println!(rt; "{name}: opened"),
        Err(why) => println!(rt; "{name}: {why}"),
    }
}

/// Opens all three memories, and prints what came of it.
pub fn open_memories(rt: &impl Print, alloc: Global) -> io::Result<()> {
    tell(rt, "a word for each object", open::<WordRam>(alloc))?;
    tell(rt, "one word for all objects", open::<RootRam>(alloc))?;
    tell(rt, "a memory without an end", open::<EndlessRam>(alloc))
}
