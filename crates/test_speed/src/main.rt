//! Times the memories that three threads share without a lock.
//!
//! With the word `measure` it prints medians of several runs; with the word `open` whether the memories could be opened; without
//! a word nothing. A word such as `look=1000` makes so many calls of that kind: of `look`, `read`, `write`, `flags` or `line`.
#![tactic(auto)]

mod counting;
mod memories;
mod opening;
mod rivals;
mod timing;

use crate::counting::make_calls;
use crate::memories::measure_memory;
use crate::opening::open_memories;
use anyhow::Result;
use ccan_endless::EndlessRam;
use ccan_words::{RootRam, WordRam};
use std::env;

fn main(rt: HostRuntime) -> Result<()> {
    for word in env::args(&rt)? {
        match word.as_str() {
            "measure" => {
                measure_memory::<WordRam>(&rt, rt.alloc(), "a word for each object")?;
                measure_memory::<RootRam>(&rt, rt.alloc(), "one word for all objects")?;
                measure_memory::<EndlessRam>(&rt, rt.alloc(), "no end")?;
            }
            "open" => open_memories(&rt, rt.alloc())?,
            other => {
                if let Some((call, calls)) = other.split_once('=') {
                    make_calls(rt.alloc(), call, calls.parse()?)?;
                }
            }
        }
    }
    Ok(())
}
