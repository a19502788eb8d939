use super::*;
use crate::expect::{CONTROL, MESSAGE, change_of};

mod chip_rounds;
mod orders;
mod pictures;
mod stations;
mod threads;

use ccan_endless::EndlessRam;
use ccan_object::{ObjectNo, Profile, Record, Reg};
use ccan_ram::{Change, Changed, SharedRam, Tries};
use ccan_words::{RootRam, WordRam};
use std::alloc::Global;
use std::process::Abort;

/// A write of the message 0x123 with eight bytes, and this Message Control.
fn message(control: u16) -> Change {
    change_of(&MESSAGE, &[(Reg::Ctrl, control)])
}

/// A write of Message Control alone.
fn control(value: u16) -> Change {
    change_of(&CONTROL, &[(Reg::Ctrl, value)])
}

/// The number of a change that was made.
fn number<E>(answer: &Result<Changed, E>) -> Option<u64> {
    match answer {
        Ok(Changed::Done { number, .. }) => Some(*number),
        Ok(Changed::NotNow(_)) | Err(_) => None,
    }
}
