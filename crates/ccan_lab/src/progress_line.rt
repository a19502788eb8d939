//! How far a search is, shown on a terminal.

use ccan_search::Progress;
use std::cell::Cell;

/// So many states are followed between two reports.
const EACH: usize = 10_000;

/// A line of standard error that is rewritten while a search goes on, if that is a terminal. Else nothing is written.
#[derive(Drop)]
pub struct ProgressLine<'a, T> {
    /// What gives standard error.
    rt: &'a T,
    /// Whether that is a terminal.
    is_terminal: bool,
    /// Whether the line is there.
    is_written: Cell<bool>,
}

impl<'a, T: Eprint> ProgressLine<'a, T> {
    /// Nothing is written yet.
    pub fn new(rt: &'a T, is_terminal: bool) -> Self {
        ProgressLine {
            rt,
            is_terminal,
            is_written: Cell::new(false),
        }
    }

    /// Takes the line away again, if it was written.
    pub fn clear(&self) {
        if self.is_written.get() {
            // To the first column, and from there the line is erased (ECMA-48: carriage return, erase in line).
            let _told = self.rt.eprint("\r\u{1b}[K");
            self.is_written.set(false);
        }
    }
}

impl<'a, T: Eprint> Progress for ProgressLine<'a, T> {
    fn tell(&self, kept: usize, followed: usize) {
        if self.is_terminal && followed > 0 && followed % EACH == 0 {
            let _told = eprint!(self.rt;
                "\rccan-lab: {kept} states so far, {followed} of them followed"
            );
            self.is_written.set(true);
        }
    }
}
