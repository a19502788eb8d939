//! Readers and writers that fail once, and work before and afterwards.
ghost use Rattle.std.specs.Prelude.{◌≡◌, IfOk};

use arrayvec::ArrayVec;
use std::io;
use std::io::{ErrorKind, Read, Write};

/// What goes wrong once.
#[derive(Clone, Copy)]
pub enum Fault {
    /// No byte is given or taken, and no error is reported.
    Nothing,
    /// An error is reported.
    Fails(ErrorKind),
}

pub const FAULTS: [Fault; 5] = [
    Fault::Nothing,
    Fault::Fails(ErrorKind::Interrupted),
    Fault::Fails(ErrorKind::WouldBlock),
    Fault::Fails(ErrorKind::OutOfMemory),
    Fault::Fails(ErrorKind::Other),
];

impl Fault {
    /// How a read or a write answers.
    fn answer(self) -> io::Result<usize>
        ensures { IfOk result (λ count. count ≡ 0) }
    {
        match self {
            Fault::Nothing => Ok(0),
            Fault::Fails(kind) => Err(io::Error::from(kind)),
        }
    }
}

/// A reader that gives its bytes, at most so many a call. After so many calls a fault comes, once; all other calls work.
#[derive(Drop)]
pub struct Pieces<'a> {
    pub rest: &'a [u8],
    pub step: usize,
    pub calls: usize,
    pub fault: Option<Fault>,
}

impl Read for Pieces<'_> {
    fn read(&mut self, buf: &mut [u8]) -> io::Result<usize> {
        if self.calls == 0 {
            if let Some(fault) = self.fault.take() {
                return fault.answer();
            }
        } else {
            self.calls -= 1;
        }
        let count = self.rest.len().min(buf.len()).min(self.step);
        let (front, rest) = self.rest.split_at(count);
        buf[..count].copy_from_slice(front);
        self.rest = rest;
        Ok(count)
    }
}

/// A reader that gives so many spaces.
#[derive(Drop)]
pub struct Spaces {
    pub left: usize,
}

impl Read for Spaces {
    fn read(&mut self, buf: &mut [u8]) -> io::Result<usize> {
        let count = self.left.min(buf.len());
        for byte in buf.iter_mut() {
            *byte = b' ';
        }
        self.left -= count;
        Ok(count)
    }
}

/// A reader that gives spaces, and then what another one gives.
#[derive(Drop)]
pub struct Late<'a> {
    pub spaces: Spaces,
    pub then: Pieces<'a>,
}

impl Read for Late<'_> {
    fn read(&mut self, buf: &mut [u8]) -> io::Result<usize> {
        if self.spaces.left > 0 {
            self.spaces.read(buf)
        } else {
            self.then.read(buf)
        }
    }
}

/// A writer that allocates nothing. It takes so many bytes a call. After so many bytes a fault comes, once; all other calls
/// work.
#[derive(Drop)]
pub struct Sheet {
    pub taken: ArrayVec<u8, 4096>,
    pub step: usize,
    pub room: usize,
    pub fault: Option<Fault>,
}

impl Write for Sheet {
    fn write(&mut self, buf: &[u8]) -> io::Result<usize> {
        let mut count = buf.len().min(self.step);
        if let Some(fault) = self.fault {
            if self.room == 0 {
                self.fault = None;
                return fault.answer();
            }
            count = count.min(self.room);
            self.room -= count;
        }
        if self.taken.try_extend_from_slice(&buf[..count]).is_err() {
            return Err(io::Error::from(ErrorKind::StorageFull));
        }
        Ok(count)
    }

    fn flush(&mut self) -> io::Result<()> {
        Ok(())
    }
}

/// A sheet that takes so many bytes a call, and meets a fault after so many bytes.
pub fn failing_sheet(step: usize, room: usize, fault: Option<Fault>) -> Sheet {
    Sheet {
        taken: ArrayVec::new(),
        step,
        room,
        fault,
    }
}

/// A sheet on which every write works.
pub fn new_sheet(step: usize) -> Sheet {
    failing_sheet(step, 0, None)
}

/// A writer that counts its calls, and takes all that it is given.
#[derive(Drop)]
pub struct Counting {
    pub calls: usize,
}

impl Write for Counting {
    fn write(&mut self, buf: &[u8]) -> io::Result<usize> {
        self.calls = self.calls.saturating_add(1);
        Ok(buf.len())
    }

    fn flush(&mut self) -> io::Result<()> {
        Ok(())
    }
}
