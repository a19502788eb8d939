ghost use Rattle.std.specs.Prelude.{◌≡◌, ◌<◌, false};
ghost use Rattle.ccan_object.specs.Bits.{flag};
ghost use Rattle.ccan_bus.specs.Lead.{packed, next_lead};

use ccan_accept::Frame;

fn flag(bit: bool) -> u32
    ensures value { result ≡ flag bit }
    ensures within { result < 2 }
{
    if bit { 1 } else { 0 }
}

/// The bits of arbitration as one number of 32 bits, the first the highest; a standard frame has zeros below.
pub(crate) fn packed(frame: &Frame) -> u32
    ensures { result ≡ packed frame.now }
{
    let id = frame.id();
    let rtr = flag(frame.rtr());
    if frame.xtd() {
        (id >> 18) * (1 << 21) + ((3 << 19) + (id % (1 << 18) * 2 + rtr))
    } else {
        id * (1 << 21) + rtr * (1 << 20)
    }
}

/// Which frame precedes those so far, and whether another one equals it.
#[derive(Clone, Copy, PartialEq, Eq, Debug)]
pub(crate) struct Lead {
    pub place: usize,
    pub number: u32,
    pub tied: bool,
}

impl Lead {
    /// The first frame.
    pub(crate) fn of(frame: &Frame) -> Lead
        ensures { result ≡ record { place = 0; number = packed frame.now; tied = false } }
    {
        Lead {
            place: 0,
            number: packed(frame),
            tied: false,
        }
    }

    /// One more frame.
    pub(crate) fn next(self, place: usize, number: u32) -> Lead
        ensures { result ≡ next_lead self place number }
    {
        if number < self.number {
            Lead {
                place,
                number,
                tied: false,
            }
        } else {
            Lead {
                tied: self.tied || number == self.number,
                ..self
            }
        }
    }
}
