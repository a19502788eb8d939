ghost use Rattle.std.specs.Prelude.{◌<◌, ◌^◌};
ghost use Rattle.ccan_object.specs.Profile.{Holds, objects_in};
ghost use Rattle.ccan_handler.specs.Watch.{AddsFlags, AddsInterrupt, AddsWatch, InterruptTells};

use crate::objects::nth;
use ccan_object::ObjectNo;
use ccan_ram::handler_registers::with_bit;
use ccan_ram::{Access, Flag};

/// The interrupt value of the status interrupt (User's Manual, section 3.4.1).
pub(crate) const STATUS_INTERRUPT: u16 = 0x8000;

/// Looks at an object until it shows the flag, at most this many times. Answers whether it did.
pub fn until<A: Access>(access: &mut A, object: ObjectNo, flag: Flag, turns: u32) -> bool
    requires held { Holds (A.passes access.old).terms.profile object }
    ensures { AddsWatch (A.passes access.old) (A.passes access.new) object flag turns result }
{
    for turn in 0..turns {
        let shown = access.look(object);
        if flag.of(&shown) {
            return true;
        }
    }
    false
}

/// The interrupt value (User's Manual, section 3.4.1): 0x8000 if the status interrupt is pending, which the bus side
/// knows; else the number of the first object with IntPnd, or 0.
pub fn interrupt<A: Access>(access: &mut A, status_pending: bool) -> u16
    ensures adds { AddsInterrupt (A.passes access.old) (A.passes access.new) status_pending result }
    ensures tells { InterruptTells (A.passes access.old).terms.profile status_pending result }
{
    if status_pending {
        return STATUS_INTERRUPT;
    }
    for number in 1..access.profile().objects() + 1 {
        let shown = access.look(nth(number));
        if shown.intpnd {
            return u16::from(number);
        }
    }
    0
}

/// A flag of all objects, each as its own look shows it: that of object k in bit k - 1 (User's Manual, sections 3.4.2 to
/// 3.4.5, which have it in two registers).
pub fn flags<A: Access>(access: &mut A, flag: Flag) -> u64
    ensures adds { AddsFlags (A.passes access.old) (A.passes access.new) flag result }
    ensures within { result < 2 ^ objects_in (A.passes access.old).terms.profile }
{
    let mut word = 0;
    for place in 0..access.profile().objects() {
        let shown = access.look(nth(place + 1));
        word = with_bit(word, place, flag.of(&shown));
    }
    word
}
