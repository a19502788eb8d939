//! How a chip ends.
ghost use Rattle.std.specs.Prelude.{◌≡◌, ◌≢◌, ◌⊎◌, IfSome, true, false};
ghost use Rattle.ccan_endless.specs.ChipEnding.{ChipEnds};
ghost use Rattle.ccan_c.specs.Codes.{closed, done, shared};
ghost use Rattle.ccan_c.specs.Chip.{EndsWith, IsClosed, are_open};
ghost use Rattle.std.specs.Arc.{arc_value};
ghost use Rattle.ccan_c.specs.Held.{pass_of, port_of};
ghost use Rattle.ccan_c.specs.Meeting.{AreThree};

use crate::chip::Chip;
use crate::code::{CLOSED, DONE, SHARED};
use crate::held::Held;
use crate::shown_final::ShownFinal;
use ccan_endless::{EndlessRam, FinalChip, Port};
use std::alloc::Global;
use std::mem::replace;
use std::sync::Arc;

/// The share of the memory that a handle has, and its port.
fn parts_of(held: Held) -> (Arc<EndlessRam, Global>, Port)
    ensures port { result.1 ≡ port_of held }
    ensures memory { (arc_value result.0).words ≡ (pass_of held).memory }
{
    let Held { chip, .. } = held;
    chip.into_parts()
}

/// What a chip holds that its three handles give back. None if somebody else holds the memory.
fn ended(if1: Held, if2: Held, bus: Held) -> Option<FinalChip>
    requires { AreThree if1 if2 bus }
    ensures { IfSome result (ChipEnds (port_of if1) (port_of if2) (port_of bus)) }
{
    let (ram, if1) = parts_of(if1);
    let (second, if2) = parts_of(if2);
    let (third, bus) = parts_of(bus);
    drop(second);
    drop(third);
    match Arc::try_unwrap(ram) {
        Ok(ram) => Some(ram.close_chip(if1, if2, bus)),
        Err(_) => None,
    }
}

/// Ends a chip, and gives its records. A chip that is not open stays as it is.
///
/// Somebody else holds the memory only if C has broken its promises; the chip is closed then too.
#[unsafe(no_mangle)]
pub extern "C" fn ccan_end(alloc: Global, chip: &mut Chip, out: &mut ShownFinal) -> u32
    ensures done { result ≡ done → EndsWith chip.old out.new }
    ensures refused { result ≢ done → out.new ≡ out.old }
    ensures closed { result ≢ closed → IsClosed chip.new }
    ensures kept { result ≡ closed → chip.new ≡ chip.old }
    ensures code { are_open chip.old ≡ false → result ≡ closed }
    ensures other { are_open chip.old ≡ true → (result ≡ done) ⊎ (result ≡ shared) }
{
    if !chip.is_open() {
        return CLOSED;
    }
    let Chip { if1, if2, bus, .. } = replace(chip, Chip::closed(alloc));
    let (Some(if1), Some(if2), Some(bus)) = (
        if1.handle.into_held(),
        if2.handle.into_held(),
        bus.handle.into_held(),
    ) else {
        unreachable!();
    };
    match ended(
        Box::into_inner(if1),
        Box::into_inner(if2),
        Box::into_inner(bus),
    ) {
        Some(last) => {
            *out = ShownFinal::of(&last.memory);
            DONE
        }
        None => SHARED,
    }
}
