//! The calls by which a chip takes part in a frame on a bus of several, or powers down in between.
ghost use Rattle.std.specs.Prelude.{◌≡◌, ◌≢◌};
ghost use Rattle.ccan_c.specs.Bus.{held_on};
ghost use Rattle.ccan_c.specs.Codes.{busy, closed, done, spent};
ghost use Rattle.ccan_c.specs.FrameCall as frame_call;
ghost use Rattle.ccan_c.specs.FrameCall.{FrameCallDoes};

use crate::access_code::power_out;
use crate::bus_handle::BusHandle;
use crate::code::{
    BUSY, CLOSED, DONE, EVENT_RANGE, FAULT_RANGE, PLACE_RANGE, WIRE_RANGE, code_of_load,
};
use crate::shown_finished::{ShownFinished, code_of_end};
use crate::shown_member::{ShownMember, flaw_in};
use crate::shown_wire::ShownWire;

/// The start of a frame: an object is chosen and started, if none is loaded and the controller may send.
#[unsafe(no_mangle)]
pub extern "C" fn ccan_begin(bus: &mut BusHandle, out: &mut ShownMember) -> u32
    ensures call { FrameCallDoes (frame_call.begin result out.new)
        (held_on bus.old) (held_on bus.new) }
    ensures refused { result ≡ closed → out.new ≡ out.old }
{
    if !bus.handle.is_open() {
        return CLOSED;
    }
    let begun = bus.handle.seal.as_mut().begin();
    *out = ShownMember::of(&begun.member);
    code_of_load(&begun.loading)
}

/// A look at the controller until the end of the frame, and what the chip is to the bus from there.
#[unsafe(no_mangle)]
pub extern "C" fn ccan_stay(bus: &mut BusHandle, out: &mut ShownMember) -> u32
    ensures call { FrameCallDoes (frame_call.stay result out.new)
        (held_on bus.old) (held_on bus.new) }
    ensures refused { result ≡ closed → out.new ≡ out.old }
{
    if !bus.handle.is_open() {
        return CLOSED;
    }
    let stayed = bus.handle.seal.as_mut().stay();
    *out = ShownMember::of(&stayed.member);
    DONE
}

/// The end of the frame, for the chip at this position on the bus, which finds this error by itself.
#[unsafe(no_mangle)]
pub extern "C" fn ccan_finish(
    bus: &mut BusHandle,
    wire: &ShownWire,
    place: u32,
    fault: u32,
    out: &mut ShownFinished,
) -> u32
    ensures call { FrameCallDoes (frame_call.finish wire.now place fault result out.new)
        (held_on bus.old) (held_on bus.new) }
    ensures refused { (result ≢ done) → (result ≢ busy) → (result ≢ spent) → out.new ≡ out.old }
{
    if !bus.handle.is_open() {
        return CLOSED;
    }
    let Some(wire) = wire.read() else {
        return WIRE_RANGE;
    };
    if place >= 32 {
        return PLACE_RANGE;
    }
    if fault > 5 {
        return FAULT_RANGE;
    }
    let ended = bus
        .handle
        .seal
        .as_mut()
        .finish(&wire, place as usize, flaw_in(fault));
    *out = ShownFinished::of(&ended);
    code_of_end(&ended)
}

/// The event of a frame that was lost at the controller is tried once more.
#[unsafe(no_mangle)]
pub extern "C" fn ccan_retry_event(bus: &mut BusHandle, lost: &ShownFinished) -> u32
    ensures { FrameCallDoes (frame_call.retry lost.now result)
        (held_on bus.old) (held_on bus.new) }
{
    if !bus.handle.is_open() {
        return CLOSED;
    }
    let Some(own) = lost.event() else {
        return EVENT_RANGE;
    };
    match bus.handle.seal.as_mut().retry(own) {
        Ok(_) => DONE,
        Err(_) => BUSY,
    }
}

/// The bus is idle: the controller of a D_CAN powers down if its driver has set PDR and no object requests a transmission. Reports 1
/// if it is in local power down then, as PDA of its Error and Status register shows it, and 0 if it is not. While a frame is under
/// way for the chip, from its start to its end, it reports 0 and makes no step. What a load for a round has loaded is not looked at.
#[unsafe(no_mangle)]
pub extern "C" fn ccan_power_down(bus: &mut BusHandle, out: &mut u32) -> u32
    ensures call { FrameCallDoes (frame_call.power_down result out.new)
        (held_on bus.old) (held_on bus.new) }
    ensures refused { result ≢ done → out.new ≡ out.old }
{
    if !bus.handle.is_open() {
        return CLOSED;
    }
    let told = bus.handle.seal.as_mut().power_down();
    power_out(&told, out)
}
