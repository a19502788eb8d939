//! How long frames and bits are.
ghost use Rattle.std.specs.Prelude.{◌≡◌, ◌≢◌};
ghost use Rattle.ccan_confine.specs.BitTiming.{timing_of};
ghost use Rattle.ccan_time.specs.BitTime as named;
ghost use Rattle.ccan_c.specs.Codes.{done};
ghost use Rattle.ccan_c.specs.Lengths.{HasBits};

use crate::code::{DONE, FRAME_RANGE};
use crate::shown_frame::ShownFrame;
use ccan_confine::BitTiming;
use ccan_time::{bit_time, frame_bits};

/// How many bits a frame has on the bus, from its start to the end of its end of frame, with the stuff bits.
#[unsafe(no_mangle)]
pub extern "C" fn ccan_frame_bits(frame: &ShownFrame, out: &mut u32) -> u32
    ensures bits { HasBits frame.now result out.new }
    ensures refused { result ≢ done → out.new ≡ out.old }
{
    match frame.read() {
        Some(frame) => {
            *out = frame_bits(&frame);
            DONE
        }
        None => FRAME_RANGE,
    }
}

/// The nominal bit time of these words of the Bit Timing and the BRP Extension registers, in clock periods of the part.
#[unsafe(no_mangle)]
pub extern "C" fn ccan_bit_time(bit_timing: u16, extension: u16) -> u32
    ensures { result ≡ named.bit_time (timing_of bit_timing extension) }
{
    bit_time(BitTiming::new(bit_timing, extension))
}
