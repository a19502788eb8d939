//! The shift register of the CRC sequence.

ghost use Rattle.std.specs.Prelude.{◌≡◌, ◌<◌, ◌^◌};
ghost use Rattle.ccan_time.specs.Transmitter.{register_with};

/// How many bits the CRC sequence has.
pub const CRC_BITS: u32 = 15;

/// The generator polynomial x^15 + x^14 + x^10 + x^8 + x^7 + x^4 + x^3 + 1, without its first term.
const GENERATOR: u16 = 0x4599;

/// The register after one more bit.
pub(crate) fn register_with(register: u16, bit: bool) -> u16
    requires { register < 2 ^ 15 }
    ensures value { result ≡ register_with register bit }
    ensures in_range { result < 2 ^ 15 }
{
    let leaving = (register >> 14) % 2 == 1;
    let shifted = (register * 2) % (1 << 15);
    if bit != leaving {
        shifted ^ GENERATOR
    } else {
        shifted
    }
}
