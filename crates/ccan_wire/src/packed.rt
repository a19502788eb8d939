ghost use Rattle.std.specs.Prelude.{◌≡◌, ◌<◌};
ghost use Rattle.ccan_object.specs.Bits.{flag};
ghost use Rattle.ccan_wire.specs.Arbitration.{rest_of};
ghost use Rattle.ccan_wire.specs.Packed.{packed};

use ccan_accept::Frame;

fn flag(bit: bool) -> u32
    ensures value { result ≡ flag bit }
    ensures within { result < 2 }
{
    if bit { 1 } else { 0 }
}

/// The bits of arbitration as one number of 32 bits, the first the highest; a standard frame has zeros below.
pub(crate) fn packed(frame: &Frame) -> u32
    ensures { result ≡ packed frame.now }
{
    let id = frame.id();
    let rtr = flag(frame.rtr());
    if frame.xtd() {
        (id >> 18) * (1 << 21) + ((3 << 19) + (id % (1 << 18) * 2 + rtr))
    } else {
        id * (1 << 21) + rtr * (1 << 20)
    }
}

/// The control field and the data field as one number of 68 bits, the first the highest.
pub(crate) fn rest(frame: &Frame) -> u128
    ensures { result ≡ rest_of frame.now }
{
    u128::from(frame.dlc().get()) * (1 << 64) + u128::from(u64::from_be_bytes(frame.bytes()))
}
