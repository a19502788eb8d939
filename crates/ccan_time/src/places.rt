//! Numbers by the places of their bits.

ghost use Rattle.std.specs.Prelude.{◌≡◌, ◌<◌};
ghost use Rattle.ccan_object.specs.Bits.{bit};

/// Whether the bit of a number at a place is 1.
pub(crate) fn bit(number: u64, place: u32) -> bool
    requires { place < 64 }
    ensures { result ≡ bit number place }
{
    (number >> place) % 2 == 1
}
