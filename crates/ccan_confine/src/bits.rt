ghost use Rattle.std.specs.Prelude.{◌≡◌, ◌≤◌, ◌<◌, ◌+◌, ◌^◌};
ghost use Rattle.ccan_confine.specs.Bits.{at, bit, flag, part};

/// Whether the bit of a word at a place is 1.
#[inline(always)]
pub fn bit(word: u64, place: u32) -> bool
    requires { place < 64 }
    ensures { result ≡ bit word place }
{
    (word >> place) % 2 == 1
}

/// The number in `width` places of a word, from the place `lowest` on.
#[inline(always)]
pub fn part(word: u64, lowest: u32, width: u32) -> u64
    requires { lowest + width < 64 }
    ensures value { result ≡ part word lowest width }
    ensures within { result < 2 ^ width }
{
    (word >> lowest) % (1 << width)
}

/// A flag at its place.
#[inline(always)]
pub fn flag(on: bool, place: u32) -> u64
    requires { place < 64 }
    ensures value { result ≡ at place (flag on) }
    ensures within { result ≤ 2 ^ place }
{
    if on { 1 << place } else { 0 }
}
