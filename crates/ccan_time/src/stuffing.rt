//! Bit stuffing, without the bits.

ghost use Rattle.std.specs.Prelude.{◌≡◌, ◌<◌, ◌≤◌, ◌+◌, ◌^◌};
ghost use Rattle.ccan_time.specs.Stuffing.{most_identical, run_with};

/// This many bits of identical value in a row have a stuff bit after them.
const MOST_IDENTICAL: u8 = 5;

/// What is on the bus so far, with its stuff bits.
#[derive(Clone, Copy)]
pub(crate) struct Stuffing {
    /// The value of the last bit.
    pub(crate) value: bool,
    /// How many bits of that value are at the end; 0 before the first bit.
    pub(crate) run: u8,
    /// How many bits were sent.
    pub(crate) bits: u32,
}

/// How long the run that ends with this bit is.
fn run_with(value: bool, run: u8, bit: bool) -> u8
    requires { run < most_identical }
    ensures run { result ≡ run_with value run bit }
    ensures within { result ≤ most_identical }
{
    if bit == value { run + 1 } else { 1 }
}

impl Stuffing {
    ghost use Rattle.ccan_time.specs.Transmitter.{stuffing_with};

    /// After one more bit, and the stuff bit after it if it ends a run of five.
    pub(crate) fn with(self, bit: bool) -> Stuffing
        requires short { self.run < most_identical }
        requires room { self.bits + 2 < 2 ^ 32 }
        ensures value { result ≡ stuffing_with self bit }
        ensures short { result.run < most_identical }
        ensures grown { result.bits ≤ self.bits + 2 }
    {
        let run = run_with(self.value, self.run, bit);
        if run == MOST_IDENTICAL {
            Stuffing {
                value: !bit,
                run: 1,
                bits: self.bits + 2,
            }
        } else {
            Stuffing {
                value: bit,
                run,
                bits: self.bits + 1,
            }
        }
    }
}
