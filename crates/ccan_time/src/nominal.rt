//! The nominal bit time (C_CAN User's Manual 1.2, "Bit Timing Register", "BRP Extension Register" and "Bit Timing"), in periods of
//! CAN_CLK.
//!
//! After a reset the Bit Timing register holds 0x2301: BRP 1, SJW 0, TSeg1 3, TSeg2 2. A time quantum is 2 clock periods, a bit has
//! 1 + 4 + 3 = 8 quanta, so 16 clock periods, and the sample point is 5 quanta, so 10 clock periods, after its start. With a
//! clock of 8 MHz that is a bit rate of 500 kBit/s, as the manual says.

ghost use Rattle.std.specs.Prelude.{◌≡◌, ◌≤◌, ◌<◌, ◌*◌, ◌^◌};
ghost use Rattle.ccan_time.specs.BitTime.{bit_time, jump_width, quanta_after_sample, quanta_before_sample, sample_point, time_quantum};

use ccan_confine::BitTiming;

/// A time quantum, in clock periods, 1 to 1024: BRP + 1 + 64 * BRPE.
pub fn time_quantum(timing: BitTiming) -> u32
    ensures value { result ≡ time_quantum timing }
    ensures least { 1 ≤ result }
    ensures most { result ≤ 1024 }
{
    u32::from(timing.extension() % 16) * 64 + u32::from(timing.register() % 64) + 1
}

/// The quanta of a bit before its sample point, 2 to 17: the synchronization segment and TSeg1 + 1.
fn quanta_before_sample(timing: BitTiming) -> u32
    ensures value { result ≡ quanta_before_sample timing }
    ensures least { 2 ≤ result }
    ensures most { result ≤ 17 }
{
    u32::from((timing.register() >> 8) % 16) + 2
}

/// The quanta of a bit after its sample point, 1 to 8: TSeg2 + 1.
fn quanta_after_sample(timing: BitTiming) -> u32
    ensures value { result ≡ quanta_after_sample timing }
    ensures least { 1 ≤ result }
    ensures most { result ≤ 8 }
{
    u32::from((timing.register() >> 12) % 8) + 1
}

/// The nominal bit time, in clock periods, 3 to 25600.
pub fn bit_time(timing: BitTiming) -> u32
    ensures value { result ≡ bit_time timing }
    ensures least { 3 ≤ result }
    ensures most { result ≤ 25600 }
{
    (quanta_before_sample(timing) + quanta_after_sample(timing)) * time_quantum(timing)
}

/// The sample point, in clock periods from the start of the bit, 2 to 17408.
pub fn sample_point(timing: BitTiming) -> u32
    ensures value { result ≡ sample_point timing }
    ensures least { 2 ≤ result }
    ensures most { result ≤ 17408 }
{
    quanta_before_sample(timing) * time_quantum(timing)
}

/// The synchronization jump width, in clock periods, 1 to 4096: SJW + 1 quanta.
pub fn jump_width(timing: BitTiming) -> u32
    ensures value { result ≡ jump_width timing }
    ensures least { 1 ≤ result }
    ensures most { result ≤ 4096 }
{
    (u32::from((timing.register() >> 6) % 4) + 1) * time_quantum(timing)
}

/// This many bits, in clock periods.
pub fn clock_periods(bits: u32, timing: BitTiming) -> u64
    ensures { result ≡ bits * bit_time timing }
{
    u64::from(bits) * u64::from(bit_time(timing))
}
