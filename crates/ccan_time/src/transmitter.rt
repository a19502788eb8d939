//! A transmitter of bits.

ghost use Rattle.std.specs.Prelude.{◌≡◌, ◌<◌, ◌≤◌, ◌+◌, ◌*◌, ◌^◌, length};
ghost use Rattle.std.specs.List.{flat_map};

use crate::places::bit;
use crate::register::register_with;
use crate::stuffing::Stuffing;
use ccan_accept::Frame;

/// What the bits that were sent have left of the CRC register and of the stuffing.
#[derive(Clone, Copy)]
pub(crate) struct Transmitter {
    /// The CRC register.
    pub(crate) register: u16,
    /// The stuffing.
    pub(crate) stuffing: Stuffing,
}

impl Transmitter {
    ghost use Rattle.ccan_time.specs.Bits.{lowest_bits};
    ghost use Rattle.ccan_time.specs.FrameBits.{arbitration_field, checked_bits, control_field, data_field};
    ghost use Rattle.ccan_time.specs.Transmitter.{IsReady, silent_transmitter, transmitter_after, transmitter_with};

    /// Nothing was sent.
    pub(crate) fn new() -> Transmitter
        ensures value { result ≡ silent_transmitter }
        ensures ready { IsReady result }
    {
        Transmitter {
            register: 0,
            stuffing: Stuffing {
                value: true,
                run: 0,
                bits: 0,
            },
        }
    }

    /// Sends one bit.
    fn send(&mut self, bit: bool)
        requires ready { IsReady self.old }
        requires room { self.old.stuffing.bits + 2 < 2 ^ 32 }
        ensures value { self.new ≡ transmitter_with self.old bit }
        ensures ready { IsReady self.new }
        ensures grown { self.new.stuffing.bits ≤ self.old.stuffing.bits + 2 }
    {
        self.register = register_with(self.register, bit);
        self.stuffing = self.stuffing.with(bit);
    }

    /// Sends this many bits of a number, from the lowest one on, the highest first.
    pub(crate) fn send_number(&mut self, number: u64, width: u32)
        requires ready { IsReady self.old }
        requires width { width ≤ 64 }
        requires room { self.old.stuffing.bits + 2 * width < 2 ^ 32 }
        ensures value { self.new ≡ transmitter_after self.old (lowest_bits width number) }
        ensures ready { IsReady self.new }
        ensures grown { self.new.stuffing.bits ≤ self.old.stuffing.bits + 2 * width }
    {
        for place in (0..width).rev() {
            self.send(bit(number, place));
        }
    }

    fn send_arbitration(&mut self, frame: &Frame)
        requires ready { IsReady self.old }
        requires room { self.old.stuffing.bits + 64 < 2 ^ 32 }
        ensures value { self.new ≡ transmitter_after self.old (arbitration_field frame.now) }
        ensures ready { IsReady self.new }
        ensures grown { self.new.stuffing.bits ≤ self.old.stuffing.bits + 64 }
    {
        let id = u64::from(frame.id());
        if frame.xtd() {
            self.send_number(id >> 18, 11);
            self.send(true);
            self.send(true);
            self.send_number(id, 18);
        } else {
            self.send_number(id, 11);
        }
        self.send(frame.rtr());
    }

    fn send_control(&mut self, frame: &Frame)
        requires ready { IsReady self.old }
        requires room { self.old.stuffing.bits + 12 < 2 ^ 32 }
        ensures value { self.new ≡ transmitter_after self.old (control_field frame.now) }
        ensures ready { IsReady self.new }
        ensures grown { self.new.stuffing.bits ≤ self.old.stuffing.bits + 12 }
    {
        self.send(false);
        self.send(false);
        self.send_number(u64::from(frame.dlc().get()), 4);
    }

    fn send_bytes(&mut self, bytes: &[u8])
        requires ready { IsReady self.old }
        requires few { length bytes.now ≤ 8 }
        requires room { self.old.stuffing.bits + 128 < 2 ^ 32 }
        ensures value { self.new ≡ transmitter_after self.old (flat_map (lowest_bits 8) bytes.now) }
        ensures ready { IsReady self.new }
        ensures grown { self.new.stuffing.bits ≤ self.old.stuffing.bits + 128 }
    {
        for byte in bytes {
            self.send_number(u64::from(*byte), 8);
        }
    }

    fn send_data(&mut self, frame: &Frame)
        requires ready { IsReady self.old }
        requires room { self.old.stuffing.bits + 128 < 2 ^ 32 }
        ensures value { self.new ≡ transmitter_after self.old (data_field frame.now) }
        ensures ready { IsReady self.new }
        ensures grown { self.new.stuffing.bits ≤ self.old.stuffing.bits + 128 }
    {
        let count = if frame.rtr() {
            0
        } else {
            frame.dlc().byte_count()
        };
        self.send_bytes(&frame.bytes()[..count]);
    }

    /// After all bits of the frame that its CRC sequence is computed from.
    pub(crate) fn of_checked(frame: &Frame) -> Transmitter
        ensures value { result ≡ transmitter_after silent_transmitter (checked_bits frame.now) }
        ensures ready { IsReady result }
        ensures few { result.stuffing.bits ≤ 206 }
    {
        let mut transmitter = Transmitter::new();
        transmitter.send(false);
        transmitter.send_arbitration(frame);
        transmitter.send_control(frame);
        transmitter.send_data(frame);
        transmitter
    }
}
