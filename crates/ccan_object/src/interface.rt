ghost use Rattle.std.specs.Prelude.{◌≡◌, ◌<◌, ◌≤◌, ◌+◌, ◌^◌};
ghost use Rattle.ccan_object.specs.Interface.{with_bytes, with_control, with_register};
ghost use Rattle.ccan_object.specs.Bits.{part};
ghost use Rattle.ccan_object.specs.Register.{two_bytes};

use crate::bits::bit;
use crate::command::CommandMask;
use crate::data_length::DataLength;
use crate::record::Record;
use crate::register::Reg;
use crate::transfer::by_groups;
use bitflags::Flags;
use std::marker::Model;

/// An interface register set, IF1 or IF2 (User's Manual, section 3.3): the Command Mask register, and the message
/// buffer that the other nine registers show. Reserved bits have no place in it.
///
/// It is kept as what it shows, and not as ten words, so that no register can hold what a record can't.
#[derive(Clone, Copy, PartialEq, Eq, Hash, Default, Debug)]
pub struct Iface {
    command: CommandMask,
    buffer: Record,
}

impl Model for Iface {
    ghost use Rattle.ccan_object.specs.Interface.{Registers};

    ghost Value = { Registers };

    ghost view = { λ i. record { command = i.command; buffer = i.buffer } };

    ghost inverse = { λ i. record { command = i.command; buffer = i.buffer } };
}

impl Iface {
    ghost use Rattle.ccan_object.specs.Interface.{Registers, zero_registers, shown, set_register, filled};

    /// Registers that read 0.
    pub fn new() -> Iface
        ensures { result ≡ zero_registers }
    {
        Iface {
            command: CommandMask::of(0),
            buffer: Record::zero(),
        }
    }

    /// Writes a register. Its reserved bits are dropped.
    pub fn set(&mut self, register: Reg, value: u16)
        ensures { self.new ≡ set_register register value self.old }
    {
        match register {
            Reg::CMask => self.command = CommandMask::of(value),
            Reg::Mask1
            | Reg::Mask2
            | Reg::Arb1
            | Reg::Arb2
            | Reg::Ctrl
            | Reg::DataA1
            | Reg::DataA2
            | Reg::DataB1
            | Reg::DataB2 => self.buffer = with_register(&self.buffer, register, value),
        }
    }

    /// Reads a register. Its reserved bits are 0.
    pub fn get(&self, register: Reg) -> u16
        ensures { result ≡ shown register self.now }
    {
        let buffer = &self.buffer;
        match register {
            Reg::CMask => u16::from(self.command.bits()),
            Reg::Mask1 => low_half(buffer.masks()),
            Reg::Mask2 => high_half(buffer.masks()),
            Reg::Arb1 => low_half(buffer.arbitration()),
            Reg::Arb2 => high_half(buffer.arbitration()),
            Reg::Ctrl => buffer.control(),
            Reg::DataA1 => two_bytes(&buffer.bytes, 0),
            Reg::DataA2 => two_bytes(&buffer.bytes, 2),
            Reg::DataB1 => two_bytes(&buffer.bytes, 4),
            Reg::DataB2 => two_bytes(&buffer.bytes, 6),
        }
    }

    /// The command in the Command Mask register.
    pub fn command(&self) -> CommandMask
        ensures { result ≡ self.now.command }
    {
        self.command
    }

    /// The record in the message buffer registers.
    pub fn buffer(&self) -> Record
        ensures { result ≡ self.now.buffer }
    {
        self.buffer
    }

    /// What a transfer leaves in the registers: after a write the whole object as it was written, after a read the
    /// selected groups of the object.
    pub fn fill(&mut self, command: CommandMask, object: &Record)
        ensures { self.new ≡ filled command object.now self.old }
    {
        self.buffer = if command.is_write() {
            *object
        } else {
            by_groups(command, object, &self.buffer)
        };
    }
}

/// The record once a register of the buffer is written. The Command Mask register is no part of the buffer.
fn with_register(buffer: &Record, register: Reg, value: u16) -> Record
    ensures { result ≡ with_register register value buffer.now }
{
    match register {
        Reg::CMask => *buffer,
        Reg::Mask1 => Record {
            mask: buffer.mask.with_low_half(value),
            ..*buffer
        },
        Reg::Mask2 => Record {
            mxtd: bit(u64::from(value), 15),
            mdir: bit(u64::from(value), 14),
            mask: buffer.mask.with_high_half(value),
            ..*buffer
        },
        Reg::Arb1 => Record {
            id: buffer.id.with_low_half(value),
            ..*buffer
        },
        Reg::Arb2 => Record {
            valid: bit(u64::from(value), 15),
            xtd: bit(u64::from(value), 14),
            dir: bit(u64::from(value), 13),
            id: buffer.id.with_high_half(value),
            ..*buffer
        },
        Reg::Ctrl => with_control(buffer, value),
        Reg::DataA1 => with_bytes(buffer, 0, value),
        Reg::DataA2 => with_bytes(buffer, 2, value),
        Reg::DataB1 => with_bytes(buffer, 4, value),
        Reg::DataB2 => with_bytes(buffer, 6, value),
    }
}

/// The record with the fields of a Message Control register.
pub(crate) fn with_control(buffer: &Record, value: u16) -> Record
    ensures { result ≡ with_control value buffer.now }
{
    let word = u64::from(value);
    Record {
        newdat: bit(word, 15),
        msglst: bit(word, 14),
        intpnd: bit(word, 13),
        umask: bit(word, 12),
        txie: bit(word, 11),
        rxie: bit(word, 10),
        rmten: bit(word, 9),
        txrqst: bit(word, 8),
        eob: bit(word, 7),
        dlc: DataLength::of(value),
        ..*buffer
    }
}

/// The record with two neighbouring bytes, the first from the low half of the register.
fn with_bytes(buffer: &Record, first: usize, value: u16) -> Record
    requires { first + 2 ≤ 8 }
    ensures { result ≡ record buffer.now { bytes = with_bytes first value buffer.now.bytes } }
{
    let mut bytes = buffer.bytes;
    // by arithmetic: the prover handles these more readily than the bytes of `to_le_bytes`
    bytes[first] = (value % 256) as u8;
    bytes[first + 1] = (value >> 8) as u8;
    Record { bytes, ..*buffer }
}

/// A register that shows two neighbouring bytes.
fn two_bytes(bytes: &[u8; 8], first: usize) -> u16
    requires { first + 2 ≤ 8 }
    ensures { result ≡ two_bytes bytes.now first }
{
    u16::from_le_bytes([bytes[first], bytes[first + 1]])
}

/// The register above another in a word of 32 bits.
fn high_half(word: u32) -> u16
    ensures { result ≡ part word 16 16 }
{
    (word >> 16) as u16
}

/// The register below another in a word of 32 bits.
fn low_half(word: u32) -> u16
    ensures { result ≡ part word 0 16 }
{
    (word % (1 << 16)) as u16
}
