//! The calls on registers by their offsets, and on what the Message Handler Registers show, on what an open handle stands for.
use crate::held::Held;
use ccan_confine::Controller;
use ccan_ram::Flag;
use ccan_registers::{
    OffsetError, flags, interrupt, interrupt_value, line, read_at, read_byte, read_word, write_at,
    write_byte, write_word,
};

impl Held {
    ghost use Rattle.std.specs.Prelude.{◌≡◌, false};
    ghost use Rattle.ccan_ram.specs.declared.port.PortName.TheVariants.{Bus};
    ghost use Rattle.ccan_registers.specs.Bytes.{ReadsByte, WritesByte};
    ghost use Rattle.ccan_registers.specs.Objects.{ShowsFlags, ShowsInterrupt};
    ghost use Rattle.ccan_registers.specs.Register.{InterruptValue, PullsLine, ReadsAt, ReadsWord, WritesAt, WritesWord};
    ghost use Rattle.ccan_registers.specs.Register.{at_register};
    ghost use Rattle.ccan_c.specs.Held.{map_of, pass_of, tries_of};
    ghost use Rattle.ccan_c.specs.Steps.{HostSteps, Steps};

    /// Reads the register at an offset.
    #[inline(always)]
    pub(crate) fn read(&mut self, offset: u32) -> Result<u16, OffsetError>
        ensures { Steps (λ terms seen added.
            ReadsAt terms (tries_of self.old) (map_of self.old) offset
            self.old.own seen added (at_register result))
            self.old self.new }
    {
        read_at(&self.own, &mut self.chip, offset)
    }

    /// Writes the register at an offset.
    #[inline(always)]
    pub(crate) fn write(&mut self, offset: u32, value: u16) -> Result<(), OffsetError>
        ensures steps { HostSteps (λ terms seen added left.
            WritesAt terms (tries_of self.old) (map_of self.old) offset value
            self.old.own seen added (at_register result) left) self.old self.new }
        ensures bus { (pass_of self.old).port ≡ Bus → self.new.own ≡ self.old.own }
    {
        write_at(&mut self.own, &mut self.chip, offset, value)
    }

    /// Reads the byte at an offset.
    pub(crate) fn read_byte(&mut self, offset: u32) -> Result<u8, OffsetError>
        ensures { Steps (λ terms seen added.
            ReadsByte terms (tries_of self.old) (map_of self.old) offset
            self.old.own seen added (at_register result))
            self.old self.new }
    {
        read_byte(&self.own, &mut self.chip, offset)
    }

    /// Writes the byte at an offset.
    pub(crate) fn write_byte(&mut self, offset: u32, value: u8) -> Result<(), OffsetError>
        ensures steps { HostSteps (λ terms seen added left.
            WritesByte terms (tries_of self.old) (map_of self.old) offset value
            self.old.own seen added (at_register result) left) self.old self.new }
        ensures bus { (pass_of self.old).port ≡ Bus → self.new.own ≡ self.old.own }
    {
        write_byte(&mut self.own, &mut self.chip, offset, value)
    }

    /// Reads the word of 32 bits at an offset.
    pub(crate) fn read_word(&mut self, offset: u32) -> Result<u32, OffsetError>
        ensures { Steps (λ terms seen added.
            ReadsWord terms (tries_of self.old) (map_of self.old) offset
            self.old.own seen added (at_register result))
            self.old self.new }
    {
        read_word(&self.own, &mut self.chip, offset)
    }

    /// Writes the word of 32 bits at an offset.
    pub(crate) fn write_word(&mut self, offset: u32, value: u32) -> Result<(), OffsetError>
        ensures steps { HostSteps (λ terms seen added left.
            WritesWord terms (tries_of self.old) (map_of self.old) offset value
            self.old.own seen added (at_register result) left) self.old self.new }
        ensures bus { (pass_of self.old).port ≡ Bus → self.new.own ≡ self.old.own }
    {
        write_word(&mut self.own, &mut self.chip, offset, value)
    }

    /// Whether the chip pulls its interrupt line.
    pub(crate) fn line(&mut self) -> bool
        ensures { Steps (λ terms seen added. PullsLine terms seen added result)
            self.old self.new }
    {
        line(&mut self.chip)
    }

    /// The Interrupt register, with the controller that its look found.
    pub(crate) fn interrupt_value(&mut self) -> (Controller, u16)
        ensures { Steps (λ terms seen added. InterruptValue terms seen added result.0 result.1)
            self.old self.new }
    {
        interrupt_value(&mut self.chip)
    }

    /// The number of the first object with IntPnd in one moment, or 0.
    pub(crate) fn interrupt(&mut self) -> u16
        ensures { Steps (λ terms seen added. ShowsInterrupt terms false seen added result)
            self.old self.new }
    {
        interrupt(&mut self.chip, false)
    }

    /// A flag of all objects in one moment.
    pub(crate) fn flags(&mut self, flag: Flag) -> u64
        ensures { Steps (λ terms seen added. ShowsFlags terms flag seen added result)
            self.old self.new }
    {
        flags(&mut self.chip, flag)
    }
}
