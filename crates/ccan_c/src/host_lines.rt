//! The calls of a host, on what an open handle stands for.
use crate::code::{FLAG_RANGE, OBJECT_RANGE, TURNS_RANGE};
use crate::held::Held;
use crate::numbers::flag_numbered;
use ccan_object::{ObjectNo, Record};
use ccan_ram::Flag;
use ccan_registers::{AccessError, TransferAnswer, clear_objects, peek, wait};

impl Held {
    ghost use Rattle.std.specs.Prelude.{◌≡◌, ◌↔◌, Some, true, false, IfErr, IfNone, IfOk, IfSome, IsSome, IsTrue};
    ghost use Rattle.ccan_object.specs.Profile.{Holds};
    ghost use Rattle.ccan_ram.specs.declared.flag.Flag.{Flag};
    ghost use Rattle.ccan_registers.specs.Clearing.{ClearsObjects};
    ghost use Rattle.ccan_registers.specs.InterfaceSet.{Transferred};
    ghost use Rattle.ccan_registers.specs.Objects.{ShowsObject, WaitsFor, as_line};
    ghost use Rattle.ccan_line.specs.Limits.{most_turns};
    ghost use Rattle.ccan_c.specs.Held.{pass_of, tries_of};
    ghost use Rattle.ccan_c.specs.Host as numbers;
    ghost use Rattle.ccan_c.specs.Host.{is_object};
    ghost use Rattle.ccan_c.specs.Settings.{is_from_one_to};
    ghost use Rattle.ccan_c.specs.HostCall.{IsWaitRefused};
    ghost use Rattle.ccan_c.specs.Steps.{HostSteps, Steps};

    /// Makes the transfer that the Command Mask register says.
    #[inline(always)]
    pub(crate) fn request(&mut self, request: u16) -> TransferAnswer
        ensures { HostSteps (λ terms seen added left.
            Transferred terms (tries_of self.old) request self.old.own seen added
            (as_line result) left)
            self.old self.new }
    {
        self.own.request(&mut self.chip, request)
    }

    /// Makes each object of the chip one of zeros.
    pub(crate) fn clear_objects(&mut self) -> Result<(), AccessError>
        ensures { Steps (λ terms seen added.
            ClearsObjects terms (tries_of self.old) seen added result) self.old self.new }
    {
        clear_objects(&mut self.chip)
    }

    /// The object of this number, if the chip has it.
    fn object_numbered(&self, number: u32) -> Option<ObjectNo>
        ensures known { IsSome result
            ↔ IsTrue (is_object (pass_of self.now).memory.profile number) }
        ensures value { IfSome result (λ object. (object ≡ number)
            × Holds (pass_of self.now).memory.profile object) }
    {
        if number == 0 || number > u32::from(self.chip.profile().objects()) {
            return None;
        }
        ObjectNo::new(number as u8)
    }

    /// Looks at an object once.
    fn look(&mut self, object: ObjectNo) -> Record
        requires { Holds (pass_of self.old).memory.profile object }
        ensures { Steps (λ terms seen added. ShowsObject terms object seen added result)
            self.old self.new }
    {
        peek(&mut self.chip, object)
    }

    /// The record of an object, by one look. None if the chip has no such object.
    pub(crate) fn peek(&mut self, number: u32) -> Option<Record>
        ensures none { IfNone result
            ((is_object (pass_of self.old).memory.profile number ≡ false) × (self.new ≡ self.old)) }
        ensures some { IfSome result
            (λ found. (is_object (pass_of self.old).memory.profile number ≡ true)
            × Steps (λ terms seen added. ShowsObject terms number seen added found)
            self.old self.new) }
    {
        let object = self.object_numbered(number)?;
        Some(self.look(object))
    }

    /// Looks at an object until it shows the flag.
    fn until(&mut self, object: ObjectNo, flag: Flag, turns: u32) -> bool
        requires { Holds (pass_of self.old).memory.profile object }
        ensures { Steps (λ terms seen added. WaitsFor terms object flag turns seen added result)
            self.old self.new }
    {
        wait(&mut self.chip, object, flag, turns)
    }

    /// Looks at an object until it shows a flag, or reports the first of the numbers that is out of its range.
    pub(crate) fn wait(&mut self, object: u32, flag: u32, turns: u32) -> Result<bool, u32>
        ensures waits { IfOk result (λ shown.
            (known : Flag) × (numbers.flag_numbered flag ≡ Some known)
            × (is_object (pass_of self.old).memory.profile object ≡ true)
            × (is_from_one_to most_turns turns ≡ true)
            × Steps (λ terms seen added. WaitsFor terms object known turns seen added shown)
            self.old self.new) }
        ensures refused { IfErr result (λ code. (self.new ≡ self.old)
            × IsWaitRefused (pass_of self.old).memory.profile object flag turns code) }
    {
        let Some(object) = self.object_numbered(object) else {
            return Err(OBJECT_RANGE);
        };
        let Some(flag) = flag_numbered(flag) else {
            return Err(FLAG_RANGE);
        };
        if turns == 0 || turns > 1_000_000 {
            return Err(TURNS_RANGE);
        }
        Ok(self.until(object, flag, turns))
    }
}
