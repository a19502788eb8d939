//! What C gets from an access to a register.
ghost use Rattle.std.specs.Prelude.{◌≡◌, ◌≢◌, Some};
ghost use Rattle.ccan_registers.specs.Register.{at_register};
ghost use Rattle.ccan_c.specs.Codes.{done};
ghost use Rattle.ccan_c.specs.FrameCall.{IsPower};
ghost use Rattle.ccan_c.specs.HostCall as call;
ghost use Rattle.ccan_c.specs.HostCall.{IsRead};

use crate::code::{BUSY, DONE, OFFSET_RANGE, OTHER_INTERFACE, SPENT};
use crate::numbers::number_of;
use ccan_registers::{AccessError, OffsetError};

/// The code of an error.
#[inline(always)]
fn code_of_error(error: AccessError) -> u32
    ensures value { result ≡ call.code_of_error error }
    ensures refused { result ≢ done }
{
    match error {
        AccessError::OtherInterface => OTHER_INTERFACE,
        AccessError::Busy => BUSY,
        AccessError::Spent => SPENT,
    }
}

/// The code of an access by an offset.
#[inline(always)]
pub(crate) fn code_of_offset<T: Copy>(told: &Result<T, OffsetError>) -> u32
    ensures { result ≡ call.code_of_access (at_register told.now) }
{
    match told {
        Ok(_) => DONE,
        Err(OffsetError::NoRegister) => OFFSET_RANGE,
        Err(OffsetError::Access(error)) => code_of_error(*error),
    }
}

/// The code of an access.
pub(crate) fn code_of_access<T: Copy>(told: &Result<T, AccessError>) -> u32
    ensures { result ≡ call.code_of_access (Some told.now) }
{
    match told {
        Ok(_) => DONE,
        Err(error) => code_of_error(*error),
    }
}

/// The code of a read of a byte, whose value goes into the place for it.
pub(crate) fn read_byte_out(told: &Result<u8, OffsetError>, out: &mut u8) -> u32
    ensures code { result ≡ call.code_of_access (at_register told.now) }
    ensures read { IsRead (at_register told.now) out.new }
    ensures refused { result ≢ done → out.new ≡ out.old }
{
    match told {
        Ok(value) => {
            *out = *value;
            DONE
        }
        Err(OffsetError::NoRegister) => OFFSET_RANGE,
        Err(OffsetError::Access(error)) => code_of_error(*error),
    }
}

/// The code of a read of a word, whose value goes into the place for it.
pub(crate) fn read_word_out(told: &Result<u32, OffsetError>, out: &mut u32) -> u32
    ensures code { result ≡ call.code_of_access (at_register told.now) }
    ensures read { IsRead (at_register told.now) out.new }
    ensures refused { result ≢ done → out.new ≡ out.old }
{
    match told {
        Ok(value) => {
            *out = *value;
            DONE
        }
        Err(OffsetError::NoRegister) => OFFSET_RANGE,
        Err(OffsetError::Access(error)) => code_of_error(*error),
    }
}

/// The code of a read of a register, whose value goes into the place for it.
#[inline(always)]
pub(crate) fn read_out(told: &Result<u16, OffsetError>, out: &mut u16) -> u32
    ensures code { result ≡ call.code_of_access (at_register told.now) }
    ensures read { IsRead (at_register told.now) out.new }
    ensures refused { result ≢ done → out.new ≡ out.old }
{
    match told {
        Ok(value) => {
            *out = *value;
            DONE
        }
        Err(OffsetError::NoRegister) => OFFSET_RANGE,
        Err(OffsetError::Access(error)) => code_of_error(*error),
    }
}

/// The code of a read of Status, whose value goes into the place for it.
pub(crate) fn status_out(told: &Result<u16, AccessError>, out: &mut u16) -> u32
    ensures code { result ≡ call.code_of_access (Some told.now) }
    ensures read { IsRead (Some told.now) out.new }
    ensures refused { result ≢ done → out.new ≡ out.old }
{
    match told {
        Ok(value) => {
            *out = *value;
            DONE
        }
        Err(error) => code_of_error(*error),
    }
}

/// The code of a power down, and whether the chip is powered down in the place for it.
pub(crate) fn power_out(told: &Result<bool, AccessError>, out: &mut u32) -> u32
    ensures code { result ≡ call.code_of_access (Some told.now) }
    ensures power { IsPower told.now out.new }
    ensures refused { result ≢ done → out.new ≡ out.old }
{
    match told {
        Ok(down) => {
            *out = number_of(*down);
            DONE
        }
        Err(error) => code_of_error(*error),
    }
}
