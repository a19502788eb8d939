//! The calls of a host.
ghost use Rattle.std.specs.Prelude.{◌≡◌, ◌≢◌};
ghost use Rattle.ccan_c.specs.Codes.{done};
ghost use Rattle.ccan_c.specs.Host.{held_by};
ghost use Rattle.ccan_c.specs.HostCall as host_call;
ghost use Rattle.ccan_c.specs.HostCall.{HostCallDoes};

use crate::access_code::{code_of_access, code_of_offset, read_byte_out, read_out, read_word_out};
use crate::code::{CLOSED, DONE, FLAG_RANGE, OBJECT_RANGE, REGISTER_RANGE, code_of_transfer};
use crate::host_handle::HostHandle;
use crate::numbers::{flag_numbered, number_of, register_numbered};
use crate::shown_record::ShownRecord;

/// Writes an interface register. The message RAM has no part in it.
#[unsafe(no_mangle)]
pub extern "C" fn ccan_set(host: &mut HostHandle, register: u32, value: u16) -> u32
    ensures { HostCallDoes (host_call.set register value result)
        (held_by host.old) (held_by host.new) }
{
    if !host.handle.is_open() {
        return CLOSED;
    }
    let Some(register) = register_numbered(register) else {
        return REGISTER_RANGE;
    };
    host.handle.seal.as_mut().own.registers.set(register, value);
    DONE
}

/// Reads an interface register. The message RAM has no part in it.
#[unsafe(no_mangle)]
pub extern "C" fn ccan_get(host: &mut HostHandle, register: u32, out: &mut u16) -> u32
    ensures call { HostCallDoes (host_call.get register result out.new)
        (held_by host.old) (held_by host.new) }
    ensures refused { result ≢ done → out.new ≡ out.old }
{
    if !host.handle.is_open() {
        return CLOSED;
    }
    let Some(register) = register_numbered(register) else {
        return REGISTER_RANGE;
    };
    *out = host.handle.seal.as_mut().own.registers.get(register);
    DONE
}

/// Writes the Command Request register: the transfer that the Command Mask register says, with the object of the request.
#[unsafe(no_mangle)]
pub extern "C" fn ccan_request(host: &mut HostHandle, request: u16) -> u32
    ensures { HostCallDoes (host_call.request request result)
        (held_by host.old) (held_by host.new) }
{
    if !host.handle.is_open() {
        return CLOSED;
    }
    let answer = host.handle.seal.as_mut().request(request);
    code_of_transfer(&answer)
}

/// Reads a flag of all objects in one moment, that of object k in bit k - 1.
#[unsafe(no_mangle)]
pub extern "C" fn ccan_flags(host: &mut HostHandle, flag: u32, out: &mut u64) -> u32
    ensures call { HostCallDoes (host_call.flags flag result out.new)
        (held_by host.old) (held_by host.new) }
    ensures refused { result ≢ done → out.new ≡ out.old }
{
    if !host.handle.is_open() {
        return CLOSED;
    }
    let Some(flag) = flag_numbered(flag) else {
        return FLAG_RANGE;
    };
    *out = host.handle.seal.as_mut().flags(flag);
    DONE
}

/// Reads the interrupt value of one moment: the number of the first object with IntPnd, or 0.
#[unsafe(no_mangle)]
pub extern "C" fn ccan_interrupt(host: &mut HostHandle, out: &mut u16) -> u32
    ensures call { HostCallDoes (host_call.interrupt result out.new)
        (held_by host.old) (held_by host.new) }
    ensures refused { result ≢ done → out.new ≡ out.old }
{
    if !host.handle.is_open() {
        return CLOSED;
    }
    *out = host.handle.seal.as_mut().interrupt();
    DONE
}

/// Looks at an object once, and gives its record. The interface registers have no part in it.
#[unsafe(no_mangle)]
pub extern "C" fn ccan_peek(host: &mut HostHandle, object: u32, out: &mut ShownRecord) -> u32
    ensures call { HostCallDoes (host_call.peek object result out.new)
        (held_by host.old) (held_by host.new) }
    ensures refused { result ≢ done → out.new ≡ out.old }
{
    if !host.handle.is_open() {
        return CLOSED;
    }
    match host.handle.seal.as_mut().peek(object) {
        Some(found) => {
            *out = ShownRecord::of(&found);
            DONE
        }
        None => OBJECT_RANGE,
    }
}

/// Looks at an object until it shows the flag, at most so many times. 1 if it did, else 0.
#[unsafe(no_mangle)]
pub extern "C" fn ccan_until(
    host: &mut HostHandle,
    object: u32,
    flag: u32,
    turns: u32,
    out: &mut u32,
) -> u32
    ensures call { HostCallDoes (host_call.until object flag turns result out.new)
        (held_by host.old) (held_by host.new) }
    ensures refused { result ≢ done → out.new ≡ out.old }
{
    if !host.handle.is_open() {
        return CLOSED;
    }
    match host.handle.seal.as_mut().wait(object, flag, turns) {
        Ok(shown) => {
            *out = number_of(shown);
            DONE
        }
        Err(code) => code,
    }
}

/// Reads the byte at an offset, in bytes from where the chip begins: its register is read, by 16 bits.
#[unsafe(no_mangle)]
pub extern "C" fn ccan_read8(host: &mut HostHandle, offset: u32, out: &mut u8) -> u32
    ensures call { HostCallDoes (host_call.read8 offset result out.new)
        (held_by host.old) (held_by host.new) }
    ensures refused { result ≢ done → out.new ≡ out.old }
{
    if !host.handle.is_open() {
        return CLOSED;
    }
    let told = host.handle.seal.as_mut().read_byte(offset);
    read_byte_out(&told, out)
}

/// Writes the byte at an offset, in bytes from where the chip begins. The other byte of its register stays, unless the write
/// resets the chip.
#[unsafe(no_mangle)]
pub extern "C" fn ccan_write8(host: &mut HostHandle, offset: u32, value: u8) -> u32
    ensures { HostCallDoes (host_call.write8 offset value result)
        (held_by host.old) (held_by host.new) }
{
    if !host.handle.is_open() {
        return CLOSED;
    }
    let told = host.handle.seal.as_mut().write_byte(offset, value);
    code_of_offset(&told)
}

/// Reads the 16-bit register at an offset, in bytes from where the chip begins.
#[unsafe(no_mangle)]
pub extern "C" fn ccan_read16(host: &mut HostHandle, offset: u32, out: &mut u16) -> u32
    ensures call { HostCallDoes (host_call.read16 offset result out.new)
        (held_by host.old) (held_by host.new) }
    ensures refused { result ≢ done → out.new ≡ out.old }
{
    if !host.handle.is_open() {
        return CLOSED;
    }
    let told = host.handle.seal.as_mut().read(offset);
    read_out(&told, out)
}

/// Writes the 16-bit register at an offset, in bytes from where the chip begins.
#[unsafe(no_mangle)]
pub extern "C" fn ccan_write16(host: &mut HostHandle, offset: u32, value: u16) -> u32
    ensures { HostCallDoes (host_call.write16 offset value result)
        (held_by host.old) (held_by host.new) }
{
    if !host.handle.is_open() {
        return CLOSED;
    }
    let told = host.handle.seal.as_mut().write(offset, value);
    code_of_offset(&told)
}

/// Whether the chip pulls its interrupt line: IE is 1, and the Interrupt register is not 0. 1 if it does, else 0.
#[unsafe(no_mangle)]
pub extern "C" fn ccan_line(host: &mut HostHandle, out: &mut u32) -> u32
    ensures call { HostCallDoes (host_call.line result out.new)
        (held_by host.old) (held_by host.new) }
    ensures refused { result ≢ done → out.new ≡ out.old }
{
    if !host.handle.is_open() {
        return CLOSED;
    }
    *out = number_of(host.handle.seal.as_mut().line());
    DONE
}

/// Reads the word of 32 bits at an offset, in bytes from where the chip begins: its lower half and then its upper one, or both
/// at one moment, if they are of one flag or the bit timing.
#[unsafe(no_mangle)]
pub extern "C" fn ccan_read32(host: &mut HostHandle, offset: u32, out: &mut u32) -> u32
    ensures call { HostCallDoes (host_call.read32 offset result out.new)
        (held_by host.old) (held_by host.new) }
    ensures refused { result ≢ done → out.new ≡ out.old }
{
    if !host.handle.is_open() {
        return CLOSED;
    }
    let told = host.handle.seal.as_mut().read_word(offset);
    read_word_out(&told, out)
}

/// Writes the word of 32 bits at an offset, in bytes from where the chip begins: its upper half and then its lower one, or both
/// at one moment, if they are the bit timing.
#[unsafe(no_mangle)]
pub extern "C" fn ccan_write32(host: &mut HostHandle, offset: u32, value: u32) -> u32
    ensures { HostCallDoes (host_call.write32 offset value result)
        (held_by host.old) (held_by host.new) }
{
    if !host.handle.is_open() {
        return CLOSED;
    }
    let told = host.handle.seal.as_mut().write_word(offset, value);
    code_of_offset(&told)
}

/// Makes each object of the chip one of zeros, one after another, as the initialisation of the message RAM of a D_CAN does. The
/// interface registers have no part in it.
#[unsafe(no_mangle)]
pub extern "C" fn ccan_clear_objects(host: &mut HostHandle) -> u32
    ensures { HostCallDoes (host_call.clear result) (held_by host.old) (held_by host.new) }
{
    if !host.handle.is_open() {
        return CLOSED;
    }
    let told = host.handle.seal.as_mut().clear_objects();
    code_of_access(&told)
}
