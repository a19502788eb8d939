//! How a handle shows another what its port has seen, so that what the other does comes after that.
ghost use Rattle.std.specs.Prelude.{◌≡◌, ◌≢◌, None};
ghost use Rattle.ccan_c.specs.Bus.{held_on};
ghost use Rattle.ccan_c.specs.BusCall as bus_call;
ghost use Rattle.ccan_c.specs.BusCall.{BusCallDoes};
ghost use Rattle.ccan_c.specs.Codes.{done};
ghost use Rattle.ccan_c.specs.Host.{held_by};
ghost use Rattle.ccan_c.specs.HostCall as host_call;
ghost use Rattle.ccan_c.specs.HostCall.{HostCallDoes};
ghost use Rattle.ccan_c.specs.Note.{IsOfChip, told_by};

use crate::bus_handle::BusHandle;
use crate::code::{CLOSED, DONE, NO_MEMORY, UNTOLD};
use crate::held::Held;
use crate::host_handle::HostHandle;
use crate::note_handle::NoteHandle;
use ccan_endless::Note;
use ccan_registers::{heed, tell};
use std::alloc::Global;
use std::mem::replace;

impl Held {
    ghost use Rattle.std.specs.Prelude.{IfSome};
    ghost use Rattle.ccan_registers.specs.Notes.{Heeds};
    ghost use Rattle.ccan_c.specs.Held.{pass_of, port_of};
    ghost use Rattle.ccan_c.specs.Steps.{Steps};

    /// What the port has seen so far. None if memory ran out.
    pub(crate) fn tell(&mut self, alloc: Global) -> Option<Box<Note, Global>>
        ensures kept { self.new ≡ self.old }
        ensures told { IfSome result (λ note. note.value.whole ≡ (port_of self.old).whole) }
        ensures chip { IfSome result (λ note. note.value.memory ≡ (pass_of self.old).memory) }
    {
        let note = tell(&mut self.chip);
        match Box::new(alloc, note) {
            Ok(note) => Some(note),
            Err(_) => None,
        }
    }

    /// Shows the port what the note says.
    pub(crate) fn heed(&mut self, note: Note)
        requires { note.memory ≡ (pass_of self.old).memory }
        ensures { Steps (λ terms seen added. Heeds terms.port note.whole seen added)
            self.old self.new }
    {
        heed(&mut self.chip, note);
    }
}

/// Notes all that the handle's port has seen of the chip, for another handle of the chip. What the note said before is dropped.
#[unsafe(no_mangle)]
pub extern "C" fn ccan_tell(alloc: Global, host: &mut HostHandle, note: &mut NoteHandle) -> u32
    ensures call { HostCallDoes (host_call.tell (told_by note.new) result)
        (held_by host.old) (held_by host.new) }
    ensures chip { result ≡ done → IsOfChip (held_by host.new) (told_by note.new) }
    ensures refused { result ≢ done → note.new ≡ note.old }
{
    if !host.handle.is_open() {
        return CLOSED;
    }
    let Some(told) = host.handle.seal.as_mut().tell(alloc) else {
        return NO_MEMORY;
    };
    *note = NoteHandle::told(told);
    DONE
}

/// Shows the handle's port what the note says: what the handle does from now on comes after all that the port of the note had
/// seen. The note is then empty.
#[unsafe(no_mangle)]
pub extern "C" fn ccan_heed(alloc: Global, host: &mut HostHandle, note: &mut NoteHandle) -> u32
    requires chip { IsOfChip (held_by host.old) (told_by note.old) }
    ensures call { HostCallDoes (host_call.heed (told_by note.old) result)
        (held_by host.old) (held_by host.new) }
    ensures heeded { result ≡ done → told_by note.new ≡ None }
    ensures refused { result ≢ done → note.new ≡ note.old }
{
    if !host.handle.is_open() {
        return CLOSED;
    }
    if !note.is_told() {
        return UNTOLD;
    }
    let Some(told) = replace(note, NoteHandle::empty(alloc)).into_note() else {
        unreachable!();
    };
    host.handle.seal.as_mut().heed(Box::into_inner(told));
    DONE
}

/// As `ccan_tell`, for the bus's handle.
#[unsafe(no_mangle)]
pub extern "C" fn ccan_bus_tell(alloc: Global, bus: &mut BusHandle, note: &mut NoteHandle) -> u32
    ensures call { BusCallDoes (bus_call.tell (told_by note.new) result)
        (held_on bus.old) (held_on bus.new) }
    ensures chip { result ≡ done → IsOfChip (held_on bus.new) (told_by note.new) }
    ensures refused { result ≢ done → note.new ≡ note.old }
{
    if !bus.handle.is_open() {
        return CLOSED;
    }
    let Some(told) = bus.handle.seal.as_mut().tell(alloc) else {
        return NO_MEMORY;
    };
    *note = NoteHandle::told(told);
    DONE
}

/// As `ccan_heed`, for the bus's handle.
#[unsafe(no_mangle)]
pub extern "C" fn ccan_bus_heed(alloc: Global, bus: &mut BusHandle, note: &mut NoteHandle) -> u32
    requires chip { IsOfChip (held_on bus.old) (told_by note.old) }
    ensures call { BusCallDoes (bus_call.heed (told_by note.old) result)
        (held_on bus.old) (held_on bus.new) }
    ensures heeded { result ≡ done → told_by note.new ≡ None }
    ensures refused { result ≢ done → note.new ≡ note.old }
{
    if !bus.handle.is_open() {
        return CLOSED;
    }
    if !note.is_told() {
        return UNTOLD;
    }
    let Some(told) = replace(note, NoteHandle::empty(alloc)).into_note() else {
        unreachable!();
    };
    bus.handle.seal.as_mut().heed(Box::into_inner(told));
    DONE
}

/// Empties a note that no handle is to heed any more, and gives its memory back. An empty note stays empty.
#[unsafe(no_mangle)]
pub extern "C" fn ccan_forget(alloc: Global, note: &mut NoteHandle) -> u32
    ensures empty { told_by note.new ≡ None }
    ensures code { result ≡ done }
{
    *note = NoteHandle::empty(alloc);
    DONE
}
