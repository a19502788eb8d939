ghost use Rattle.std.specs.Prelude.{◌≡◌, Some, None, is_some, MatchOption};

use crate::seal::NoteSeal;
use ccan_endless::Note;
use std::alloc::Global;
use std::ptr::null_mut;

/// What a handle reported, for another handle of the same chip, or a place for it.
#[repr(C)]
pub struct NoteHandle {
    full: bool,
    pub seal: NoteSeal,
    ghost tells: { full ≡ is_some seal.value },
}

impl Drop for NoteHandle {
    fn drop(self) {
        drop(self.into_note());
    }
}

impl NoteHandle {
    /// A note that says this.
    pub(crate) fn told(note: Box<Note, Global>) -> NoteHandle
        ensures { result.seal.value ≡ Some note.value }
    {
        NoteHandle {
            full: true,
            seal: NoteSeal::of(note),
        }
    }

    /// A place for a note.
    pub fn empty(alloc: Global) -> NoteHandle
        ensures { result.seal.value ≡ None }
    {
        let nowhere: *mut u8 = null_mut();
        NoteHandle {
            full: false,
            seal: NoteSeal::empty(nowhere, alloc),
        }
    }

    /// Whether it says something.
    pub(crate) fn is_told(&self) -> bool
        ensures { result ≡ is_some self.now.seal.value }
    {
        self.full
    }

    pub(crate) fn into_note(self) -> Option<Box<Note, Global>>
        ensures { MatchOption result (self.seal.value ≡ None)
            (λ note. self.seal.value ≡ Some note.value) }
    {
        let NoteHandle { full, seal } = self;
        if full { Some(seal.into_box()) } else { None }
    }
}

/// What may go to another thread.
fn may_cross<T: Send>() {}

/// A note may, so C may make it on one thread and heed it on another.
pub fn notes_may_cross() {
    may_cross::<NoteHandle>();
}
