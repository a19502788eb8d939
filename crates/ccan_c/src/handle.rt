ghost use Rattle.std.specs.Prelude.{◌≡◌, ◌≢◌, Some, None, is_some, IsSome, MatchOption};

use crate::held::Held;
use crate::seal::Seal;
use std::alloc::Global;
use std::ptr::null_mut;

/// A handle of a port, or a place for one.
#[repr(C)]
pub struct Handle {
    full: bool,
    pub seal: Seal,
    ghost tells: { full ≡ is_some seal.value },
}

impl Drop for Handle {
    fn drop(self) {
        drop(self.into_held());
    }
}

impl Handle {
    /// An open handle.
    pub(crate) fn open(held: Box<Held, Global>) -> Handle
        ensures { result.seal.value ≡ Some held.value }
    {
        Handle {
            full: true,
            seal: Seal::of(held),
        }
    }

    /// A place for a handle.
    pub(crate) fn closed(alloc: Global) -> Handle
        ensures { result.seal.value ≡ None }
    {
        let nowhere: *mut u8 = null_mut();
        Handle {
            full: false,
            seal: Seal::empty(nowhere, alloc),
        }
    }

    pub(crate) fn is_open(&self) -> bool
        ensures { result ≡ is_some self.now.seal.value }
    {
        self.full
    }

    pub(crate) fn into_held(self) -> Option<Box<Held, Global>>
        ensures { MatchOption result (self.seal.value ≡ None)
            (λ b. self.seal.value ≡ Some b.value) }
    {
        let Handle { full, seal } = self;
        if full { Some(seal.into_box()) } else { None }
    }
}

/// What may go to another thread.
fn may_cross<T: Send>() {}

/// A handle may, so C may use each on a thread of its own.
pub fn handles_may_cross() {
    may_cross::<Handle>();
}
