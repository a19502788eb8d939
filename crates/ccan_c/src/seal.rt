//! A place for a boxed `Held`, in a type that C can hold: a pointer that does not say what it leads to.
ghost use Rattle.std.specs.Prelude.{◌≡◌, Some, None, IsSome};
ghost use Rattle.std.specs.declared.option.Option.{Option};
ghost use Rattle.std.specs.Coded.{coded_option};
ghost use Rattle.ccan_c.specs.declared.held.Held.{Held as Inner};
ghost use Rattle.ccan_c.specs.Seals.{seal_owns, held_coded};

mod note;
mod parts;

use crate::held::Held;
pub use note::NoteSeal;
use parts::Parts;
use std::alloc::Global;
use std::marker::Model;

/// Nothing, or a boxed `Held`. Dropping it forgets the box.
#[repr(C)]
#[derive(Drop)]
pub struct Seal {
    ptr: *mut u8,
    alloc: Global,
    pub ghost value: { Option Inner } by { coded_option held_coded },
}

impl Model for Seal {
    ghost also_owns = { λ s. seal_owns s.alloc s.ptr s.value };
}

impl Seal {
    ghost use Rattle.std.specs.Borrow.{sem};
    ghost use Rattle.ccan_c.specs.Lending.{LendsHeld};

    pub fn of(held: Box<Held, Global>) -> Seal
        ensures { result.value ≡ Some held.value }
    {
        Seal::of_parts(Parts::of(held))
    }

    pub fn into_box(self) -> Box<Held, Global>
        requires { IsSome self.value }
        ensures { self.value ≡ Some result.value }
    {
        self.into_parts().into_box()
    }

    fn of_parts(parts: Parts<Held, Global>) -> Seal
        ensures { result.value ≡ Some parts.value }
    {
        let Parts { ptr, alloc } = parts;
        Seal {
            ptr: ptr as *mut u8,
            alloc,
        }
    }

    fn into_parts(self) -> Parts<Held, Global>
        requires { IsSome self.value }
        ensures { self.value ≡ Some result.value }
    {
        let Seal { ptr, alloc } = self;
        Parts {
            ptr: ptr as *mut Held,
            alloc,
        }
    }

    pub fn empty(ptr: *mut u8, alloc: Global) -> Seal
        ensures { result.value ≡ None }
    {
        Seal { ptr, alloc }
    }

    /// What the box holds, in its place.
    pub fn as_mut(&mut self) -> &mut Held
        requires { IsSome self.old.value }
        ensures* writes_back { sem 𝓛 (LendsHeld self.entry result) }
        ensures value { self.old.value ≡ Some result.now }
    {
        unsafe { &mut *(self.ptr as *mut Held) }
    }
}

unsafe impl Send for Seal {}
