// A place for a boxed `Note`, as the seal above is one for a boxed `Held`.
ghost use Rattle.std.specs.Prelude.{◌≡◌, Some, None, IsSome};
ghost use Rattle.std.specs.declared.option.Option.{Option};
ghost use Rattle.std.specs.Coded.{coded_option};
ghost use Rattle.ccan_endless.specs.Note.{Told};
ghost use Rattle.ccan_c.specs.Seals.{note_coded, note_seal_owns};

use super::parts::Parts;
use ccan_endless::Note;
use std::alloc::Global;
use std::marker::Model;

/// Nothing, or a boxed `Note`. Dropping it forgets the box.
#[repr(C)]
#[derive(Drop)]
pub struct NoteSeal {
    ptr: *mut u8,
    alloc: Global,
    pub ghost value: { Option Told } by { coded_option note_coded },
}

impl Model for NoteSeal {
    ghost also_owns = { λ s. note_seal_owns s.alloc s.ptr s.value };
}

impl NoteSeal {
    pub fn of(note: Box<Note, Global>) -> NoteSeal
        ensures { result.value ≡ Some note.value }
    {
        NoteSeal::of_parts(Parts::of(note))
    }

    pub fn into_box(self) -> Box<Note, Global>
        requires { IsSome self.value }
        ensures { self.value ≡ Some result.value }
    {
        self.into_parts().into_box()
    }

    fn of_parts(parts: Parts<Note, Global>) -> NoteSeal
        ensures { result.value ≡ Some parts.value }
    {
        let Parts { ptr, alloc } = parts;
        NoteSeal {
            ptr: ptr as *mut u8,
            alloc,
        }
    }

    fn into_parts(self) -> Parts<Note, Global>
        requires { IsSome self.value }
        ensures { self.value ≡ Some result.value }
    {
        let NoteSeal { ptr, alloc } = self;
        Parts {
            ptr: ptr as *mut Note,
            alloc,
        }
    }

    pub fn empty(ptr: *mut u8, alloc: Global) -> NoteSeal
        ensures { result.value ≡ None }
    {
        NoteSeal { ptr, alloc }
    }
}

unsafe impl Send for NoteSeal {}
