ghost use Rattle.std.specs.Prelude.{◌≡◌};
ghost use Rattle.ccan_c.specs.Load.{c_load, load_kind, load_object, loaded_record};

use crate::shown_frame::ShownFrame;
use crate::shown_record::ShownRecord;
use ccan_bus::LoadAnswer;
use ccan_object::{ObjectNo, Record};

/// What came of a load.
#[repr(C)]
#[derive(Clone, Copy, PartialEq, Eq, Debug)]
pub struct ShownLoad {
    /// 0 nothing, 1 loaded, 2 held, 3 busy, 4 spent.
    pub kind: u32,
    /// The object, 0 if there is none.
    pub object: u32,
    /// The record of the object that is loaded, after its start; zero if none is.
    pub held: ShownRecord,
    /// The frame that is to be sent of it, zero if nothing is loaded.
    pub frame: ShownFrame,
}

/// Which kind of answer it is.
fn kind_of(loading: &LoadAnswer) -> u32
    ensures { result ≡ load_kind loading.now }
{
    match loading {
        LoadAnswer::Nothing => 0,
        LoadAnswer::Loaded(_, _) => 1,
        LoadAnswer::Held(_) => 2,
        LoadAnswer::Busy(_) => 3,
        LoadAnswer::Spent(_) => 4,
    }
}

/// The object that it speaks of, 0 if there is none.
fn object_of(loading: &LoadAnswer) -> u32
    ensures { result ≡ load_object loading.now }
{
    match loading {
        LoadAnswer::Nothing => 0,
        LoadAnswer::Loaded(object, _)
        | LoadAnswer::Held(object)
        | LoadAnswer::Busy(object)
        | LoadAnswer::Spent(object) => u32::from(object.get()),
    }
}

/// The record of what is loaded.
fn record_of(loaded: &Option<(ObjectNo, Record)>) -> Record
    ensures { result ≡ loaded_record loaded.now }
{
    match loaded {
        Some((_, started)) => *started,
        None => Record::zero(),
    }
}

impl ShownLoad {
    /// What came of a load, after which this is loaded.
    pub fn of(loading: &LoadAnswer, loaded: &Option<(ObjectNo, Record)>) -> ShownLoad
        ensures { result ≡ c_load loading.now loaded.now }
    {
        ShownLoad {
            kind: kind_of(loading),
            object: object_of(loading),
            held: ShownRecord::of(&record_of(loaded)),
            frame: ShownFrame::of_loaded(loaded),
        }
    }
}
