use crate::course::Course;
use crate::line_end::LineEnd;
use ccan_accept::Frame;
use ccan_object::{ObjectNo, Record};

/// What a scan of the objects is for.
#[derive(Clone, Copy, PartialEq, Eq, Hash, Debug)]
pub enum Aim {
    /// The start of a transmission: the first object that is ready.
    Start,
    /// The store of another node's frame: the first object that accepts it.
    Store(Frame),
    /// The same in loop back mode, where the frame is the controller's own.
    StoreOwn {
        /// The frame.
        frame: Frame,
        /// The object that was sent.
        sent: ObjectNo,
        /// Its record after the finish.
        finished: Record,
    },
}

/// What an attempt of a change is for.
#[derive(Clone, Copy, PartialEq, Eq, Hash, Debug)]
pub enum Job {
    /// It is that of a scan.
    Scan(Aim),
    /// The finish of an object whose frame, this one, was sent.
    Finish(Frame),
    /// The same in loop back mode, where this frame is received afterwards.
    FinishOwn(Frame),
}

/// Where the bus's port is within a line.
#[derive(Clone, Copy, PartialEq, Eq, Hash, Debug)]
pub enum BusPoint {
    /// In a line that asks for flags.
    Asking {
        /// How many looks were made.
        looks: u32,
        /// The word of a flag of all objects so far, 0 if no such word is asked for.
        word: u64,
    },
    /// In a scan, about to look at an object.
    Seeking {
        /// What the scan is for.
        aim: Aim,
        /// The object.
        object: ObjectNo,
    },
    /// About to begin an attempt of a change.
    Attempting {
        /// What it is for.
        job: Job,
        /// Its object.
        object: ObjectNo,
    },
    /// In a round whose load is done: its decision is next.
    Deciding,
}

/// What a line of the bus comes to.
pub type BusCourse = Course<BusPoint, LineEnd>;

/// How a scan ends.
#[derive(Clone, Copy, PartialEq, Eq, Debug)]
pub enum ScanEnd {
    /// No object fits.
    FoundNone,
    /// The change of this object is made, and left this record.
    MadeAt(ObjectNo, Record),
    /// It is given up after the last try.
    GaveUpAt(ObjectNo),
    /// No change is left to the port.
    SpentAt(ObjectNo),
}
