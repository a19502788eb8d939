use ccan_object::{MOST_OBJECTS, Profile, Record};

/// The records that a shared memory was closed with.
#[derive(Clone, Copy, PartialEq, Eq, Debug)]
pub struct Final {
    /// How many objects the memory had.
    pub profile: Profile,
    /// The record of object 1 first. The records past the profile's last object are zero.
    pub records: [Record; MOST_OBJECTS],
}
