ghost use Rattle.std.specs.Prelude.{◌≡◌, ◌≤◌, ◌↔◌, IsTrue};
ghost use Rattle.ccan_object.specs.Profile.{Holds, objects_in};
ghost use Rattle.ccan_object.specs.declared.profile.Profile.TheVariants.{Two};

use crate::number::ObjectNo;

/// The number of message objects that the larger profile has, for tables that serve both.
pub const MOST_OBJECTS: usize = 64;

/// How many message objects the message RAM has.
#[derive(Clone, Copy, PartialEq, Eq, PartialOrd, Ord, Hash, Debug, Default)]
pub enum Profile {
    /// 32 message objects, as the User's Manual has them (section 3.3.4).
    #[default]
    One,
    /// 64 message objects, which is this project's own.
    Two,
}

impl Profile {
    /// How many message objects there are. They are numbered from 1.
    pub fn objects(self) -> u8
        ensures number { result ≡ objects_in self }
        ensures least { 1 ≤ result }
        ensures most { result ≤ MOST_OBJECTS }
    {
        match self {
            Profile::One => 32,
            Profile::Two => 64,
        }
    }

    /// Whether the object is one of them.
    pub fn holds(self, object: ObjectNo) -> bool
        ensures { IsTrue result ↔ Holds self object }
    {
        object.get() <= self.objects()
    }

    /// The last of the message objects, which has the lowest priority.
    pub fn last(self) -> ObjectNo
        ensures number { result ≡ objects_in self }
        ensures held { Holds self result }
    {
        ObjectNo::numbered(self.objects())
    }
}
