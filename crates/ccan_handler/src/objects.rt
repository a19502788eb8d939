ghost use Rattle.std.specs.Prelude.{◌≡◌};
ghost use Rattle.ccan_object.specs.Profile.{Holds, IsObject};

use ccan_object::{ObjectNo, Profile};

/// The object of a number that has one.
pub(crate) fn nth(number: u8) -> ObjectNo
    requires { IsObject number }
    ensures { result ≡ number }
{
    ObjectNo::new(number).unwrap()
}

/// The first object of a profile.
pub(crate) fn first(profile: Profile) -> ObjectNo
    ensures number { result ≡ 1 }
    ensures held { Holds profile result }
{
    let _some = profile.objects();
    nth(1)
}
