ghost use Rattle.std.specs.Prelude.{◌≡◌, ◌≤◌, ◌↔◌, IsSome, IfSome};
ghost use Rattle.ccan_object.specs.Number.{requested};
ghost use Rattle.ccan_object.specs.Profile.{Holds, IsObject};

use crate::profile::Profile;
use std::marker::Model;

/// The number of a message object, 1 to 64; object 1 has the highest priority. The profile of a memory says which of
/// them it has. Contracts see the number.
#[derive(Clone, Copy, PartialEq, Eq, PartialOrd, Ord, Hash, Debug)]
pub struct ObjectNo {
    number: u8,
}

impl Model for ObjectNo {
    ghost use Rattle.std.specs.Prelude.{ℕ};
    ghost use Rattle.ccan_object.specs.Profile.{IsObject};

    ghost Value = { ℕ };

    ghost view = { λ a. a.number };

    ghost invariant = { λ a. IsObject a.number };

    ghost inverse = { λ n. record { number = n } };
}

impl ObjectNo {
    /// The object of this number, if some profile has it.
    pub fn new(number: u8) -> Option<ObjectNo>
        ensures known { IsSome result ↔ IsObject number }
        ensures number { IfSome result (λ object. object ≡ number) }
    {
        if 1 <= number && number <= Profile::Two.objects() {
            Some(ObjectNo { number })
        } else {
            None
        }
    }

    /// The object of this number.
    pub(crate) fn numbered(number: u8) -> ObjectNo
        requires { IsObject number }
        ensures { result ≡ number }
    {
        ObjectNo { number }
    }

    /// The object that a Command Request register names (User's Manual, section 3.3.1). Its low six bits count: in
    /// profile 1 0x01 to 0x20 are the number, 0x00 is 32 and 0x21 to 0x3f are 1 to 31; in profile 2 0x01 to 0x3f are
    /// the number and 0x00 is 64.
    pub fn from_request(profile: Profile, request: u16) -> ObjectNo
        ensures number { result ≡ requested profile request }
        ensures held { Holds profile result }
    {
        match (request % 64) as u8 % profile.objects() {
            0 => profile.last(),
            number => ObjectNo::numbered(number),
        }
    }

    /// Its number.
    pub fn get(self) -> u8
        ensures number { result ≡ self }
        ensures object { IsObject result }
    {
        self.number
    }
}
