ghost use Rattle.std.specs.Prelude.{◌≡◌, ◌+◌, ◌<◌, ◌≤◌};
ghost use Rattle.ccan_object.specs.Profile.{Holds};
ghost use Rattle.ccan_words.specs.Layout.{IsNumber};

use ccan_object::Profile;

/// Where the words of a memory lie: the word of each object, and the words of each version, which a change's number
/// names.
pub trait Layout {
    ghost use Rattle.std.specs.Prelude.{ℕ, Bool};
    ghost use Rattle.ccan_object.specs.declared.profile.Profile.{Profile};
    ghost use Rattle.ccan_words.specs.Layout.{Form, Lies, Shows, Makes};

    ghost MOST: { ℕ };

    /// The most changes that a port may be given.
    const MOST: u64;

    /// Whether a change at the first object contends with the second.
    ghost contends: { ℕ → ℕ → Bool };

    ghost form: { (profile : Profile) → Form profile MOST contends };

    /// How many words there are.
    fn size(profile: Profile) -> usize
        ensures { result ≡ (form profile).size };

    /// How many words a version has.
    fn width(profile: Profile) -> usize
        ensures { result ≡ (form profile).width };

    /// The place of an object's word.
    fn cell(profile: Profile, object: usize) -> usize
        requires { Holds profile object }
        ensures { result ≡ (form profile).cell object };

    /// The place of a word of the version with this number.
    fn place(profile: Profile, number: u64, word: usize) -> usize
        requires number { IsNumber MOST number }
        requires word { word < (form profile).width }
        ensures { result ≡ (form profile).place number word };

    /// Where the object's record begins in a version.
    fn offset(profile: Profile, object: usize) -> usize
        requires { Holds profile object }
        ensures value { result ≡ (form profile).offset object }
        ensures inside { result + 3 ≤ (form profile).width };

    ghost lies: { (profile : Profile) → Lies (form profile) };

    ghost shows: { (profile : Profile) → Shows (form profile) };

    ghost makes: { (profile : Profile) → Makes (form profile) };
}
