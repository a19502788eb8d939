use crate::layout::Layout;
use ccan_object::Profile;

/// One word for all objects, and versions of the whole memory: the packed records of all objects.
pub struct OneWord;

impl Layout for OneWord {
    ghost use Rattle.ccan_words.specs.OneWord.{root_form, any_object};
    ghost use Rattle.ccan_words.specs.Laws.{root_lies, root_shows, root_makes};

    ghost MOST = { 64 };

    const MOST: u64 = 64;

    ghost contends = { any_object };

    ghost form = { root_form };

    fn size(profile: Profile) -> usize {
        let _ = profile;
        36872
    }

    fn width(profile: Profile) -> usize {
        usize::from(profile.objects()) * 3
    }

    fn cell(profile: Profile, object: usize) -> usize {
        let _ = (profile, object);
        0
    }

    // The versions lie equally far apart in both profiles.
    fn place(profile: Profile, number: u64, word: usize) -> usize {
        let _ = profile.objects();
        let port = (number / 65536) as usize;
        let count = (number % 65536) as usize;
        8 + port * 12288 + (count - 1) * 192 + word
    }

    fn offset(profile: Profile, object: usize) -> usize {
        let _ = profile.objects();
        (object - 1) * 3
    }

    ghost lies = { root_lies };

    ghost shows = { root_shows };

    ghost makes = { root_makes };
}
