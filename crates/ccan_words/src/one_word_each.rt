use crate::layout::Layout;
use ccan_object::Profile;

/// A word for each object, and versions of three words: the record of one object as it is packed.
pub struct OneWordEach;

impl Layout for OneWordEach {
    ghost use Rattle.ccan_words.specs.OneWordEach.{word_form, same_object};
    ghost use Rattle.ccan_words.specs.Laws.{word_lies, word_shows, word_makes};

    ghost MOST = { 4096 };

    const MOST: u64 = 4096;

    ghost contends = { same_object };

    ghost form = { word_form };

    fn size(profile: Profile) -> usize {
        let _ = profile;
        37376
    }

    fn width(profile: Profile) -> usize {
        let _ = profile;
        3
    }

    fn cell(profile: Profile, object: usize) -> usize {
        let _ = profile.objects();
        (object - 1) * 8
    }

    // The versions begin after the words of 64 objects in both profiles.
    fn place(profile: Profile, number: u64, word: usize) -> usize {
        let _ = profile;
        let port = (number / 65536) as usize;
        let count = (number % 65536) as usize;
        512 + port * 12288 + (count - 1) * 3 + word
    }

    fn offset(profile: Profile, object: usize) -> usize {
        let _ = (profile, object);
        0
    }

    ghost lies = { word_lies };

    ghost shows = { word_shows };

    ghost makes = { word_makes };
}
