//! The records of a memory at its end, read from its last words.
ghost use Rattle.std.specs.Prelude.{◌≡◌, ◌+◌, ◌<◌, ◌≤◌, slice_index};
ghost use Rattle.std.specs.Slots.{IsFull, slots_items, slots_len};
ghost use Rattle.ccan_object.specs.Profile.{Holds};
ghost use Rattle.ccan_words.specs.Layout.{IsNumber};
ghost use Rattle.ccan_words.specs.Ending.{AreWordsOf, LeaveRecords, ShowRecord, SomeSettles};

use crate::layout::Layout;
use crate::version::record_in;
use atomic_table::Closed;
use ccan_object::{MOST_OBJECTS, Profile, Record};
use std::alloc::Global;

/// The records of all objects, and zero records past the profile's last.
pub fn last_records<L: Layout>(
    closed: &Closed<(), Global>,
    profile: Profile,
) -> [Record; MOST_OBJECTS]
    requires full { IsFull closed.now.words }
    requires size { slots_len closed.now.words ≡ (L.form profile).size }
    requires settled { SomeSettles (L.form profile) (slots_items closed.now.words) }
    ensures { LeaveRecords (L.form profile) (slots_items closed.now.words) result }
{
    let mut records = [Record::zero(); MOST_OBJECTS];
    for i in 0..usize::from(profile.objects()) {
        records[i] = last_record::<L>(closed, profile, i + 1);
    }
    records
}

/// The record of an object.
fn last_record<L: Layout>(closed: &Closed<(), Global>, profile: Profile, object: usize) -> Record
    requires full { IsFull closed.now.words }
    requires size { slots_len closed.now.words ≡ (L.form profile).size }
    requires settled { SomeSettles (L.form profile) (slots_items closed.now.words) }
    requires object { Holds profile object }
    ensures { ShowRecord (L.form profile) (slots_items closed.now.words) object result }
{
    let number = word_at::<L>(closed, profile, L::cell(profile, object));
    if number == 0 {
        return Record::zero();
    }
    let first = L::offset(profile, object);
    record_in(version_at::<L>(closed, profile, number, first))
}

/// Three words of a version.
fn version_at<L: Layout>(
    closed: &Closed<(), Global>,
    profile: Profile,
    number: u64,
    first: usize,
) -> [u64; 3]
    requires full { IsFull closed.now.words }
    requires size { slots_len closed.now.words ≡ (L.form profile).size }
    requires number { IsNumber L.MOST number }
    requires inside { first + 3 ≤ (L.form profile).width }
    ensures { AreWordsOf (L.form profile) (slots_items closed.now.words) number first result }
{
    // That a version's width is a number of words bounds the sums below.
    let _width = L::width(profile);
    let a = word_at::<L>(closed, profile, L::place(profile, number, first));
    let b = word_at::<L>(closed, profile, L::place(profile, number, first + 1));
    let c = word_at::<L>(closed, profile, L::place(profile, number, first + 2));
    [a, b, c]
}

/// A word.
fn word_at<L: Layout>(closed: &Closed<(), Global>, profile: Profile, place: usize) -> u64
    requires full { IsFull closed.now.words }
    requires size { slots_len closed.now.words ≡ (L.form profile).size }
    requires place { place < (L.form profile).size }
    ensures { slice_index (slots_items closed.now.words) place ≡ result }
{
    let _ = profile;
    closed.word(place)
}
