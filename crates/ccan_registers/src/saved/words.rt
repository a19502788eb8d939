//! A saved chip as words, and the chip that some words are.
ghost use Rattle.std.specs.Prelude.{◌≡◌, ◌≤◌, IfOk, slice_index};
ghost use Rattle.ccan_line.specs.Limits.{most_nodes};
ghost use Rattle.std.specs.List.{flat_map};
ghost use Rattle.ccan_object.specs.Packing.{packed};
ghost use Rattle.ccan_registers.specs.declared.saved.chip.Saved.{Saved};
ghost use Rattle.ccan_registers.specs.Format as format;
ghost use Rattle.ccan_registers.specs.Format.{AreWords, IsSaved, format_name, format_version, head_words, interface_words};

use crate::interface_set::InterfaceSet;
use crate::saved::chip::Saved;
use crate::saved::field::Field;
use crate::saved::fields::{
    controller_in, interface_in, map_in, map_word, others_in, profile_in, tries_in,
};
use crate::saved::objects::records_in;
use bitflags::Flags;
use ccan_object::{MOST_OBJECTS, Record, pack};

/// The text `ccansave`, the first letter lowest.
pub(crate) const NAME: u64 = 0x657661736e616363;
/// The version of the format.
pub(crate) const VERSION: u64 = 2;
/// How many words a saved chip has.
pub(crate) const WORDS: usize = 209;
/// How many of them come before the objects.
const HEAD: usize = 17;
/// How many are the objects'.
const OBJECTS: usize = 192;

/// The words of an interface.
fn interface_words(set: &InterfaceSet) -> [u64; 5]
    ensures { result ≡ interface_words set.now }
{
    let [identifiers, control, content] = pack(&set.registers.buffer());
    let command = u64::from(set.registers.command().bits());
    [u64::from(set.asked), command, identifiers, control, content]
}

/// The words before the objects.
fn head_words(saved: &Saved) -> [u64; HEAD]
    ensures { result ≡ head_words saved.now }
{
    let a = interface_words(&saved.if1);
    let b = interface_words(&saved.if2);
    [
        NAME,
        VERSION,
        u64::from(saved.profile.objects()),
        map_word(saved.map),
        u64::from(saved.tries.get()),
        u64::from(saved.others),
        saved.controller.pack(),
        a[0],
        a[1],
        a[2],
        a[3],
        a[4],
        b[0],
        b[1],
        b[2],
        b[3],
        b[4],
    ]
}

/// The words of the objects.
fn object_words(records: &[Record; MOST_OBJECTS]) -> [u64; OBJECTS]
    ensures { result ≡ flat_map packed records.now }
{
    let mut words = [0; OBJECTS];
    for (k, record) in records.iter().enumerate() {
        words[3 * k..3 * k + 3].copy_from_slice(&pack(record));
    }
    words
}

/// The words of a saved chip.
pub(crate) fn words_of(saved: &Saved) -> [u64; WORDS]
    ensures { result ≡ format.words_of saved.now }
{
    let mut words = [0; WORDS];
    words[..HEAD].copy_from_slice(&head_words(saved));
    words[HEAD..].copy_from_slice(&object_words(&saved.records));
    words
}

/// The saved chip that these words are.
pub(crate) fn saved_in(words: &[u64; WORDS]) -> Result<Saved, Field>
    requires name { slice_index words.now 0 ≡ format_name }
    requires version { slice_index words.now 1 ≡ format_version }
    ensures fits { AreWords words.now }
    ensures found { IfOk result (λ saved. format.words_of saved ≡ words.now) }
    ensures few { IfOk result (λ saved. saved.others ≤ most_nodes) }
    ensures only { (saved : Saved) → IsSaved saved → format.words_of saved ≡ words.now
        → result ≡ Ok saved }
{
    let profile = profile_in(words[2])?;
    let map = map_in(words[3])?;
    let tries = tries_in(words[4])?;
    let others = others_in(words[5])?;
    let controller = controller_in(words[6])?;
    let a = [words[7], words[8], words[9], words[10], words[11]];
    let if1 = interface_in(profile, a, Field::If1)?;
    let b = [words[12], words[13], words[14], words[15], words[16]];
    let if2 = interface_in(profile, b, Field::If2)?;
    let records = records_in(profile, &words[HEAD..])?;
    Ok(Saved {
        profile,
        map,
        tries,
        others,
        if1,
        if2,
        controller,
        records,
    })
}
