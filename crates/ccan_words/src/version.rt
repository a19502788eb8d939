//! Versions: how a look reads one, and how a change writes the next and publishes it.
ghost use Rattle.std.specs.Prelude.{◌≡◌, ◌≢◌, ◌<◌, ◌≤◌, slice_index};
ghost use Rattle.ccan_object.specs.declared.record.Record.{Record};
ghost use Rattle.ccan_object.specs.Profile.{Holds};
ghost use Rattle.ccan_object.specs.Packing.{packed};
ghost use Rattle.ccan_object.specs.Record.{IsRecord, zero_record};
ghost use Rattle.ccan_words.specs.declared.view.PortView.{PortView};
ghost use Rattle.ccan_words.specs.Layout.{IsNumber};
ghost use Rattle.ccan_words.specs.Port.{numbers_of};
ghost use Rattle.ccan_words.specs.Version.{Finds, IsContent, IsNextFor, IsReadyIn, IsRecordOf, IsSeatOf};
ghost use Rattle.ccan_words.specs.Version.{IsWrittenIn, PublishesIn};

use crate::layout::Layout;
use crate::steps::{exchange, look, note, read};
use crate::words::{Seat, Words};
use ccan_object::{ObjectNo, Record, pack, unpack};
use ccan_ram::{Change, Changed, Draft, PortName};

/// A version that a port is to publish: what a change makes of the record of an object, after the version that the
/// port's draft found.
#[derive(Clone, Copy, Debug)]
pub struct Version {
    /// Whose change it is.
    pub port: PortName,
    /// The number of the change.
    pub number: u64,
    /// The object that is changed.
    pub object: usize,
    /// The number of the version that the draft found, 0 if there was none.
    pub old: u64,
    /// The change to the record.
    pub change: Change,
    /// The record that the draft found.
    pub before: Record,
    /// The record that the change makes of it.
    pub after: Record,
    /// That record as it is packed.
    pub content: [u64; 3],
}

impl Version {
    ghost use Rattle.std.specs.Prelude.{◌≡◌, ◌<◌};
    ghost use Rattle.ccan_ram.specs.declared.change.Changed.{Changed};
    ghost use Rattle.ccan_words.specs.Version.{IsContent, version_of};

    /// The next version of a port that has made this many changes.
    #[inline(always)]
    pub fn of(port: PortName, used: u64, draft: &Draft, change: &Change) -> Version
        requires { used < 4096 }
        ensures version { result ≡ version_of port used draft.now change.now }
        ensures content { IsContent result }
    {
        let after = change.applied(&draft.held());
        let content = pack(&after);
        Version {
            port,
            number: port.index() as u64 * 65536 + (used + 1),
            object: number_of(draft.object()),
            old: draft.number(),
            change: *change,
            before: draft.held(),
            after,
            content,
        }
    }

    /// The answer once it is published.
    pub fn done(&self) -> Changed
        ensures { result ≡ Changed.Done self.now.before self.now.after self.now.number }
    {
        Changed::Done {
            before: self.before,
            after: self.after,
            number: self.number,
        }
    }
}

/// An object's number as an index.
pub fn number_of(object: ObjectNo) -> usize
    ensures { result ≡ object }
{
    usize::from(object.get())
}

/// The record that packs to these words. If none does, which happens in no version that was published, it is zero.
pub fn record_in(words: [u64; 3]) -> Record
    ensures { (object : Record) → IsRecord object → packed object ≡ words → result ≡ object }
{
    unpack(words).unwrap_or(Record::zero())
}

/// A look of a port at an object: the number of the last change that contends with it, and its record.
#[inline(always)]
pub fn found<L: Layout>(
    words: &Words<L>,
    seat: &mut Seat,
    port: PortName,
    object: usize,
) -> (u64, Record)
    requires table { numbers_of seat.old.table_id ≡ words.now.name }
    requires object { Holds words.now.profile object }
    requires held { (x : PortView) × IsSeatOf port x seat.old.me }
    ensures same { seat.new.table_id ≡ seat.old.table_id }
    ensures told { Finds (L.form words.now.profile) port object seat.old.me result.0
        result.1 seat.new.me }
{
    let number = look(words, seat, port, object);
    let held = fetch(words, seat, number, object);
    (number, held)
}

/// The record of an object in the version that a look found.
#[inline(always)]
pub fn fetch<L: Layout>(words: &Words<L>, seat: &mut Seat, number: u64, object: usize) -> Record
    requires table { numbers_of seat.old.table_id ≡ words.now.name }
    requires object { Holds words.now.profile object }
    requires number { number ≢ 0 → IsNumber L.MOST number }
    ensures same { (seat.new.table_id ≡ seat.old.table_id) × (seat.new.me ≡ seat.old.me) }
    ensures none { number ≡ 0 → result ≡ zero_record }
    ensures value { number ≢ 0
        → IsRecordOf (L.form words.now.profile) object number seat.old.me result }
{
    if number == 0 {
        return Record::zero();
    }
    // That a version's width is a number of words bounds the sums below.
    let _width = words.width();
    let first = words.offset(object);
    let a = read(words, seat, number, first);
    let b = read(words, seat, number, first + 1);
    let c = read(words, seat, number, first + 2);
    record_in([a, b, c])
}

/// Writes the version and publishes it, unless a change that contends came first. Gives the number that the object's
/// word held: the old one if the version was published.
pub fn publish<L: Layout>(words: &Words<L>, seat: &mut Seat, version: &Version) -> u64
    requires table { numbers_of seat.old.table_id ≡ words.now.name }
    requires content { IsContent version.now }
    requires ready { IsReadyIn (L.form words.now.profile) version.now seat.old.me }
    ensures same { seat.new.table_id ≡ seat.old.table_id }
    ensures told { PublishesIn (L.form words.now.profile) version.now seat.old.me result
        seat.new.me }
{
    write(words, seat, version);
    exchange(words, seat, version)
}

/// Writes the words of the version, which nobody else reads before it is published.
fn write<L: Layout>(words: &Words<L>, seat: &mut Seat, version: &Version)
    requires table { numbers_of seat.old.table_id ≡ words.now.name }
    requires content { IsContent version.now }
    requires ready { IsReadyIn (L.form words.now.profile) version.now seat.old.me }
    ensures same { seat.new.table_id ≡ seat.old.table_id }
    ensures written { IsWrittenIn (L.form words.now.profile) version.now
        (L.form words.now.profile).width seat.old.me seat.new.me }
{
    for i in 0..words.width() {
        let value = next_word(words, seat, version, i);
        note(words, seat, version.port, version.number, i, value);
    }
}

/// A word of the version: one of the changed record, or as it was.
fn next_word<L: Layout>(words: &Words<L>, seat: &mut Seat, version: &Version, word: usize) -> u64
    requires table { numbers_of seat.old.table_id ≡ words.now.name }
    requires object { Holds words.now.profile version.now.object }
    requires number { version.now.old ≢ 0 → IsNumber L.MOST version.now.old }
    requires content { IsContent version.now }
    requires word { word < (L.form words.now.profile).width }
    ensures same { (seat.new.table_id ≡ seat.old.table_id) × (seat.new.me ≡ seat.old.me) }
    ensures value { IsNextFor (L.form words.now.profile) version.now seat.old.me word result }
{
    let first = words.offset(version.object);
    if word >= first && word - first < 3 {
        word_of(&version.content, word - first)
    } else if version.old == 0 {
        0
    } else {
        read(words, seat, version.old, word)
    }
}

/// A word of a packed record.
fn word_of(from: &[u64; 3], word: usize) -> u64
    requires { word < 3 }
    ensures { result ≡ slice_index from.now word }
{
    from[word]
}
