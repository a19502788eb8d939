//! The steps of a seat on the words. No other file of this crate calls `atomic_table`'s steps: all others speak of
//! histories. Each step at a port has two functions, since a proof picks what a step is made for where `Brand` is
//! passed.
ghost use Rattle.std.specs.Prelude.{◌≡◌, ◌<◌, ◌≤◌, [], length, Some, None};
ghost use Rattle.std.specs.Slots.{slots_items, slots_len, IsFull};
ghost use Rattle.atomic_table.specs.Table.{Final, Seen};
ghost use Rattle.ccan_object.specs.Profile.{Holds};
ghost use Rattle.ccan_ram.specs.History.{changes_by, next_number};
ghost use Rattle.ccan_words.specs.declared.view.PortView.{PortView};
ghost use Rattle.ccan_ram.specs.ByPort.{holding, only, together, with_held};
ghost use Rattle.ccan_words.specs.Layout.{IsNumber};
ghost use Rattle.ccan_words.specs.Rule.{Keeps};
ghost use Rattle.ccan_words.specs.Plays.{Exchanges, IsDraftedIn, IsNoting, Looks, Notes, Reads, Watches};
ghost use Rattle.ccan_words.specs.Picture.{CountsOn, Poses};
ghost use Rattle.ccan_words.specs.Port.{numbers_of};

use crate::layout::Layout;
use crate::plays::{
    Counting, Deed, Exchanging, Joining, Looking, Noting, Parting, Posing, Reading, Watching,
};
use crate::version::Version;
use crate::words::{Seat, Words};
use atomic_table::Closed;
use ccan_ram::PortName;
use std::alloc::Global;
use std::marker::Brand;

/// A look of a port at an object: the number of the last change that contends there.
pub fn look<L: Layout>(words: &Words<L>, seat: &mut Seat, port: PortName, object: usize) -> u64
    requires table { numbers_of seat.old.table_id ≡ words.now.name }
    requires object { Holds words.now.profile object }
    requires held { (x : PortView) × (holding port seat.old.me.0 ≡ Some x) }
    ensures same { seat.new.table_id ≡ seat.old.table_id }
    ensures told { Looks (L.form words.now.profile) port object seat.old.me result seat.new.me }
{
    look_as::<L, Brand>(words, seat, port, object)
}

fn look_as<L: Layout, D: Deed>(
    words: &Words<L>,
    seat: &mut Seat,
    _port: PortName,
    object: usize,
) -> u64
    requires table { numbers_of seat.old.table_id ≡ words.now.name }
    requires profile { D.profile ≡ words.now.profile }
    requires deed { D.object ≡ object }
    requires object { Holds words.now.profile object }
    requires held { (x : PortView) × (holding D.port seat.old.me.0 ≡ Some x) }
    ensures same { seat.new.table_id ≡ seat.old.table_id }
    ensures told { Looks (L.form D.profile) D.port D.object seat.old.me result seat.new.me }
{
    let word = L::cell(words.key.profile, object);
    words.table.shared.load::<Looking<L, D>>(seat, word)
}

/// Sees a history that goes on from what the seat's ports have seen, without an event.
pub fn watch<L: Layout>(words: &Words<L>, seat: &mut Seat)
    requires table { numbers_of seat.old.table_id ≡ words.now.name }
    ensures same { seat.new.table_id ≡ seat.old.table_id }
    ensures told { Watches (L.form words.now.profile) seat.old.me seat.new.me }
{
    watch_as::<L, Brand>(words, seat);
}

fn watch_as<L: Layout, D: Deed>(words: &Words<L>, seat: &mut Seat)
    requires table { numbers_of seat.old.table_id ≡ words.now.name }
    requires profile { D.profile ≡ words.now.profile }
    ensures same { seat.new.table_id ≡ seat.old.table_id }
    ensures told { Watches (L.form D.profile) seat.old.me seat.new.me }
{
    let word = L::cell(words.key.profile, 1);
    let _ = words.table.shared.load::<Watching<L, D>>(seat, word);
}

/// The number of the last change that contends with an object. It makes no event.
pub fn head<L: Layout>(words: &Words<L>, seat: &mut Seat, object: usize) -> u64
    requires table { numbers_of seat.old.table_id ≡ words.now.name }
    requires object { Holds words.now.profile object }
    ensures same { seat.new.table_id ≡ seat.old.table_id }
    ensures told { CountsOn (L.form words.now.profile) object seat.old.me result seat.new.me }
{
    head_as::<L, Brand>(words, seat, object)
}

fn head_as<L: Layout, D: Deed>(words: &Words<L>, seat: &mut Seat, object: usize) -> u64
    requires table { numbers_of seat.old.table_id ≡ words.now.name }
    requires profile { D.profile ≡ words.now.profile }
    requires deed { D.object ≡ object }
    requires object { Holds words.now.profile object }
    ensures same { seat.new.table_id ≡ seat.old.table_id }
    ensures told { CountsOn (L.form D.profile) D.object seat.old.me result seat.new.me }
{
    let word = L::cell(words.key.profile, object);
    words.table.shared.load::<Counting<L, D>>(seat, word)
}

/// Looks of a port at all objects, in one step.
pub fn pose<L: Layout>(words: &Words<L>, seat: &mut Seat, port: PortName)
    requires table { numbers_of seat.old.table_id ≡ words.now.name }
    requires held { (x : PortView) × (holding port seat.old.me.0 ≡ Some x) }
    ensures same { seat.new.table_id ≡ seat.old.table_id }
    ensures told { Poses (L.form words.now.profile) port seat.old.me seat.new.me }
{
    pose_as::<L, Brand>(words, seat, port);
}

fn pose_as<L: Layout, D: Deed>(words: &Words<L>, seat: &mut Seat, _port: PortName)
    requires table { numbers_of seat.old.table_id ≡ words.now.name }
    requires profile { D.profile ≡ words.now.profile }
    requires held { (x : PortView) × (holding D.port seat.old.me.0 ≡ Some x) }
    ensures same { seat.new.table_id ≡ seat.old.table_id }
    ensures told { Poses (L.form D.profile) D.port seat.old.me seat.new.me }
{
    let word = L::cell(words.key.profile, 1);
    let _ = words.table.shared.load::<Posing<L, D>>(seat, word);
}

/// A word of a version.
pub fn read<L: Layout>(words: &Words<L>, seat: &mut Seat, number: u64, word: usize) -> u64
    requires table { numbers_of seat.old.table_id ≡ words.now.name }
    requires number { IsNumber L.MOST number }
    requires word { word < (L.form words.now.profile).width }
    ensures same { seat.new.table_id ≡ seat.old.table_id }
    ensures told { Reads (L.form words.now.profile) ((L.form words.now.profile).place number word)
        seat.old.me result seat.new.me }
{
    read_as::<L, Brand>(words, seat, number, word)
}

fn read_as<L: Layout, D: Deed>(words: &Words<L>, seat: &mut Seat, number: u64, word: usize) -> u64
    requires table { numbers_of seat.old.table_id ≡ words.now.name }
    requires profile { D.profile ≡ words.now.profile }
    requires number { IsNumber L.MOST number }
    requires word { word < (L.form words.now.profile).width }
    ensures same { seat.new.table_id ≡ seat.old.table_id }
    ensures told { Reads (L.form D.profile) ((L.form D.profile).place number word)
        seat.old.me result seat.new.me }
{
    let place = L::place(words.key.profile, number, word);
    words.table.shared.load::<Reading<L, D>>(seat, place)
}

/// Writes a word of the port's next version.
pub fn note<L: Layout>(
    words: &Words<L>,
    seat: &mut Seat,
    port: PortName,
    number: u64,
    word: usize,
    value: u64,
)
    requires table { numbers_of seat.old.table_id ≡ words.now.name }
    requires word { word < (L.form words.now.profile).width }
    requires held { IsNoting L.MOST port number word seat.old.me }
    ensures same { seat.new.table_id ≡ seat.old.table_id }
    ensures told { Notes port word value seat.old.me seat.new.me }
{
    note_as::<L, Brand>(words, seat, port, number, word, value);
}

fn note_as<L: Layout, D: Deed>(
    words: &Words<L>,
    seat: &mut Seat,
    _port: PortName,
    number: u64,
    word: usize,
    value: u64,
)
    requires table { numbers_of seat.old.table_id ≡ words.now.name }
    requires deed { D.word ≡ word }
    requires word { word < (L.form words.now.profile).width }
    requires held { IsNoting L.MOST D.port number word seat.old.me }
    ensures same { seat.new.table_id ≡ seat.old.table_id }
    ensures told { Notes D.port D.word value seat.old.me seat.new.me }
{
    let place = L::place(words.key.profile, number, word);
    words.table.shared.store::<Noting<D>>(seat, place, value);
}

/// Publishes the version if the object's word still has the old number, and gives the number found.
pub fn exchange<L: Layout>(words: &Words<L>, seat: &mut Seat, version: &Version) -> u64
    requires table { numbers_of seat.old.table_id ≡ words.now.name }
    requires drafted { IsDraftedIn (L.form words.now.profile) version.now seat.old.me }
    ensures same { seat.new.table_id ≡ seat.old.table_id }
    ensures told { Exchanges (L.form words.now.profile) version.now seat.old.me result seat.new.me }
{
    exchange_as::<L, Brand>(words, seat, version)
}

fn exchange_as<L: Layout, D: Deed>(words: &Words<L>, seat: &mut Seat, version: &Version) -> u64
    requires table { numbers_of seat.old.table_id ≡ words.now.name }
    requires profile { D.profile ≡ words.now.profile }
    requires deed { D.version ≡ version.now }
    requires drafted { IsDraftedIn (L.form words.now.profile) version.now seat.old.me }
    ensures same { seat.new.table_id ≡ seat.old.table_id }
    ensures told { Exchanges (L.form D.profile) D.version seat.old.me result seat.new.me }
{
    let word = L::cell(words.key.profile, version.object);
    words
        .table
        .shared
        .compare_exchange::<Exchanging<L, D>>(seat, word, version.old, version.number)
}

/// Gives the port a seat of its own.
pub fn part<L: Layout>(words: &Words<L>, seat: &mut Seat, port: PortName) -> Seat
    requires table { numbers_of seat.old.table_id ≡ words.now.name }
    ensures same { seat.new.table_id ≡ seat.old.table_id }
    ensures kept { seat.new.me ≡ (with_held port None seat.old.me.0, seat.old.me.1) }
    ensures table { result.table_id ≡ seat.old.table_id }
    ensures given { result.me ≡ (only port (holding port seat.old.me.0), []) }
{
    part_as::<L, Brand>(words, seat, port)
}

fn part_as<L: Layout, D: Deed>(words: &Words<L>, seat: &mut Seat, _port: PortName) -> Seat
    requires table { numbers_of seat.old.table_id ≡ words.now.name }
    ensures same { seat.new.table_id ≡ seat.old.table_id }
    ensures kept { seat.new.me ≡ (with_held D.port None seat.old.me.0, seat.old.me.1) }
    ensures table { result.table_id ≡ seat.old.table_id }
    ensures given { result.me ≡ (only D.port (holding D.port seat.old.me.0), []) }
{
    words.table.shared.split_seat::<Parting<D>>(seat)
}

/// Takes in the ports of another seat.
pub fn join<L: Layout>(words: &Words<L>, seat: &mut Seat, other: Seat)
    requires table { numbers_of seat.old.table_id ≡ words.now.name }
    requires other { numbers_of other.table_id ≡ words.now.name }
    requires none { other.me.1 ≡ [] }
    ensures same { seat.new.table_id ≡ seat.old.table_id }
    ensures told { seat.new.me ≡ (together seat.old.me.0 other.me.0, seat.old.me.1) }
{
    words.table.shared.join_seat::<Joining>(seat, other);
}

/// The words at the end, and that a history which the seat has seen leaves them.
pub fn end<L: Layout>(words: Words<L>, seat: Seat) -> Closed<(), Global>
    requires table { numbers_of seat.table_id ≡ words.name }
    ensures full { IsFull result.words }
    ensures size { slots_len result.words ≡ (L.form words.profile).size }
    ensures slots { slots_len result.slots ≡ 0 }
    ensures values { Final (Seen (Keeps (L.form words.profile)) seat.id seat.me.0)
        (slots_items result.words) (slots_items result.slots) }
{
    words.table.close_with(seat)
}
