//! A picture: looks at all objects at one point in the history.
//!
//! The numbers of all objects' words are read, one after another; then looks at all objects are added to the history, in
//! one step; and then the numbers are read again. If each is what it was, it stayed throughout, since no number comes
//! twice: so it was there at the point of the looks, and the versions of these numbers hold the records that the looks
//! show. If one is another, some other port made a change meanwhile. The others make at most twice the quota of changes.
//!
//! The versions are read last; there is none for an object that nobody wrote.
ghost use Rattle.std.specs.Prelude.{◌≡◌, ◌≤◌, ◌<◌, true, false, length};
ghost use Rattle.ccan_object.specs.Profile.{objects_in};
ghost use Rattle.ccan_ram.specs.HandlerRegisters.{AreBelow};
ghost use Rattle.ccan_words.specs.declared.view.PortView.{PortView};
ghost use Rattle.ccan_words.specs.Picture.{AreNumbers, CountedIn, MovedIn, PicturesIn, ShowsAll, TurnsIn};
ghost use Rattle.ccan_words.specs.Port.{numbers_of};
ghost use Rattle.ccan_ram.specs.Sound.{IsSound};
ghost use Rattle.ccan_words.specs.Version.{IsSeatOf};

use crate::layout::Layout;
use crate::steps::{head, pose};
use crate::version::fetch;
use crate::words::{Seat, Words};
use ccan_object::MOST_OBJECTS;
use ccan_ram::{HandlerRegisters, PortName};

/// The registers at one point in the history.
#[inline(always)]
pub fn picture<L: Layout>(words: &Words<L>, seat: &mut Seat, port: PortName) -> HandlerRegisters
    requires table { numbers_of seat.old.table_id ≡ words.now.name }
    requires held { (x : PortView) × IsSeatOf port x seat.old.me
        × IsSound words.now.profile x.quota x.seen × (x.quota ≡ words.now.quota) }
    ensures same { seat.new.table_id ≡ seat.old.table_id }
    ensures told { PicturesIn L.contends words.now port result seat.old.me seat.new.me }
    ensures within { AreBelow (objects_in words.now.profile) result }
{
    let most = words.key().quota * 2 + 1;
    let mut numbers = [0u64; MOST_OBJECTS];
    for turn in 0..most {
        if pose_once(words, seat, port, &mut numbers) {
            return registers(words, seat, &numbers);
        }
    }
    HandlerRegisters::zero()
}

/// Looks at all objects, and the numbers of their words at the point of these looks. False: another port made a
/// change meanwhile, and the numbers mean nothing.
#[inline(always)]
fn pose_once<L: Layout>(
    words: &Words<L>,
    seat: &mut Seat,
    port: PortName,
    numbers: &mut [u64; MOST_OBJECTS],
) -> bool
    requires table { numbers_of seat.old.table_id ≡ words.now.name }
    requires held { (x : PortView) × IsSeatOf port x seat.old.me
        × IsSound words.now.profile x.quota x.seen × (x.quota ≤ L.MOST) }
    ensures same { seat.new.table_id ≡ seat.old.table_id }
    ensures told { TurnsIn (L.form words.now.profile) port numbers.new result
        seat.old.me seat.new.me }
{
    collect(words, seat, numbers);
    pose(words, seat, port);
    still(words, seat, numbers)
}

/// Sets the numbers to those that the objects' words hold, one load after another.
#[inline(always)]
fn collect<L: Layout>(words: &Words<L>, seat: &mut Seat, numbers: &mut [u64; MOST_OBJECTS])
    requires table { numbers_of seat.old.table_id ≡ words.now.name }
    ensures same { seat.new.table_id ≡ seat.old.table_id }
    ensures told { CountedIn (L.form words.now.profile) (objects_in words.now.profile) numbers.new
        seat.old.me seat.new.me }
{
    for i in 0..usize::from(words.key().profile.objects()) {
        numbers[i] = head(words, seat, i + 1);
    }
}

/// Whether they still hold these numbers.
#[inline(always)]
fn still<L: Layout>(words: &Words<L>, seat: &mut Seat, numbers: &[u64; MOST_OBJECTS]) -> bool
    requires table { numbers_of seat.old.table_id ≡ words.now.name }
    ensures same { seat.new.table_id ≡ seat.old.table_id }
    ensures yes { result ≡ true → CountedIn (L.form words.now.profile)
        (objects_in words.now.profile) numbers.now seat.old.me seat.new.me }
    ensures no { result ≡ false → MovedIn (L.form words.now.profile) numbers.now seat.old.me
        seat.new.me }
{
    for i in 0..usize::from(words.key().profile.objects()) {
        if head(words, seat, i + 1) != numbers[i] {
            return false;
        }
    }
    true
}

/// The registers that the versions of these numbers show.
#[inline(always)]
fn registers<L: Layout>(
    words: &Words<L>,
    seat: &mut Seat,
    numbers: &[u64; MOST_OBJECTS],
) -> HandlerRegisters
    requires table { numbers_of seat.old.table_id ≡ words.now.name }
    requires ranged { AreNumbers (L.form words.now.profile) numbers.now }
    ensures same { (seat.new.table_id ≡ seat.old.table_id) × (seat.new.me ≡ seat.old.me) }
    ensures shown { ShowsAll (L.form words.now.profile) numbers.now seat.old.me result }
    ensures within { AreBelow (objects_in words.now.profile) result }
{
    let mut registers = HandlerRegisters::zero();
    for place in 0..words.key().profile.objects() {
        let number = numbers[usize::from(place)];
        if number != 0 {
            let shown = fetch(words, seat, number, usize::from(place) + 1);
            registers = registers.with_flags(place, &shown);
        }
    }
    registers
}
