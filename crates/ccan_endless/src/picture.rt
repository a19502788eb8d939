//! A picture: looks at all objects at one place of the history.
//!
//! The values of all objects' words are loaded, one after another; then looks at all objects are added to the history, in one
//! step; and then the words are loaded again. If each has the number that it had, that number was there throughout, since no
//! number comes twice. So it was there at the place of the looks, and the marks in the values found first are those of the
//! records that the looks show. If one has another number, some other port made a change meanwhile. The other ports make at most
//! twice the quota of changes.
//!
//! No record is read: all flags of an object are in its word.
ghost use Rattle.std.specs.Prelude.{◌≡◌, ◌+◌, ◌<◌, ◌≤◌, true, false};
ghost use Rattle.ccan_object.specs.Profile.{objects_in};
ghost use Rattle.ccan_ram.specs.HandlerRegisters.{AreBelow};
ghost use Rattle.ccan_endless.specs.declared.view.PortView.{PortView};
ghost use Rattle.ccan_endless.specs.Layout.{same_object};
ghost use Rattle.ccan_endless.specs.Parts.{marks_limit};
ghost use Rattle.ccan_endless.specs.Picture.{AddsMarks, CollectedIn, MovedIn, PicturesIn, ShowsAll};
ghost use Rattle.ccan_endless.specs.Picture.{StayedIn, TurnsIn};
ghost use Rattle.ccan_endless.specs.Port.{numbers_of};
ghost use Rattle.ccan_endless.specs.Seat.{GoOn, chip_me};
ghost use Rattle.ccan_ram.specs.Sound.{IsSound};
ghost use Rattle.ccan_endless.specs.Version.{IsSeatOf};

use crate::layout::{marks_in, number_in};
use crate::steps::{pose, watch};
use crate::words::{Seat, Words};
use ccan_object::{MOST_OBJECTS, Profile};
use ccan_ram::handler_registers::with_bit;
use ccan_ram::{HandlerRegisters, PortName};

/// The registers at one place of the history.
#[inline(always)]
pub fn picture(words: &Words, seat: &mut Seat, port: PortName) -> HandlerRegisters
    requires table { numbers_of seat.old.table_id ≡ words.now.name }
    requires held { (x : PortView) × IsSeatOf port x seat.old.me
        × IsSound words.now.profile x.quota x.seen × (x.quota ≡ words.now.quota) }
    ensures same { seat.new.table_id ≡ seat.old.table_id }
    ensures told { PicturesIn words.now port result seat.old.me seat.new.me }
    ensures onward { GoOn (chip_me seat.old) (chip_me seat.new) }
    ensures within { AreBelow (objects_in words.now.profile) result }
{
    let key = words.key();
    let most = key.quota * 2 + 1;
    let mut values = [0u64; MOST_OBJECTS];
    for turn in 0..most {
        if pose_once(words, seat, port, &mut values) {
            return registers(key.profile, &values);
        }
    }
    // Each lost turn has a change of another port, and so many are never made: this is not reached.
    HandlerRegisters::zero()
}

/// Looks at all objects, and the values of their words at the place of these looks. False: another port made a change meanwhile,
/// and the values say nothing.
#[inline(always)]
fn pose_once(
    words: &Words,
    seat: &mut Seat,
    port: PortName,
    values: &mut [u64; MOST_OBJECTS],
) -> bool
    requires table { numbers_of seat.old.table_id ≡ words.now.name }
    requires held { (x : PortView) × IsSeatOf port x seat.old.me
        × IsSound words.now.profile x.quota x.seen }
    ensures same { seat.new.table_id ≡ seat.old.table_id }
    ensures told { TurnsIn words.now.profile port values.new result seat.old.me seat.new.me }
    ensures onward { GoOn (chip_me seat.old) (chip_me seat.new) }
{
    collect(words, seat, values);
    pose(words, seat, port);
    still(words, seat, values)
}

/// Sets the values to those of the objects' words, one load after another. Each profile has a loop of its own, whose length the
/// compiler knows.
#[inline(always)]
fn collect(words: &Words, seat: &mut Seat, values: &mut [u64; MOST_OBJECTS])
    requires table { numbers_of seat.old.table_id ≡ words.now.name }
    ensures same { seat.new.table_id ≡ seat.old.table_id }
    ensures told { CollectedIn words.now.profile (objects_in words.now.profile) values.new
        seat.old.me seat.new.me }
    ensures onward { GoOn (chip_me seat.old) (chip_me seat.new) }
{
    match words.key().profile {
        Profile::One => collect_all(words, seat, values, 32),
        Profile::Two => collect_all(words, seat, values, 64),
    }
}

/// Sets so many values, as many as there are objects.
#[inline(always)]
fn collect_all(words: &Words, seat: &mut Seat, values: &mut [u64; MOST_OBJECTS], count: usize)
    requires table { numbers_of seat.old.table_id ≡ words.now.name }
    requires count { count ≡ objects_in words.now.profile }
    requires most { count ≤ 64 }
    ensures same { seat.new.table_id ≡ seat.old.table_id }
    ensures told { CollectedIn words.now.profile count values.new seat.old.me seat.new.me }
    ensures onward { GoOn (chip_me seat.old) (chip_me seat.new) }
{
    for i in 0..count {
        values[i] = watch(words, seat, i + 1);
    }
}

/// Whether they still have the numbers of these values.
#[inline(always)]
fn still(words: &Words, seat: &mut Seat, values: &[u64; MOST_OBJECTS]) -> bool
    requires table { numbers_of seat.old.table_id ≡ words.now.name }
    ensures same { seat.new.table_id ≡ seat.old.table_id }
    ensures yes { result ≡ true → StayedIn words.now.profile (objects_in words.now.profile)
        values.now seat.old.me seat.new.me }
    ensures onward { GoOn (chip_me seat.old) (chip_me seat.new) }
    ensures no { result ≡ false → MovedIn words.now.profile values.now seat.old.me seat.new.me }
{
    match words.key().profile {
        Profile::One => all_still(words, seat, values, 32),
        Profile::Two => all_still(words, seat, values, 64),
    }
}

/// Whether so many, as many as there are objects, still have the numbers of these values.
#[inline(always)]
fn all_still(words: &Words, seat: &mut Seat, values: &[u64; MOST_OBJECTS], count: usize) -> bool
    requires table { numbers_of seat.old.table_id ≡ words.now.name }
    requires count { count ≡ objects_in words.now.profile }
    requires most { count ≤ 64 }
    ensures same { seat.new.table_id ≡ seat.old.table_id }
    ensures yes { result ≡ true → StayedIn words.now.profile count values.now
        seat.old.me seat.new.me }
    ensures onward { GoOn (chip_me seat.old) (chip_me seat.new) }
    ensures no { result ≡ false → MovedIn words.now.profile values.now seat.old.me seat.new.me }
{
    for i in 0..count {
        let now = watch(words, seat, i + 1);
        if number_in(now) != number_in(values[i]) {
            return false;
        }
    }
    true
}

/// The registers that the marks in these values show.
#[inline(always)]
fn registers(profile: Profile, values: &[u64; MOST_OBJECTS]) -> HandlerRegisters
    ensures shown { ShowsAll profile values.now result }
    ensures within { AreBelow (objects_in profile) result }
{
    match profile {
        Profile::One => registers_of(profile, values, 32),
        Profile::Two => registers_of(profile, values, 64),
    }
}

/// The registers that the marks in so many values show, as many as there are objects.
#[inline(always)]
fn registers_of(profile: Profile, values: &[u64; MOST_OBJECTS], count: u8) -> HandlerRegisters
    requires count { count ≡ objects_in profile }
    requires most { count ≤ 64 }
    ensures shown { ShowsAll profile values.now result }
    ensures within { AreBelow count result }
{
    let mut registers = HandlerRegisters::zero();
    for place in 0..count {
        registers = with_marks(registers, place, marks_in(values[usize::from(place)]));
    }
    registers
}

/// The registers with the flags of one more object, which has these marks.
#[inline(always)]
fn with_marks(registers: HandlerRegisters, place: u8, marks: u64) -> HandlerRegisters
    requires below { AreBelow place registers }
    requires within { place < u64.BITS }
    ensures value { AddsMarks place marks registers result }
    ensures below { AreBelow (place + 1) result }
{
    HandlerRegisters {
        newdat: with_bit(registers.newdat, place, marks / 4096 % 2 == 1),
        msglst: with_bit(registers.msglst, place, marks / 2048 % 2 == 1),
        intpnd: with_bit(registers.intpnd, place, marks / 1024 % 2 == 1),
        txrqst: with_bit(registers.txrqst, place, marks / 32 % 2 == 1),
        msgval: with_bit(registers.msgval, place, marks / 8192 % 2 == 1),
    }
}
