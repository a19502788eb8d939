ghost use Rattle.std.specs.Prelude.{◌≡◌, ◌≤◌, ◌<◌, ◌+◌, ◌↔◌, [], IfSome, IsSome, IsTrue, if◌then◌else◌};
ghost use Rattle.ccan_object.specs.Profile.{Holds, objects_in};
ghost use Rattle.ccan_ram.specs.Access.{AddsAttempt, AddsLook};
ghost use Rattle.ccan_ram.specs.Answer.{FewTries, Tells};
ghost use Rattle.ccan_ram.specs.HandlerRegisters.{AreBelow};
ghost use Rattle.ccan_ram.specs.Picture.{AddsPicture};
ghost use Rattle.ccan_ram.specs.Port.{IsQuota};
ghost use Rattle.ccan_ram.specs.Terms.{one_thread_terms};
ghost use Rattle.ccan_ram.specs.declared.port.PortName.TheVariants.{Bus};
ghost use Rattle.test_contended.specs.Contended.{AddsCourse, AddsExchange, AddsLookAlone, AddsNext, AddsOthers};
ghost use Rattle.test_contended.specs.Contended.{AddsPictureAlone, AddsTheirs, HasMade, HasNext, IsForBus, IsNext};
ghost use Rattle.test_contended.specs.Contended.{changes_of, contended_terms, host, number_of};

use crate::transfer::Transfer;
use ccan_object::{ObjectNo, Profile, Record};
use ccan_ram::{Access, Array, Change, Changed, HandlerRegisters, PortName, Refused, Tries};

/// The bus port of a plain memory, during whose calls the host at IF1 goes through a list of transfers.
///
/// In each try of a change, IF1 makes its next transfer. One at the same object comes after a look at a record that fits, and
/// costs the try. If the record doesn't fit, no exchange is to come, and IF1 keeps the transfer for later. One at another object
/// comes just before the look, and the try is not lost. A look by itself causes no transfer. The list ends early at a transfer
/// for which IF1 has no quota left, or at an object that the memory doesn't have.
#[derive(Drop)]
pub struct Contended<'a> {
    ram: Array,
    profile: Profile,
    quota: u64,
    theirs: &'a [Transfer],
    made: usize,
    used: u64,
    ghost for_bus: { (⟦<Array as Access>⟧.passes ram).terms ≡ one_thread_terms profile Bus quota },
    ghost quota_range: { IsQuota quota },
    ghost made_within: { made ≤ quota },
    ghost used_within: { used ≤ quota },
}

impl<'a> Access for Contended<'a> {
    ghost use Rattle.test_contended.specs.Contended.{contended, in_profile, in_quota};

    ghost passes = { λ c. contended c.profile c.quota (⟦<Array as Access>⟧.passes c.ram) c.made c.used };

    fn profile(&self) -> Profile {
        self.profile
    }

    fn look(&mut self, object: ObjectNo) -> Record
        requires held { Holds self.old.profile object }
        ensures looks { AddsLook (⟦<Contended<'a> as Access>⟧.passes self.old)
            (⟦<Contended<'a> as Access>⟧.passes self.new) object result }
        ensures alone { AddsLookAlone (⟦<Contended<'a> as Access>⟧.passes self.old)
            (⟦<Contended<'a> as Access>⟧.passes self.new) object result }
        ensures made { self.new.made ≡ self.old.made }
        ensures list { self.new.theirs.now ≡ self.old.theirs.now }
    {
        self.ram.look(object)
    }

    fn look_all(&mut self) -> HandlerRegisters
        ensures pictures { AddsPicture (⟦<Contended<'a> as Access>⟧.passes self.old)
            (⟦<Contended<'a> as Access>⟧.passes self.new) result }
        ensures within { AreBelow (objects_in self.old.profile) result }
        ensures alone { AddsPictureAlone (⟦<Contended<'a> as Access>⟧.passes self.old)
            (⟦<Contended<'a> as Access>⟧.passes self.new) }
        ensures made { self.new.made ≡ self.old.made }
        ensures list { self.new.theirs.now ≡ self.old.theirs.now }
    {
        self.ram.look_all()
    }

    fn change(
        &mut self,
        object: ObjectNo,
        change: &Change,
        tries: Tries,
    ) -> Result<Changed, Refused>
        requires held { Holds self.old.profile object }
        ensures attempts { AddsAttempt (⟦<Contended<'a> as Access>⟧.passes self.old)
            (⟦<Contended<'a> as Access>⟧.passes self.new) object change.now tries result }
        ensures tells { Tells change.now tries result }
        ensures few { FewTries self.old.quota tries result }
        ensures course { let theirs = host self.old.profile self.old.quota
            self.old.theirs.now self.old.made in
            AddsCourse (⟦<Contended<'a> as Access>⟧.passes self.old)
            (⟦<Contended<'a> as Access>⟧.passes self.new)
            theirs object change.now tries result self.new.made }
        ensures list { self.new.theirs.now ≡ self.old.theirs.now }
    {
        if self.used == self.quota {
            return Err(Refused::Spent);
        }
        let most = tries.get();
        let mut last = 0;
        for turn in 0..most {
            let theirs = match self.next() {
                Some(theirs) => theirs,
                None => return self.exchange(object, change, tries),
            };
            if theirs.object.get() != object.get() {
                let _elsewhere = interfere(&mut self.ram, theirs);
                self.made += 1;
                return self.exchange(object, change, tries);
            }
            let shown = self.ram.look(object);
            if !change.fits(&shown) {
                return Ok(Changed::NotNow(shown));
            }
            last = interfere(&mut self.ram, theirs);
            self.made += 1;
        }
        Err(Refused::Busy {
            tries: most,
            now: last,
        })
    }

    ghost legal = { λ c seen h. in_profile _ c.profile c.quota c.for_bus seen h.seen_below.legal };

    ghost within = { λ c seen port h.
        in_quota _ c.profile c.quota _ _ c.for_bus (h.seen_below.counts port) (c.ram.within_quota port) };
}

impl<'a> Contended<'a> {
    /// A memory that is all zero, in which each port may make so many changes, and the transfers of IF1.
    pub fn new(profile: Profile, quota: u64, theirs: &'a [Transfer]) -> Contended<'a>
        requires { IsQuota quota }
        ensures terms { let opened = ⟦<Contended<'a> as Access>⟧.passes result in
            opened.terms ≡ contended_terms profile quota }
        ensures opens { (⟦<Contended<'a> as Access>⟧.passes result).has_seen [] }
        ensures theirs { result.theirs.now ≡ theirs.now }
        ensures none_made { result.made ≡ 0 }
    {
        let mut ram = Array::new(profile, quota);
        ram.at(PortName::Bus);
        Contended {
            ram,
            profile,
            quota,
            theirs,
            made: 0,
            used: 0,
        }
    }

    /// How many changes the bus port has made.
    pub fn used(&self) -> u64
        ensures { HasMade (⟦<Contended<'a> as Access>⟧.passes self.now) result }
    {
        self.used
    }

    /// IF1 makes its next transfer while nobody calls. False: its list has ended.
    pub fn go_on(&mut self) -> bool
        ensures others { let before = ⟦<Contended<'a> as Access>⟧.passes self.old in
            AddsOthers before (⟦<Contended<'a> as Access>⟧.passes self.new) }
        ensures told { IsTrue result
            ↔ HasNext (host self.old.profile self.old.quota self.old.theirs.now self.old.made) }
        ensures acts { let theirs = host self.old.profile self.old.quota
            self.old.theirs.now self.old.made in
            AddsNext (⟦<Contended<'a> as Access>⟧.passes self.old)
            (⟦<Contended<'a> as Access>⟧.passes self.new) theirs result }
        ensures list { self.new.theirs.now ≡ self.old.theirs.now }
        ensures made { self.new.made ≡ (if result then self.old.made + 1 else self.old.made) }
    {
        match self.next() {
            Some(theirs) => {
                let _number = interfere(&mut self.ram, theirs);
                self.made += 1;
                true
            }
            None => false,
        }
    }

    /// The transfer that IF1 makes next.
    fn next(&self) -> Option<Transfer>
        ensures known { IsSome result
            ↔ HasNext (host self.now.profile self.now.quota self.now.theirs.now self.now.made) }
        ensures next { let theirs = host self.now.profile self.now.quota
            self.now.theirs.now self.now.made in
            IfSome result (IsNext theirs) }
    {
        let theirs = *self.theirs.get(self.made)?;
        if (self.made as u64) < self.quota && self.profile.holds(theirs.object) {
            Some(theirs)
        } else {
            None
        }
    }

    /// The bus port makes a change that nobody disturbs.
    fn exchange(
        &mut self,
        object: ObjectNo,
        change: &Change,
        tries: Tries,
    ) -> Result<Changed, Refused>
        requires room { self.old.used < self.old.quota }
        requires held { Holds self.old.profile object }
        ensures list { self.new.theirs.now ≡ self.old.theirs.now }
        ensures made { self.new.made ≡ self.old.made }
        ensures exchanges { let before = ⟦<Contended<'a> as Access>⟧.passes self.old in
            let after = ⟦<Contended<'a> as Access>⟧.passes self.new in
            AddsExchange before after object change.now result }
        ensures tells { Tells change.now tries result }
        ensures few { FewTries self.old.quota tries result }
    {
        let _tries = tries.get();
        let outcome = self.ram.change(object, change, tries);
        self.used += changes_of(&outcome);
        outcome
    }
}

/// IF1 makes a transfer. The number of its change.
fn interfere(ram: &mut Array, theirs: Transfer) -> u64
    requires for_bus { IsForBus (⟦<Array as Access>⟧.passes ram.old) }
    requires held { Holds (⟦<Array as Access>⟧.passes ram.old).terms.profile theirs.object }
    ensures terms { let before = ⟦<Array as Access>⟧.passes ram.old in
        (⟦<Array as Access>⟧.passes ram.new).terms ≡ before.terms }
    ensures acts { let before = ⟦<Array as Access>⟧.passes ram.old in
        AddsTheirs before (⟦<Array as Access>⟧.passes ram.new) theirs result }
{
    let change = theirs.change();
    let one_try = Tries::new(1).unwrap();
    ram.at(PortName::If1);
    let outcome = ram.change(theirs.object, &change, one_try);
    ram.at(PortName::Bus);
    number_of(&outcome)
}

/// The number of a change, 0 if none was made.
fn number_of(outcome: &Result<Changed, Refused>) -> u64
    ensures { result ≡ number_of outcome.now }
{
    match outcome {
        Ok(Changed::Done { number, .. }) => *number,
        _ => 0,
    }
}

/// How many changes were made, 1 or 0.
fn changes_of(outcome: &Result<Changed, Refused>) -> u64
    ensures value { result ≡ changes_of outcome.now }
    ensures most { result ≤ 1 }
{
    match outcome {
        Ok(Changed::Done { .. }) => 1,
        _ => 0,
    }
}
