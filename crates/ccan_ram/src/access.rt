ghost use Rattle.ccan_object.specs.Profile.{Holds, objects_in};
ghost use Rattle.ccan_ram.specs.Access.{AddsAttempt, AddsLook};
ghost use Rattle.ccan_ram.specs.Answer.{FewTries, Tells};
ghost use Rattle.ccan_ram.specs.HandlerRegisters.{AreBelow};
ghost use Rattle.ccan_ram.specs.Picture.{AddsPicture};

use crate::change::{Change, Changed, Refused};
use crate::handler_registers::HandlerRegisters;
use crate::tries::Tries;
use ccan_object::{ObjectNo, Profile, Record};

/// A message RAM, as one of its ports sees it. All upper layers use only this trait.
///
/// Contracts speak of the port's pass: the history of all ports' events that the port has seen so far, the newest first.
/// A pass is no data at run time. Each clause holds for every history that may be what the port has seen before the call,
/// and gives one of the value after: the old history, and the events that the call added in front of it. Among these are
/// events of other ports; the caller's own among them are exactly those that the clause names.
pub trait Access {
    ghost use Rattle.std.specs.Prelude.{◌≡◌};
    ghost use Rattle.ccan_ram.specs.Access.{Passes, SeesLegal, SeesWithin};

    /// What the port works under, and which histories may be all that it has seen.
    ghost passes: { Self → Passes };

    /// How many objects the memory has.
    fn profile(&self) -> Profile
        ensures { result ≡ (passes self.now).terms.profile };

    /// The record of an object, by one look.
    fn look(&mut self, object: ObjectNo) -> Record
        requires held { Holds (passes self.old).terms.profile object }
        ensures { AddsLook (passes self.old) (passes self.new) object result };

    /// The Message Handler Registers at one point in the history, by looks at all objects with no other event between.
    ///
    /// Looks that are lost to a change of another port are made again, and stay in the history.
    fn look_all(&mut self) -> HandlerRegisters
        ensures pictures { AddsPicture (passes self.old) (passes self.new) result }
        ensures within { AreBelow (objects_in (passes self.old).terms.profile) result };

    /// Makes a change, in at most this many tries.
    ///
    /// The answer is Spent if the port has made its quota of changes; this is checked before everything else. It is Busy if
    /// each try was lost to a change of another port that contends. It is NotNow if the record found does not fit. In all
    /// three cases the port has made no change.
    fn change(
        &mut self,
        object: ObjectNo,
        change: &Change,
        tries: Tries,
    ) -> Result<Changed, Refused>
        requires held { Holds (passes self.old).terms.profile object }
        ensures attempts { AddsAttempt (passes self.old) (passes self.new)
            object change.now tries result }
        ensures tells { Tells change.now tries result }
        ensures few { FewTries (passes self.old).terms.quota tries result };

    /// What a port has seen is a legal history.
    ghost legal: { (access : Self) → SeesLegal (passes access) };

    /// No port makes more changes than its quota.
    ghost within: { (access : Self) → SeesWithin (passes access) };
}
