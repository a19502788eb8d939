ghost use Rattle.std.specs.Prelude.{◌≡◌, ◌≢◌, ◌≤◌, ◌<◌, ◌↔◌, ◌⊎◌, IfOk, IfErr};
ghost use Rattle.ccan_object.specs.Profile.{Holds, objects_in};
ghost use Rattle.ccan_ram.specs.declared.open_error.OpenError.TheVariants.{QuotaRange};
ghost use Rattle.ccan_ram.specs.declared.port.PortName.TheVariants.{If1, If2, Bus};
ghost use Rattle.ccan_ram.specs.History.{changes_by};
ghost use Rattle.ccan_ram.specs.Access.{AddsLook, AddsAttempt};
ghost use Rattle.ccan_ram.specs.Answer.{Tells, FewTries};
ghost use Rattle.ccan_ram.specs.Draft.{IsDrawn, AddsDraft, AddsCommit, CommitTells};
ghost use Rattle.ccan_ram.specs.Ending.{Ends};
ghost use Rattle.ccan_ram.specs.HandlerRegisters.{AreBelow};
ghost use Rattle.ccan_ram.specs.Picture.{AddsPicture};
ghost use Rattle.ccan_ram.specs.SharedRam.{opened, passes_of, IsMemoryOf, CanSee, Meets};

use crate::change::{Change, Changed, Refused};
use crate::draft::{CommitError, Draft};
use crate::ending::Final;
use crate::handler_registers::HandlerRegisters;
use crate::open_error::OpenError;
use crate::tries::Tries;
use ccan_object::{ObjectNo, Profile, Record};
use std::alloc::Global;

/// A message RAM that its three ports use at once, each perhaps in a thread of its own, with no lock.
///
/// A port carries what it has seen of the one history of all ports' events, as a fact and not as data. Each call at a
/// port adds to that what the others did meanwhile and, in front of it, the port's own event. Two ports may `meet`, and
/// then each has seen what either had; and at the end `close` gives the one history that all three saw a part of, with
/// all events of each and no others, and the records that this history leaves.
///
/// A change is made in two steps: `prepare` looks at the object, and `commit` makes the change of what was seen there, if
/// no change that contends came between. `change` does both, as often as it may.
pub trait SharedRam {
    ghost use Rattle.std.specs.Prelude.{ℕ, Bool};
    ghost use Rattle.ccan_ram.specs.SharedRam.{Memory, Pass};

    /// The right to act for one port.
    type Port: Send + Drop;

    /// How many objects the memory has, how many changes each port may make, and its name.
    ghost memory: { Self → Memory };

    /// What is known of a port: which memory it belongs to, whose it is, and what it has seen.
    ghost pass: { Self.Port → Pass };

    /// Whether a change at the first object contends with the second.
    ghost contends: { ℕ → ℕ → Bool };

    ghost MAX_QUOTA: { ℕ };

    /// The most changes that a port may be given.
    const MAX_QUOTA: u64;

    /// A memory that is all zero, in which each port may make this many changes, and its ports IF1, IF2 and bus.
    fn open_ram(
        alloc: Global,
        profile: Profile,
        quota: u64,
    ) -> Result<(Self, Self::Port, Self::Port, Self::Port), OpenError>
        ensures memory { IfOk result (λ all. IsMemoryOf profile quota (memory all.0)) }
        ensures if1 { IfOk result (λ all. pass all.1 ≡ opened (memory all.0) If1) }
        ensures if2 { IfOk result (λ all. pass all.2 ≡ opened (memory all.0) If2) }
        ensures bus { IfOk result (λ all. pass all.3 ≡ opened (memory all.0) Bus) }
        ensures range { IfOk result (λ all. (1 ≤ quota) × (quota ≤ MAX_QUOTA)) }
        ensures refused { IfErr result (λ why. (why ≡ QuotaRange)
            ↔ ((quota < 1) ⊎ (MAX_QUOTA < quota))) };

    /// How many objects the memory has.
    fn profile(&self) -> Profile
        ensures { result ≡ (memory self.now).profile };

    /// The record of an object, by one look.
    fn look(&self, port: &mut Self::Port, object: ObjectNo) -> Record
        requires memory { (pass port.old).memory ≡ memory self.now }
        requires held { Holds (memory self.now).profile object }
        ensures memory { (pass port.new).memory ≡ (pass port.old).memory }
        ensures looks { AddsLook (passes_of contends (pass port.old))
            (passes_of contends (pass port.new)) object result };

    /// The Message Handler Registers at one point in the history, by looks at all objects with no other event between.
    ///
    /// Looks that are lost to a change of another port are made again, and stay in the history.
    fn look_all(&self, port: &mut Self::Port) -> HandlerRegisters
        requires memory { (pass port.old).memory ≡ memory self.now }
        ensures memory { (pass port.new).memory ≡ (pass port.old).memory }
        ensures pictures { AddsPicture (passes_of contends (pass port.old))
            (passes_of contends (pass port.new)) result }
        ensures within { AreBelow (objects_in (memory self.now).profile) result };

    /// A look, as the beginning of a change.
    fn prepare(&self, port: &mut Self::Port, object: ObjectNo) -> Draft
        requires memory { (pass port.old).memory ≡ memory self.now }
        requires held { Holds (memory self.now).profile object }
        ensures memory { (pass port.new).memory ≡ (pass port.old).memory }
        ensures object { result.object ≡ object }
        ensures drawn { IsDrawn contends result (pass port.new) }
        ensures looks { AddsDraft contends (pass port.old) (pass port.new) result };

    /// Makes a change of the record that the port's draft shows.
    ///
    /// The answer is Spent if the port has made its quota of changes; this is checked before everything else. It is NotNow
    /// if the draft's record does not fit, without a step. It is Lost if a change that contends was made since the draft.
    fn commit(
        &self,
        port: &mut Self::Port,
        draft: Draft,
        change: &Change,
    ) -> Result<Changed, CommitError>
        requires memory { (pass port.old).memory ≡ memory self.now }
        requires drawn { IsDrawn contends draft (pass port.old) }
        ensures memory { (pass port.new).memory ≡ (pass port.old).memory }
        ensures commits { AddsCommit contends (pass port.old) (pass port.new)
            draft change.now result }
        ensures tells { CommitTells draft change.now result };

    /// Prepares and commits a change, in at most this many tries.
    fn change(
        &self,
        port: &mut Self::Port,
        object: ObjectNo,
        change: &Change,
        tries: Tries,
    ) -> Result<Changed, Refused>
        requires memory { (pass port.old).memory ≡ memory self.now }
        requires held { Holds (memory self.now).profile object }
        ensures memory { (pass port.new).memory ≡ (pass port.old).memory }
        ensures attempts { AddsAttempt (passes_of contends (pass port.old))
            (passes_of contends (pass port.new)) object change.now tries result }
        ensures tells { Tells change.now tries result }
        ensures few { FewTries (memory self.now).quota tries result };

    /// Shows each of two ports what the other has seen. It makes no event.
    fn meet(&self, first: &mut Self::Port, second: &mut Self::Port)
        requires first { (pass first.old).memory ≡ memory self.now }
        requires second { (pass second.old).memory ≡ memory self.now }
        requires two { (pass first.old).port ≢ (pass second.old).port }
        ensures { Meets (pass first.old) (pass second.old) (pass first.new) (pass second.new) };

    /// How many changes a port has made.
    fn used(&self, port: &Self::Port) -> u64
        requires memory { (pass port.now).memory ≡ memory self.now }
        ensures count { result ≡ changes_by (pass port.now).port (pass port.now).seen }
        ensures possible { CanSee (pass port.now) };

    /// Takes the memory back from its ports, with the records that they leave.
    fn close(self, if1: Self::Port, if2: Self::Port, bus: Self::Port) -> Final
        requires if1 { ((pass if1).memory ≡ memory self) × ((pass if1).port ≡ If1) }
        requires if2 { ((pass if2).memory ≡ memory self) × ((pass if2).port ≡ If2) }
        requires bus { ((pass bus).memory ≡ memory self) × ((pass bus).port ≡ Bus) }
        ensures { Ends (pass if1) (pass if2) (pass bus) result };
}
