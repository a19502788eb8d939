//! The calls at a port with the part of their contracts that further calls need. What they add to the history is proved in their
//! own crates; here it would only stay known from call to call, which is costly.
ghost use Rattle.std.specs.Prelude.{◌≡◌};
ghost use Rattle.ccan_object.specs.Profile.{Holds};
ghost use Rattle.ccan_ram.specs.Draft.{IsDrawn};

use ccan_object::{ObjectNo, Record};
use ccan_ram::{Change, Changed, CommitError, Draft, Refused, SharedRam, Tries};

/// The record of an object.
pub fn look<R: SharedRam>(ram: &R, port: &mut R::Port, object: ObjectNo) -> Record
    requires memory { (R.pass port.old).memory ≡ R.memory ram.now }
    requires held { Holds (R.memory ram.now).profile object }
    ensures memory { (R.pass port.new).memory ≡ (R.pass port.old).memory }
    ensures port { (R.pass port.new).port ≡ (R.pass port.old).port }
{
    ram.look(port, object)
}

/// A change of an object.
pub fn change<R: SharedRam>(
    ram: &R,
    port: &mut R::Port,
    object: ObjectNo,
    change: &Change,
    tries: Tries,
) -> Result<Changed, Refused>
    requires memory { (R.pass port.old).memory ≡ R.memory ram.now }
    requires held { Holds (R.memory ram.now).profile object }
    ensures memory { (R.pass port.new).memory ≡ (R.pass port.old).memory }
    ensures port { (R.pass port.new).port ≡ (R.pass port.old).port }
{
    ram.change(port, object, change, tries)
}

/// A look, as the beginning of a change.
pub fn prepare<R: SharedRam>(ram: &R, port: &mut R::Port, object: ObjectNo) -> Draft
    requires memory { (R.pass port.old).memory ≡ R.memory ram.now }
    requires held { Holds (R.memory ram.now).profile object }
    ensures memory { (R.pass port.new).memory ≡ (R.pass port.old).memory }
    ensures port { (R.pass port.new).port ≡ (R.pass port.old).port }
    ensures drawn { IsDrawn R.contends result (R.pass port.new) }
{
    ram.prepare(port, object)
}

/// The change of a draft.
pub fn commit<R: SharedRam>(
    ram: &R,
    port: &mut R::Port,
    draft: Draft,
    change: &Change,
) -> Result<Changed, CommitError>
    requires memory { (R.pass port.old).memory ≡ R.memory ram.now }
    requires drawn { IsDrawn R.contends draft (R.pass port.old) }
    ensures memory { (R.pass port.new).memory ≡ (R.pass port.old).memory }
    ensures port { (R.pass port.new).port ≡ (R.pass port.old).port }
{
    ram.commit(port, draft, change)
}

/// Two changes of an object, one after the other, and the answer to the second.
pub fn change_twice<R: SharedRam>(
    ram: &R,
    port: &mut R::Port,
    object: ObjectNo,
    changes: [&Change; 2],
    tries: Tries,
) -> Result<Changed, Refused>
    requires memory { (R.pass port.old).memory ≡ R.memory ram.now }
    requires held { Holds (R.memory ram.now).profile object }
    ensures memory { (R.pass port.new).memory ≡ (R.pass port.old).memory }
    ensures port { (R.pass port.new).port ≡ (R.pass port.old).port }
{
    let [first, second] = changes;
    let _first = change(ram, port, object, first, tries);
    change(ram, port, object, second, tries)
}

/// How many changes a port has made.
pub fn used<R: SharedRam>(ram: &R, port: &R::Port) -> u64
    requires memory { (R.pass port.now).memory ≡ R.memory ram.now }
{
    ram.used(port)
}
