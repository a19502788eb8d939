ghost use Rattle.ccan_ram.specs.declared.sending.Sending.TheVariants.{UntilSent};
ghost use Rattle.ccan_handler.specs.Scan.{StartsWhatIsReady};
ghost use Rattle.ccan_bus.specs.Choice.{AddsChoice};

use ccan_handler::{ScanRefused, choose, choose_at_once};
use ccan_object::{ObjectNo, Record};
use ccan_ram::{Access, Sending, Tries};

/// How the controller chooses what it sends next.
#[derive(Clone, Copy, PartialEq, Eq, Hash, Debug)]
pub enum Choice {
    /// Object after object: each is looked at in its turn, and the first that is ready then is started. A host that asks
    /// for an object which was looked at already, and then for a later one, sees the later one sent first.
    InTurn,
    /// At one moment, as on the part: the first object that was ready in one picture of all is started, unless it is
    /// no longer ready; then the next one that was.
    AtOnce,
}

impl Choice {
    /// Makes the choice, and starts what is chosen, which is sent again until it is sent. None: there was nothing to send.
    pub(crate) fn start<A: Access>(
        self,
        access: &mut A,
        tries: Tries,
    ) -> Result<Option<(ObjectNo, Record)>, ScanRefused>
        ensures adds { AddsChoice self (A.passes access.old) (A.passes access.new) tries result }
        ensures made { StartsWhatIsReady (A.passes access.old).terms UntilSent 1 result }
    {
        match self {
            Choice::InTurn => choose(access, tries),
            Choice::AtOnce => choose_at_once(access, Sending::UntilSent, tries),
        }
    }
}
