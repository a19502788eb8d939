ghost use Rattle.ccan_object.specs.Profile.{Holds};
ghost use Rattle.ccan_ram.specs.declared.sending.Sending.TheVariants.{UntilSent};
ghost use Rattle.ccan_handler.specs.Scan.{AddsChoice, AddsScan, AddsStore, AddsVisit, MakesWhatFits, StartsWhatIsReady};
ghost use Rattle.ccan_handler.specs.Scan.{StoresWhatIsAccepted, TellsRefusal, TellsStartRefusal, TellsStoreRefusal, VisitTells};

use crate::objects::{first, nth};
use ccan_accept::Frame;
use ccan_object::{ObjectNo, Record};
use ccan_ram::{Access, Change, Changed, Refused, Tries};
use std::error::Error;
use std::fmt;

/// The object at which a scan made its change.
#[derive(Clone, Copy, PartialEq, Eq, Debug)]
pub struct Stored {
    /// The object.
    pub object: ObjectNo,
    /// The record that the change found.
    pub before: Record,
    /// The record that it left.
    pub after: Record,
}

/// A scan that was refused. The objects before `at` were passed over; nothing was changed. A caller may go on at `at`.
#[derive(Clone, Copy, PartialEq, Eq, Debug)]
pub struct ScanRefused {
    /// The object at which the scan stopped.
    pub at: ObjectNo,
    /// Why its change was refused there.
    pub why: Refused,
}

impl fmt::Display for ScanRefused {
    ghost use Rattle.std.specs.Prelude.{Some};
    ghost use Rattle.ccan_handler.specs.ScanRefused.{scan_refused_text};

    ghost output = { λ refused. Some (scan_refused_text refused) };

    fn fmt<W: fmt::Write>(&self, f: &mut fmt::Formatter<W>) -> fmt::Result {
        let at = self.at.get();
        match self.why {
            Refused::Busy { tries, .. } => write!(f, "object {at}: each of {tries} tries was lost"),
            Refused::Spent => write!(f, "object {at}: the port has made all its changes"),
        }
    }
}

impl Error for ScanRefused {}

/// Starts the first object that is ready, and answers it with its record after the start.
///
/// None: no object was ready when the scan came to it.
pub fn choose<A: Access>(
    access: &mut A,
    tries: Tries,
) -> Result<Option<(ObjectNo, Record)>, ScanRefused>
    ensures adds { AddsChoice (A.passes access.old) (A.passes access.new) 1 tries result }
    ensures made { StartsWhatIsReady (A.passes access.old).terms UntilSent 1 result }
    ensures refused { TellsStartRefusal (A.passes access.old).terms 1 tries result }
{
    let object = first(access.profile());
    choose_from(access, object, tries)
}

/// As `choose`, from a later object on. It looks at no object before that.
pub fn choose_from<A: Access>(
    access: &mut A,
    from: ObjectNo,
    tries: Tries,
) -> Result<Option<(ObjectNo, Record)>, ScanRefused>
    requires held { Holds (A.passes access.old).terms.profile from }
    ensures adds { AddsChoice (A.passes access.old) (A.passes access.new) from tries result }
    ensures made { StartsWhatIsReady (A.passes access.old).terms UntilSent from result }
    ensures refused { TellsStartRefusal (A.passes access.old).terms from tries result }
{
    match scan(access, &Change::Start, from, tries) {
        Ok(Some(stored)) => Ok(Some((stored.object, stored.after))),
        Ok(None) => Ok(None),
        Err(refused) => Err(refused),
    }
}

/// Stores a frame in the first object that accepts it.
///
/// None: no object accepted it when the scan came to it, and the frame is disregarded.
pub fn receive<A: Access>(
    access: &mut A,
    frame: &Frame,
    tries: Tries,
) -> Result<Option<Stored>, ScanRefused>
    ensures adds { AddsStore (A.passes access.old) (A.passes access.new) frame.now 1 tries result }
    ensures made { StoresWhatIsAccepted (A.passes access.old).terms frame.now 1 result }
    ensures refused { TellsStoreRefusal (A.passes access.old).terms frame.now 1 tries result }
{
    let object = first(access.profile());
    receive_from(access, frame, object, tries)
}

/// As `receive`, from a later object on. It looks at no object before that.
pub fn receive_from<A: Access>(
    access: &mut A,
    frame: &Frame,
    from: ObjectNo,
    tries: Tries,
) -> Result<Option<Stored>, ScanRefused>
    requires held { Holds (A.passes access.old).terms.profile from }
    ensures adds { let seen = A.passes access.old in
        AddsStore seen (A.passes access.new) frame.now from tries result }
    ensures made { StoresWhatIsAccepted (A.passes access.old).terms frame.now from result }
    ensures refused { TellsStoreRefusal (A.passes access.old).terms frame.now from tries result }
{
    scan(access, &Change::Store(*frame), from, tries)
}

/// Visits each object in turn, up to the first that is not passed over.
fn scan<A: Access>(
    access: &mut A,
    change: &Change,
    from: ObjectNo,
    tries: Tries,
) -> Result<Option<Stored>, ScanRefused>
    requires held { Holds (A.passes access.old).terms.profile from }
    ensures adds { let seen = A.passes access.old in
        AddsScan seen (A.passes access.new) change.now from tries result }
    ensures made { MakesWhatFits (A.passes access.old).terms change.now from result }
    ensures refused { TellsRefusal (A.passes access.old).terms change.now from tries result }
{
    // The prover can't cite where a range that includes its end stops.
    for number in from.get()..access.profile().objects() + 1 {
        let object = nth(number);
        match visit(access, object, change, tries) {
            Ok(None) => {}
            Ok(Some(stored)) => return Ok(Some(stored)),
            Err(why) => return Err(ScanRefused { at: object, why }),
        }
    }
    Ok(None)
}

/// Looks at one object, and makes the change if the record fits. None: the object is passed over.
fn visit<A: Access>(
    access: &mut A,
    object: ObjectNo,
    change: &Change,
    tries: Tries,
) -> Result<Option<Stored>, Refused>
    requires held { Holds (A.passes access.old).terms.profile object }
    ensures adds { let seen = A.passes access.old in
        AddsVisit seen (A.passes access.new) object change.now tries result }
    ensures tells { VisitTells (A.passes access.old).terms object change.now tries result }
{
    let shown = access.look(object);
    if !change.fits(&shown) {
        return Ok(None);
    }
    match access.change(object, change, tries) {
        Ok(Changed::Done { before, after, .. }) => Ok(Some(Stored {
            object,
            before,
            after,
        })),
        Ok(Changed::NotNow(_)) => Ok(None),
        Err(why) => Err(why),
    }
}
