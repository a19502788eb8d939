//! Answers for one moment, from one picture of all objects.
ghost use Rattle.std.specs.Prelude.{◌≡◌, ◌<◌, ◌^◌, IfOk, IfSome};
ghost use Rattle.ccan_object.specs.Profile.{Holds, objects_in};
ghost use Rattle.ccan_handler.specs.Moment.{AddsChoiceAmong, AddsChoiceAtOnce, AddsFlagsAtOnce, AddsInterruptAtOnce};
ghost use Rattle.ccan_handler.specs.Moment.{AddsStart, IsFirstSet, was_ready};
ghost use Rattle.ccan_handler.specs.Scan.{IsStarted, StartsWhatIsReady};
ghost use Rattle.ccan_handler.specs.Watch.{InterruptTells};

use crate::objects::nth;
use crate::scan::ScanRefused;
use crate::watch::STATUS_INTERRUPT;
use ccan_object::{ObjectNo, Record};
use ccan_ram::{Access, Changed, Flag, HandlerRegisters, Refused, Sending, Tries};

/// A flag of all objects in one moment: that of object k in bit k - 1 (User's Manual, sections 3.4.2 to 3.4.5).
pub fn flags_at_once<A: Access>(access: &mut A, flag: Flag) -> u64
    ensures adds { AddsFlagsAtOnce (A.passes access.old) (A.passes access.new) flag result }
    ensures within { result < 2 ^ objects_in (A.passes access.old).terms.profile }
{
    access.look_all().of(flag)
}

/// The interrupt value (User's Manual, section 3.4.1) in one moment: 0x8000 if the status interrupt is pending, which
/// the bus side knows; else the number of the first object with IntPnd, or 0.
pub fn interrupt_at_once<A: Access>(access: &mut A, status_pending: bool) -> u16
    ensures adds { AddsInterruptAtOnce (A.passes access.old) (A.passes access.new)
        status_pending result }
    ensures tells { InterruptTells (A.passes access.old).terms.profile status_pending result }
{
    if status_pending {
        return STATUS_INTERRUPT;
    }
    first_set(access.look_all().intpnd)
}

/// The number of the lowest bit that is set, from 1 on; 0 if none is.
fn first_set(word: u64) -> u16
    ensures { IsFirstSet word result }
{
    if word == 0 {
        0
    } else {
        word.trailing_zeros() as u16 + 1
    }
}

/// Starts the first object that was ready in one moment, unless it is no longer ready: then the next one that was. Its frame is
/// tried as often as `sending` says.
///
/// None: no object was ready in that moment, or each that was is no longer ready.
pub fn choose_at_once<A: Access>(
    access: &mut A,
    sending: Sending,
    tries: Tries,
) -> Result<Option<(ObjectNo, Record)>, ScanRefused>
    ensures adds { AddsChoiceAtOnce (A.passes access.old) (A.passes access.new)
        sending tries result }
    ensures made { StartsWhatIsReady (A.passes access.old).terms sending 1 result }
{
    let shown = access.look_all();
    choose_among(access, sending, shown, tries)
}

/// Starts the first object that was ready in a picture, and that still is.
fn choose_among<A: Access>(
    access: &mut A,
    sending: Sending,
    shown: HandlerRegisters,
    tries: Tries,
) -> Result<Option<(ObjectNo, Record)>, ScanRefused>
    ensures adds { AddsChoiceAmong (A.passes access.old) (A.passes access.new)
        sending shown tries result }
    ensures made { StartsWhatIsReady (A.passes access.old).terms sending 1 result }
{
    for place in 0..access.profile().objects() {
        let object = nth(place + 1);
        match start(access, sending, shown, object, tries) {
            Ok(None) => {}
            Ok(Some(after)) => return Ok(Some((object, after))),
            Err(why) => return Err(ScanRefused { at: object, why }),
        }
    }
    Ok(None)
}

/// Starts an object that was ready in a picture. None: it was not, or it is no longer ready.
fn start<A: Access>(
    access: &mut A,
    sending: Sending,
    shown: HandlerRegisters,
    object: ObjectNo,
    tries: Tries,
) -> Result<Option<Record>, Refused>
    requires held { Holds (A.passes access.old).terms.profile object }
    ensures adds { AddsStart (A.passes access.old) (A.passes access.new)
        sending shown object tries result }
    ensures made { let terms = (A.passes access.old).terms in
        IfOk result (λ found. IfSome found (λ after. IsStarted terms sending 1 (object, after))) }
{
    if !was_ready(shown, object) {
        return Ok(None);
    }
    match access.change(object, &sending.start(), tries) {
        Ok(Changed::Done { after, .. }) => Ok(Some(after)),
        Ok(Changed::NotNow(_)) => Ok(None),
        Err(why) => Err(why),
    }
}

/// Whether an object was valid in a picture, and its transmission requested.
fn was_ready(shown: HandlerRegisters, object: ObjectNo) -> bool
    ensures { result ≡ was_ready shown object }
{
    shown.shows(Flag::MsgVal, object) && shown.shows(Flag::TxRqst, object)
}
