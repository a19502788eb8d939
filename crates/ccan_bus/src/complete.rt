//! The memory steps of a round.

ghost use Rattle.std.specs.Prelude.{◌≡◌};
ghost use Rattle.ccan_object.specs.Profile.{Holds};
ghost use Rattle.ccan_ram.specs.Access.{Goes};
ghost use Rattle.ccan_bus.specs.Decide.{IsOf};
ghost use Rattle.ccan_bus.specs.Complete.{Completes, Finishes, TakesBack, end_of_finish, end_of_loop, end_of_receipt, ended};
ghost use Rattle.ccan_bus.specs.Complete.{refused_at};

use crate::answer::RoundAnswer;
use crate::decision::Decision;
use crate::memory_step::MemoryStep;
use crate::round_end::RoundEnd;
use ccan_accept::Frame;
use ccan_handler::{ScanRefused, Stored, receive};
use ccan_object::{ObjectNo, Record};
use ccan_ram::{Access, Changed, Refused, Sending, Tries};

/// The end of a round in which no memory step was refused.
fn ended(answer: RoundAnswer) -> RoundEnd
    ensures { result ≡ ended answer }
{
    RoundEnd {
        answer,
        refused: None,
    }
}

/// The end of a round in which a memory step was refused at an object.
fn refused_at(step: MemoryStep, object: ObjectNo, why: Refused) -> RoundEnd
    ensures { result ≡ refused_at step object why }
{
    let answer = match why {
        Refused::Busy { .. } => RoundAnswer::Busy(object),
        Refused::Spent => RoundAnswer::Spent(object),
    };
    RoundEnd {
        answer,
        refused: Some(step),
    }
}

/// The end if the controller has sent.
fn end_of_finish(object: ObjectNo, outcome: Result<Record, Refused>) -> RoundEnd
    ensures { result ≡ end_of_finish object outcome }
{
    match outcome {
        Ok(finished) => ended(RoundAnswer::Sent(object, finished)),
        Err(why) => refused_at(MemoryStep::Finish, object, why),
    }
}

/// The end if another node has sent and the controller is on.
fn end_of_receipt(outcome: Result<Option<Stored>, ScanRefused>) -> RoundEnd
    ensures { result ≡ end_of_receipt outcome }
{
    match outcome {
        Ok(Some(stored)) => ended(RoundAnswer::Received(Some((stored.object, stored.after)))),
        Ok(None) => ended(RoundAnswer::Received(None)),
        Err(refused) => refused_at(MemoryStep::Store, refused.at, refused.why),
    }
}

/// The end in loop back mode, once the object that was sent is finished.
fn end_of_loop(
    object: ObjectNo,
    finished: &Record,
    outcome: Result<Option<Stored>, ScanRefused>,
) -> RoundEnd
    ensures { result ≡ end_of_loop object finished.now outcome }
{
    match outcome {
        Ok(Some(stored)) => {
            let found = Some((stored.object, stored.after));
            ended(RoundAnswer::Looped(object, *finished, found))
        }
        Ok(None) => ended(RoundAnswer::Looped(object, *finished, None)),
        Err(refused) => refused_at(MemoryStep::Store, refused.at, refused.why),
    }
}

/// Finishes the object that was sent, and answers its record afterwards.
fn finish<A: Access>(
    access: &mut A,
    sending: Sending,
    object: ObjectNo,
    tries: Tries,
) -> Result<Record, Refused>
    requires { Holds (A.passes access.old).terms.profile object }
    ensures { Goes (A.passes access.old) (A.passes access.new)
        (λ terms seen added. Finishes terms sending tries seen added object result) }
{
    match access.change(object, &sending.finish(), tries) {
        Ok(Changed::Done { after, .. }) => Ok(after),
        // A finish fits every record, so this doesn't happen.
        Ok(Changed::NotNow(shown)) => Ok(shown),
        Err(why) => Err(why),
    }
}

/// Finishes the object that was sent, and then receives its frame.
fn take_back<A: Access>(
    access: &mut A,
    sending: Sending,
    object: ObjectNo,
    frame: &Frame,
    tries: Tries,
) -> RoundEnd
    requires { Holds (A.passes access.old).terms.profile object }
    ensures { Goes (A.passes access.old) (A.passes access.new)
        (λ terms seen added. TakesBack terms sending tries seen added object frame.now result) }
{
    match finish(access, sending, object, tries) {
        Ok(finished) => end_of_loop(object, &finished, receive(access, frame, tries)),
        Err(why) => refused_at(MemoryStep::Finish, object, why),
    }
}

impl Decision {
    /// Makes the memory steps that are due, and ends the round. What was sent is finished as it was started. A step that is
    /// refused is given up, and all else remains.
    pub fn complete<A: Access>(&self, access: &mut A, sending: Sending, tries: Tries) -> RoundEnd
        requires { IsOf (A.passes access.old).terms.profile self.now }
        ensures { Goes (A.passes access.old) (A.passes access.new)
            (λ terms seen added. Completes terms sending tries seen added self.now result) }
    {
        match self {
            Decision::Idle => ended(RoundAnswer::Idle),
            Decision::Collision => ended(RoundAnswer::Collision),
            Decision::Fault(_, _) => ended(RoundAnswer::Fault),
            Decision::NoAck(_, _) => ended(RoundAnswer::NoAck),
            Decision::Passed(_, _) => ended(RoundAnswer::Passed),
            Decision::Finish(object, _) => {
                end_of_finish(*object, finish(access, sending, *object, tries))
            }
            Decision::Receipt(_, frame) => end_of_receipt(receive(access, frame, tries)),
            Decision::LoopBack(object, frame) => take_back(access, sending, *object, frame, tries),
        }
    }
}
