ghost use Rattle.std.specs.Prelude.{◌≡◌, IfNone, IfSome, None, Some};
ghost use Rattle.ccan_accept.specs.Send.{frame_of};
ghost use Rattle.ccan_object.specs.declared.record.Record.{Record};

use ccan_accept::{Frame, frame_of};
use ccan_object::{ObjectNo, Record};

/// What the controller sends: the object that is loaded, and its frame.
#[derive(Clone, Copy, PartialEq, Eq, Debug)]
pub(crate) struct Own {
    pub object: ObjectNo,
    pub frame: Frame,
}

/// What is loaded, as what is sent.
pub(crate) fn own_of(loaded: &Option<(ObjectNo, Record)>) -> Option<Own>
    ensures some { IfSome result (λ own. (started : Record)
        × (loaded.now ≡ Some (own.object, started)) × (own.frame ≡ frame_of started)) }
    ensures none { IfNone result (loaded.now ≡ None) }
{
    match loaded {
        Some((object, started)) => Some(Own {
            object: *object,
            frame: frame_of(started),
        }),
        None => None,
    }
}
