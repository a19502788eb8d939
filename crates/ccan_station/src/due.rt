//! The memory steps that an event calls for.

ghost use Rattle.std.specs.Prelude.{◌≡◌};
ghost use Rattle.std.specs.Option.{ForSome};
ghost use Rattle.ccan_object.specs.Profile.{Holds};
ghost use Rattle.ccan_bus.specs.Decide.{IsOf};
ghost use Rattle.ccan_wire.specs.Wire.{start_of};
ghost use Rattle.ccan_station.specs.Station.{due, due_by, finish_of, frame_won, loop_of, receipt_of, sent_as};

use crate::loaded::Loaded;
use ccan_accept::{Frame, frame_of};
use ccan_bus::Decision;
use ccan_chip::OwnEvent;
use ccan_confine::StatusEvent;
use ccan_object::Profile;
use ccan_ram::Sending;
use ccan_wire::{Start, Wire};

/// The frame that won the bus.
pub(crate) fn frame_on(wire: &Wire) -> Option<Frame>
    ensures { result ≡ frame_won (start_of wire.now) }
{
    match wire.start() {
        Start::Nothing | Start::Collision(_) => None,
        Start::Won(winner) => Some(winner.frame),
    }
}

fn finish_of(profile: Profile, loaded: &Option<Loaded>) -> Decision
    requires { ForSome loaded.now (λ found. Holds profile found.object) }
    ensures value { result ≡ finish_of loaded.now }
    ensures held { IsOf profile result }
{
    match loaded {
        None => Decision::Idle,
        Some(loaded) => Decision::Finish(loaded.object, frame_of(&loaded.started)),
    }
}

fn loop_of(profile: Profile, loaded: &Option<Loaded>) -> Decision
    requires { ForSome loaded.now (λ found. Holds profile found.object) }
    ensures value { result ≡ loop_of loaded.now }
    ensures held { IsOf profile result }
{
    match loaded {
        None => Decision::Idle,
        Some(loaded) => Decision::LoopBack(loaded.object, frame_of(&loaded.started)),
    }
}

fn receipt_of(profile: Profile, won: Option<Frame>) -> Decision
    ensures value { result ≡ receipt_of won }
    ensures held { IsOf profile result }
{
    match won {
        None => Decision::Idle,
        Some(frame) => Decision::Receipt(1, frame),
    }
}

/// How often what is loaded is tried. If nothing is, nothing is finished.
pub(crate) fn sent_as(loaded: &Option<Loaded>) -> Sending
    ensures { result ≡ sent_as loaded.now }
{
    match loaded {
        None => Sending::UntilSent,
        Some(loaded) => loaded.sending,
    }
}

/// The memory steps that a member's event calls for.
pub(crate) fn due(
    profile: Profile,
    own: &Option<OwnEvent>,
    loaded: &Option<Loaded>,
    won: Option<Frame>,
) -> Decision
    requires { ForSome loaded.now (λ found. Holds profile found.object) }
    ensures value { result ≡ due own.now loaded.now won }
    ensures held { IsOf profile result }
{
    match own {
        None => Decision::Idle,
        Some((_, StatusEvent::Sent)) => finish_of(profile, loaded),
        Some((_, StatusEvent::Looped)) => loop_of(profile, loaded),
        Some((_, StatusEvent::Received)) => receipt_of(profile, won),
        Some((_, StatusEvent::Fault(_))) => Decision::Idle,
        Some((_, StatusEvent::Recovery)) => Decision::Idle,
        Some((_, StatusEvent::Level)) => Decision::Idle,
    }
}
