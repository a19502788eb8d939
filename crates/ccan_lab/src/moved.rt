//! What the states before and after a step of a history show of the step.
ghost use Rattle.std.specs.Prelude.{◌≡◌, ◌+◌, ◌<◌, Some, length, option_map, slice_get};
ghost use Rattle.ccan_outcomes.specs.RaceScript.{fields_of};
ghost use Rattle.ccan_lab.specs.Moved.{IsWonAt, WinsRound, round_at};

use ccan_accept::Frame;
use ccan_bus::{Bus, RoundLine};
use ccan_outcomes::all_ports::AllPorts;
use ccan_script::RaceScript;

/// The states before and after a step.
#[derive(Clone, Copy)]
pub struct Moved<'a> {
    /// That before it.
    pub before: &'a AllPorts,
    /// That after it.
    pub after: &'a AllPorts,
}

/// The round that a line of the bus is, by its number from 1.
fn round_at(race: &RaceScript, line: usize) -> Option<&RoundLine>
    ensures { option_map (λ round. round.now) result ≡ round_at (fields_of race.now) line }
{
    race.script.bus.get(line.checked_sub(1)?)?.round()
}

/// The frame that wins a round, and the node that sends it; the controller is node 0. None: no frame contends, or some collide.
fn winner_by(mut bus: Bus, round: &RoundLine) -> Option<(u8, Frame)>
    ensures { WinsRound bus round.now result }
{
    bus.decide(round).winner()
}

/// The frame that is on the bus as a round is decided, and the node that sends it, by the state before.
pub fn winner_at(race: &RaceScript, line: usize, before: &AllPorts) -> Option<(u8, Frame)>
    ensures { IsWonAt (fields_of race.now) line before.now result }
{
    match round_at(race, line) {
        Some(round) => winner_by(before.bus.bus, round),
        None => None,
    }
}

/// The states before and after the step of this place. There is one state more than there are steps, the first before any.
pub fn moved_at(states: &[AllPorts], place: usize) -> Moved<'_>
    requires { place + 1 < length states.now }
    ensures before { slice_get states.now place ≡ Some result.before.now }
    ensures after { slice_get states.now (place + 1) ≡ Some result.after.now }
{
    Moved {
        before: &states[place],
        after: &states[place + 1],
    }
}
