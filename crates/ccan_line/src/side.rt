ghost use Rattle.std.specs.Prelude.{◌≡◌, ◌+◌, ◌<◌, ◌≤◌, [], ◌∷◌, ◌++◌, All, IfSome, length, vec_len, vec_capacity};
ghost use Rattle.ccan_object.specs.declared.profile.Profile.{Profile};
ghost use Rattle.ccan_ram.specs.Access.{Goes};
ghost use Rattle.ccan_line.specs.Gate.{Asks, IsHeldAt, ran};
ghost use Rattle.ccan_line.specs.Lines.{LinesMean};
ghost use Rattle.ccan_line.specs.Side.{GoesOn};

use crate::gate::Gate;
use crate::line_answer::LineAnswer;
use ccan_bus::{LoadAnswer, RoundAnswer};
use ccan_confine::NodeState;
use ccan_object::{ObjectNo, Profile, Record};
use ccan_ram::{Access, Flag, PortName, Tries};

/// What the lines of a port work on: the interface registers of a host, or the bus.
pub trait Side {
    ghost use Rattle.std.specs.Prelude.{ℕ, List};
    ghost use Rattle.ccan_object.specs.declared.profile.Profile.{Profile};
    ghost use Rattle.ccan_ram.specs.declared.event.Event.{Event};
    ghost use Rattle.ccan_ram.specs.Terms.{Terms};
    ghost use Rattle.ccan_line.specs.declared.line_answer.LineAnswer.{LineAnswer};

    /// A line of the port.
    type Line;

    /// What lines speak of.
    ghost State: { Type 0 };

    /// This may have led to the value.
    ghost led_to: { State → Self → Type 0 };

    /// What a line stands for.
    ghost means: { Terms → ℕ → Self.Line → State → List Event → List Event → LineAnswer → State → Type 0 };

    /// The value can run the line over a memory of this profile.
    ghost takes: { Profile → Self → Self.Line → Type 0 };

    /// Runs one line. The lines that the value could run before it can run after it.
    fn run_line<A: Access>(&mut self, access: &mut A, line: &Self::Line, tries: Tries) -> LineAnswer
        requires { takes (A.passes access.old).terms.profile self.old line.now }
        ensures runs { Goes (A.passes access.old) (A.passes access.new) (λ terms seen added.
            GoesOn led_to self.old self.new (λ state left.
            means terms tries line.now state seen added result left)) }
        ensures takes { (profile : Profile) (other : Self.Line)
            → takes profile self.old other → takes profile self.new other };
}

/// Adds to a log that has room for it.
pub fn log_answer<T: Copy>(log: &mut Vec<T>, answer: T)
    requires { vec_len log.old < vec_capacity log.old }
    ensures items { log.new.items ≡ log.old.items ++ answer ∷ [] }
    ensures len { vec_len log.new ≡ vec_len log.old + 1 }
    ensures capacity { vec_capacity log.old ≤ vec_capacity log.new }
{
    if log.push(answer).is_err() {
        unreachable!();
    }
}

/// Runs the lines of a port in turn, as far as the gate lets it, and logs their answers. `None` if all ran, and else the
/// index of the line before which the gate stopped the port. The gate is asked once before each line, with the answers so
/// far, and for nothing else.
pub fn run_lines<S: Side, A: Access, G: Gate>(
    side: &mut S,
    access: &mut A,
    port: PortName,
    lines: &[S::Line],
    tries: Tries,
    gate: &mut G,
    log: &mut Vec<LineAnswer>,
) -> Option<usize>
    requires taken { All (S.takes (A.passes access.old).terms.profile side.old) lines.now }
    requires empty { log.old.items ≡ [] }
    requires room { length lines.now ≤ vec_capacity log.old }
    ensures runs { Goes (A.passes access.old) (A.passes access.new) (λ terms seen added.
        GoesOn S.led_to side.old side.new (λ state left.
        LinesMean (S.means terms tries) (ran result lines.now)
        state seen added log.new.items left)) }
    ensures stopped { IfSome result (IsHeldAt (length lines.now) log.new.items) }
    ensures asked { Asks G.enters port log.new.items result gate.old gate.new }
{
    for line in lines {
        if !gate.enter(port, log.as_slice()) {
            return Some(log.len());
        }
        let answer = side.run_line(access, line, tries);
        log_answer(log, answer);
    }
    None
}
