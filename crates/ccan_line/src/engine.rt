ghost use Rattle.std.specs.Prelude.{◌≡◌, ◌<◌, IfNone, IfSome};
ghost use Rattle.ccan_object.specs.Profile.{Holds};
ghost use Rattle.ccan_line.specs.Side.{GoesOn};
ghost use Rattle.ccan_line.specs.Engine.{Asks, CourseIs, DecidesTo, NamesHeld, after_attempt};
ghost use Rattle.ccan_line.specs.Engine.{after_look, attempted_of, course_rest};
ghost use Rattle.ccan_line.specs.declared.next_act.NextAct.TheVariants as kind;

use crate::attempt_end::AttemptEnd;
use crate::course::Course;
use crate::next_act::NextAct;
use ccan_object::{ObjectNo, Profile, Record};
use ccan_ram::Change;

/// What the lines of a port work on, act by act: a line is entered, and from then on it says what it does next and learns
/// what came of that, up to its end. Each method says how what is left of the line's process changes. An ordered run goes
/// by it, but a line that only asks is one call of the message handler there. A search takes its steps by the same
/// functions.
pub trait Engine {
    ghost use Rattle.std.specs.Prelude.{ℕ};
    ghost use Rattle.ccan_object.specs.declared.profile.Profile.{Profile};
    ghost use Rattle.ccan_process.specs.Act.{Process};
    ghost use Rattle.ccan_line.specs.declared.next_act.NextAct.{NextAct};

    /// A line of the port.
    type Line;

    /// Where the port is within a line.
    type Point: Copy;

    /// How a line ends.
    type End: Copy;

    /// What lines speak of.
    ghost State: { Type 0 };

    /// This may have led to the value.
    ghost led_to: { State → Self → Type 0 };

    /// What no line changes.
    ghost Fixed: { Type 0 };

    /// That of the value.
    ghost fixed: { Self → Fixed };

    /// A line as a process.
    ghost process: { Profile → Self.Line → State → Process (Self.End × State) };

    /// What is left of it.
    ghost rest: { Profile → Self.Line → State → Self.Point → Process (Self.End × State) };

    /// The line can run over a memory of this profile.
    ghost takes: { Profile → Fixed → Self.Line → Type 0 };

    /// The port may be there in the line.
    ghost within: { Profile → Fixed → Self.Line → Self.Point → Type 0 };

    /// What the line does next there.
    ghost act: { Profile → Self → Self.Line → Self.Point → NextAct };

    /// How many acts follow the next one at most.
    ghost left: { Profile → Self.Line → Self.Point → ℕ };

    /// A line up to its first act, or its end.
    fn enter(&mut self, profile: Profile, line: &Self::Line) -> Course<Self::Point, Self::End>
        requires { takes profile (fixed self.old) line.now }
        ensures comes { GoesOn led_to self.old self.new (λ state after.
            process profile line.now state ≡ course_rest (rest profile line.now) after result) }
        ensures within { CourseIs (within profile (fixed self.new) line.now) result }
        ensures fixed { fixed self.new ≡ fixed self.old };

    /// What the line does next.
    fn next(&self, profile: Profile, line: &Self::Line, point: &Self::Point) -> NextAct
        requires { within profile (fixed self.now) line.now point.now }
        ensures is { result ≡ act profile self.now line.now point.now }
        ensures asks { (state : State) → led_to state self.now
            → Asks (rest profile line.now state point.now) result }
        ensures held { NamesHeld profile result };

    /// Whether a look that shows this record is followed by another one at once: then the point is that look's, and its
    /// object is answered. Otherwise the point stays, and [`Engine::after_look`] says what follows.
    fn look_again(
        &self,
        profile: Profile,
        line: &Self::Line,
        point: &mut Self::Point,
        shown: &Record,
    ) -> Option<ObjectNo>
        requires within { within profile (fixed self.now) line.now point.old }
        ensures none { IfNone result (point.new ≡ point.old) }
        ensures is { IfSome result (λ object.
            act profile self.now line.now point.new ≡ kind.Look object) }
        ensures asks { IfSome result (λ object. (state : State) → led_to state self.now
            → Asks (rest profile line.now state point.new) (kind.Look object)) }
        ensures held { IfSome result (Holds profile) }
        ensures comes { IfSome result (λ object. (state : State) → led_to state self.now
            → after_look shown.now (rest profile line.now state point.old)
            ≡ rest profile line.now state point.new) }
        ensures within { IfSome result (λ object. within profile (fixed self.now) line.now point.new
            × (left profile line.now point.new < left profile line.now point.old)) };

    /// What follows a look that shows this record.
    fn after_look(
        &mut self,
        profile: Profile,
        line: &Self::Line,
        point: &Self::Point,
        object: ObjectNo,
        shown: &Record,
    ) -> Course<Self::Point, Self::End>
        requires within { within profile (fixed self.old) line.now point.now }
        requires is { act profile self.old line.now point.now ≡ kind.Look object }
        ensures comes { GoesOn led_to self.old self.new (λ state after.
            after_look shown.now (rest profile line.now state point.now)
            ≡ course_rest (rest profile line.now) after result) }
        ensures within { CourseIs (λ next. within profile (fixed self.new) line.now next
            × (left profile line.now next < left profile line.now point.now)) result }
        ensures fixed { fixed self.new ≡ fixed self.old };

    /// What follows an attempt of a change that ends so.
    fn after_attempt(
        &mut self,
        profile: Profile,
        line: &Self::Line,
        point: &Self::Point,
        object: ObjectNo,
        change: &Change,
        end: &AttemptEnd,
    ) -> Course<Self::Point, Self::End>
        requires within { within profile (fixed self.old) line.now point.now }
        requires is { act profile self.old line.now point.now ≡ kind.Attempt object change.now }
        ensures comes { GoesOn led_to self.old self.new (λ state after.
            after_attempt (attempted_of end.now) (rest profile line.now state point.now)
            ≡ course_rest (rest profile line.now) after result) }
        ensures within { CourseIs (λ next. within profile (fixed self.new) line.now next
            × (left profile line.now next < left profile line.now point.now)) result }
        ensures fixed { fixed self.new ≡ fixed self.old };

    /// If the line decides a round next: decides it, and what follows.
    fn decide(
        &mut self,
        profile: Profile,
        line: &Self::Line,
        point: &Self::Point,
    ) -> Course<Self::Point, Self::End>
        requires within { within profile (fixed self.old) line.now point.now }
        ensures comes { act profile self.old line.now point.now ≡ kind.Decide
            → GoesOn led_to self.old self.new (λ state after.
            DecidesTo (rest profile line.now state point.now)
            (course_rest (rest profile line.now) after result)) }
        ensures within { act profile self.old line.now point.now ≡ kind.Decide
            → CourseIs (λ next. within profile (fixed self.new) line.now next
            × (left profile line.now next < left profile line.now point.now)) result }
        ensures fixed { fixed self.new ≡ fixed self.old };
}
