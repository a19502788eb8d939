ghost use Rattle.std.specs.Prelude.{ℕ, ◌≡◌, ◌<◌};
ghost use Rattle.ccan_object.specs.Profile.{Holds};
ghost use Rattle.ccan_ram.specs.Access.{Goes};
ghost use Rattle.ccan_process.specs.Act.{Runs};
ghost use Rattle.ccan_line.specs.Side.{GoesOn};
ghost use Rattle.ccan_line.specs.Engine.{Asks, CourseIs, Leads, course_rest};

use crate::attempt_end::attempted;
use crate::course::Course;
use crate::engine::Engine;
use crate::next_act::NextAct;
use ccan_object::{ObjectNo, Profile};
use ccan_ram::{Access, Tries};

/// Makes looks of a line from this one on, up to one that no look follows at once.
#[inline(always)]
fn look_on<E: Engine, A: Access>(
    engine: &mut E,
    access: &mut A,
    profile: Profile,
    line: &E::Line,
    point: &E::Point,
    object: ObjectNo,
) -> Course<E::Point, E::End>
    requires profile { (A.passes access.old).terms.profile ≡ profile }
    requires within { E.within profile (E.fixed engine.old) line.now point.now }
    requires held { Holds profile object }
    requires is { E.act profile engine.old line.now point.now ≡ NextAct.Look object }
    requires asks { (state : E.State) → E.led_to state engine.old
        → Asks (E.rest profile line.now state point.now) (NextAct.Look object) }
    ensures leads { Goes (A.passes access.old) (A.passes access.new) (λ terms seen added.
        GoesOn E.led_to engine.old engine.new (λ state after.
        (tries : ℕ) → Leads terms tries (E.rest profile line.now state point.now)
        (course_rest (E.rest profile line.now) after result) seen added)) }
    ensures within { CourseIs (λ next. E.within profile (E.fixed engine.new) line.now next
        × (E.left profile line.now next < E.left profile line.now point.now)) result }
    ensures fixed { E.fixed engine.new ≡ E.fixed engine.old }
{
    let mut here = *point;
    let mut object = object;
    loop {
        let shown = access.look(object);
        match engine.look_again(profile, line, &mut here, &shown) {
            Some(next) => object = next,
            None => return engine.after_look(profile, line, &here, object, &shown),
        }
    }
}

/// Makes the next act of a line over an access.
#[inline(always)]
fn go_on<E: Engine, A: Access>(
    engine: &mut E,
    access: &mut A,
    profile: Profile,
    line: &E::Line,
    point: &E::Point,
    tries: Tries,
) -> Course<E::Point, E::End>
    requires profile { (A.passes access.old).terms.profile ≡ profile }
    requires within { E.within profile (E.fixed engine.old) line.now point.now }
    ensures leads { Goes (A.passes access.old) (A.passes access.new) (λ terms seen added.
        GoesOn E.led_to engine.old engine.new (λ state after.
        Leads terms tries (E.rest profile line.now state point.now)
        (course_rest (E.rest profile line.now) after result) seen added)) }
    ensures within { CourseIs (λ next. E.within profile (E.fixed engine.new) line.now next
        × (E.left profile line.now next < E.left profile line.now point.now)) result }
    ensures fixed { E.fixed engine.new ≡ E.fixed engine.old }
{
    match engine.next(profile, line, point) {
        NextAct::Look(object) => look_on(engine, access, profile, line, point, object),
        NextAct::Attempt(object, change) => {
            let outcome = access.change(object, &change, tries);
            let end = attempted(&outcome);
            engine.after_attempt(profile, line, point, object, &change, &end)
        }
        NextAct::Decide => engine.decide(profile, line, point),
    }
}

/// Runs a line over an access, act by act, and answers how it ends: the calls of the access, and the end, are those of a run
/// of the line's process.
pub fn drive<E: Engine, A: Access>(
    engine: &mut E,
    access: &mut A,
    line: &E::Line,
    tries: Tries,
) -> E::End
    requires { E.takes (A.passes access.old).terms.profile (E.fixed engine.old) line.now }
    ensures runs { Goes (A.passes access.old) (A.passes access.new) (λ terms seen added.
        GoesOn E.led_to engine.old engine.new (λ state left.
        Runs terms tries (E.process terms.profile line.now state) seen added (result, left))) }
    ensures fixed { E.fixed engine.new ≡ E.fixed engine.old }
{
    let profile = access.profile();
    let mut course = engine.enter(profile, line);
    loop {
        match course {
            Course::Ended(end) => return end,
            Course::At(point) => course = go_on(engine, access, profile, line, &point, tries),
        }
    }
}
