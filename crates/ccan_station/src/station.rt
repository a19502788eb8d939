ghost use Rattle.std.specs.Prelude.{◌≡◌, ◌<◌, None, is_some};
ghost use Rattle.std.specs.Option.{ForSome};
ghost use Rattle.ccan_object.specs.Profile.{Holds};
ghost use Rattle.ccan_ram.specs.declared.port.PortName.TheVariants.{Bus as BusPort};
ghost use Rattle.ccan_ram.specs.Access.{Goes};
ghost use Rattle.ccan_ram.specs.SharedRam.{CanSee, IsSamePort, passes_of, terms_of};
ghost use Rattle.ccan_bus.specs.Complete.{Completes};
ghost use Rattle.ccan_bus.specs.Decide.{IsOf};
ghost use Rattle.ccan_endless.specs.ChipPort.{AddsNone, SeesOne};
ghost use Rattle.ccan_endless.specs.Layout.{same_object};

use crate::begun::Begun;
use crate::due::{due, frame_on, sent_as};
use crate::ended::Ended;
use crate::loaded::Loaded;
use crate::note::note;
use crate::part::{ending, kept, loaded_frame, may_send, member_now, role_now, sending_now};
use crate::stayed::Stayed;
use ccan_bus::{Decision, LoadAnswer, RoundAnswer, RoundEnd};
use ccan_chip::{ChipPort, Earlier, Lent, Objects, OwnEvent, arrive, takes_part};
use ccan_confine::Controller;
use ccan_object::Profile;
use ccan_ram::{Sending, Tries};
use ccan_wire::{Flaw, MOST_MEMBERS, Member, Wire};
use std::marker::Brand;

/// What a chip on a bus of several keeps between calls: the object whose transmission it has started, and what it is to the frame
/// that is under way.
#[derive(Clone, Copy, PartialEq, Eq, Hash, Debug)]
pub struct Station {
    pub(crate) profile: Profile,
    pub(crate) loaded: Option<Loaded>,
    pub(crate) under_way: Option<Member>,
    ghost held: { ForSome loaded (λ found. Holds profile found.object) },
}

/// The memory steps of a decision, over the objects. What came of them goes into the place for it.
fn complete_over<'a, E: Earlier>(
    decided: &Decision,
    lent: Lent<'a>,
    sending: Sending,
    tries: Tries,
    end: &mut RoundEnd,
) -> Lent<'a>
    requires held { IsOf lent.port.now.pass.memory.profile decided.now }
    requires none { AddsNone E.earlier lent.port.now }
    requires lent { lent.port.ghost_name ≡ E.lent }
    ensures none { AddsNone E.earlier result.port.now }
    ensures lent { result.port.ghost_name ≡ lent.entry.port.ghost_name }
    ensures goes { Goes (passes_of same_object lent.entry.port.now.pass)
        (passes_of same_object result.port.now.pass)
        (λ terms seen added. Completes terms sending tries seen added decided.now end.new) }
{
    let mut objects = Objects::<E>::new(lent);
    *end = decided.complete(&mut objects, sending, tries);
    objects.into_lent()
}

/// The memory steps of a decision, by the port where it is.
fn complete_at_objects(decided: &Decision, chip: &mut ChipPort, sending: Sending) -> RoundEnd
    requires held { IsOf chip.old.port.pass.memory.profile decided.now }
    requires one { SeesOne chip.old.port }
    ensures settings { chip.new.settings ≡ chip.old.settings }
    ensures none { AddsNone chip.old.port chip.new.port }
    ensures goes { Goes (passes_of same_object chip.old.port.pass)
        (passes_of same_object chip.new.port.pass) (λ terms seen added.
        Completes terms sending chip.old.settings.tries seen added decided.now result) }
{
    let tries = chip.settings.tries;
    let mut end = RoundEnd {
        answer: RoundAnswer::Idle,
        refused: None,
    };
    let lent = Lent {
        port: &mut chip.port,
        ram: &chip.ram,
    };
    let lent = complete_over::<Brand>(decided, lent, sending, tries, &mut end);
    lent.end();
    end
}

impl Station {
    ghost use Rattle.ccan_station.specs.Station.{Begins, Ends, Loads, Stays, left_by, loaded_before};
    ghost use Rattle.ccan_station.specs.Station.{member_now, still_loaded, still_under_way};

    /// A chip of this profile, with nothing loaded and nothing under way.
    pub fn new(profile: Profile) -> Station
        ensures profile { result.profile ≡ profile }
        ensures empty { result.loaded ≡ None }
        ensures rests { result.under_way ≡ None }
    {
        Station {
            profile,
            loaded: None,
            under_way: None,
        }
    }

    /// The object whose transmission was started and whose frame has not been on the bus yet.
    pub fn loaded(&self) -> Option<Loaded>
        ensures { result ≡ self.now.loaded }
    {
        self.loaded
    }

    /// What the chip is to the frame that is under way: a member that is absent, if no frame is under way or the chip takes no
    /// part in it.
    pub fn member(&self) -> Member
        ensures { result ≡ member_now self.now.under_way }
    {
        member_now(&self.under_way)
    }

    /// Whether a frame is under way for the chip: from its start to its end, or until a look in between finds that the controller has
    /// left the bus.
    pub fn is_under_way(&self) -> bool
        ensures { result ≡ is_some self.now.under_way }
    {
        self.under_way.is_some()
    }

    /// Drops what is loaded, and takes no more part in a frame that is under way, as a reset does. An object that was started with
    /// DAR 0 stays requested, so that a later load may start it again.
    pub fn unload(&mut self)
        ensures profile { self.new.profile ≡ self.old.profile }
        ensures empty { self.new.loaded ≡ None }
        ensures rests { self.new.under_way ≡ None }
    {
        *self = Station::new(self.profile);
    }

    /// Drops what was loaded if the controller has left the bus.
    fn leave_behind(&mut self, first: &Controller)
        ensures profile { self.new.profile ≡ self.old.profile }
        ensures loaded { self.new.loaded ≡ loaded_before first.now self.old.loaded }
    {
        if first.has_left {
            self.unload();
        }
    }

    /// Takes what a look found while a frame is under way.
    fn take(&mut self, found: &Controller)
        ensures profile { self.new.profile ≡ self.old.profile }
        ensures loaded { self.new.loaded ≡ still_loaded found.now self.old.loaded }
        ensures under_way { self.new.under_way ≡ still_under_way found.now self.old.under_way }
    {
        if !takes_part(found) {
            self.unload();
        }
    }

    /// After an event nothing is loaded, so that the next load chooses again; and nothing is under way.
    fn settle(&mut self, own: &Option<OwnEvent>)
        ensures profile { self.new.profile ≡ self.old.profile }
        ensures loaded { self.new.loaded ≡ left_by own.now self.old.loaded }
        ensures over { self.new.under_way ≡ None }
    {
        if own.is_some() {
            self.loaded = None;
        }
        self.under_way = None;
    }

    /// A load, over the objects. What came of it goes into the place for it.
    fn load_over<'a, E: Earlier>(
        &mut self,
        lent: Lent<'a>,
        sends: bool,
        sending: Sending,
        tries: Tries,
        answer: &mut LoadAnswer,
    ) -> Lent<'a>
        requires profile { lent.port.now.pass.memory.profile ≡ self.old.profile }
        requires none { AddsNone E.earlier lent.port.now }
        requires lent { lent.port.ghost_name ≡ E.lent }
        ensures none { AddsNone E.earlier result.port.now }
        ensures lent { result.port.ghost_name ≡ lent.entry.port.ghost_name }
        ensures profile { self.new.profile ≡ self.old.profile }
        ensures goes { Goes (passes_of same_object lent.entry.port.now.pass)
            (passes_of same_object result.port.now.pass) (λ terms seen added.
            Loads sends sending terms tries seen added self.old.loaded self.new.loaded
            answer.new) }
    {
        let mut objects = Objects::<E>::new(lent);
        *answer = self.load(&mut objects, sends, sending, tries);
        objects.into_lent()
    }

    /// A load, by the port where it is.
    fn load_at_objects(&mut self, chip: &mut ChipPort, sends: bool, sending: Sending) -> LoadAnswer
        requires profile { chip.old.port.pass.memory.profile ≡ self.old.profile }
        requires one { SeesOne chip.old.port }
        ensures settings { chip.new.settings ≡ chip.old.settings }
        ensures none { AddsNone chip.old.port chip.new.port }
        ensures profile { self.new.profile ≡ self.old.profile }
        ensures goes { Goes (passes_of same_object chip.old.port.pass)
            (passes_of same_object chip.new.port.pass) (λ terms seen added.
            Loads sends sending terms chip.old.settings.tries seen added self.old.loaded
            self.new.loaded result) }
    {
        let tries = chip.settings.tries;
        let mut answer = LoadAnswer::Nothing;
        let lent = Lent {
            port: &mut chip.port,
            ram: &chip.ram,
        };
        let lent = self.load_over::<Brand>(lent, sends, sending, tries, &mut answer);
        lent.end();
        answer
    }

    /// The start of a frame. The bus's port looks at the controller; if that has left the bus and may take part again, it joins
    /// and looks again. What was loaded is dropped if the controller has left the bus since. Then an object is chosen and
    /// started, if nothing is loaded and the controller may send; with DAR 1 its frame is tried once. What the chip is to the bus
    /// is under way from here on.
    pub fn begin(&mut self, chip: &mut ChipPort) -> Begun
        requires bus { chip.old.port.pass.port ≡ BusPort }
        requires profile { chip.old.port.pass.memory.profile ≡ self.old.profile }
        ensures profile { self.new.profile ≡ self.old.profile }
        ensures settings { chip.new.settings ≡ chip.old.settings }
        ensures port { IsSamePort chip.old.port.pass chip.new.port.pass }
        ensures sees { CanSee chip.new.port.pass }
        ensures one { SeesOne chip.new.port }
        ensures begins { Begins (terms_of same_object chip.old.port.pass.memory BusPort)
            chip.old.settings.tries chip.old.port chip.new.port
            self.old.loaded self.new.loaded self.new.under_way result }
    {
        let (first, found) = arrive(chip);
        self.leave_behind(&first);
        let role = role_now(&found);
        let sending = sending_now(&found);
        let loading = self.load_at_objects(chip, may_send(role), sending);
        let member = Member {
            role,
            frame: loaded_frame(&self.loaded),
            flaw: None,
        };
        self.under_way = kept(&member);
        Begun {
            found,
            loading,
            member,
        }
    }

    /// One more look at the controller while a frame is under way, and what the chip is to the bus from there. If the controller
    /// has left the bus since the start, even if it is back, it takes no part in the rest: nothing is under way, nothing is
    /// loaded.
    pub fn stay(&mut self, chip: &mut ChipPort) -> Stayed
        ensures profile { self.new.profile ≡ self.old.profile }
        ensures settings { chip.new.settings ≡ chip.old.settings }
        ensures port { IsSamePort chip.old.port.pass chip.new.port.pass }
        ensures stays { Stays chip.old.port chip.new.port self.old.loaded self.new.loaded
            self.old.under_way self.new.under_way result }
    {
        let found: Controller = chip.look_controller();
        self.take(&found);
        Stayed {
            found,
            member: member_now(&self.under_way),
        }
    }

    /// The end of a frame, for the chip at this position on the bus, which finds this error by itself. It looks at the
    /// controller: one that has left the bus since the start, even if it is back, has no event, and nothing is loaded. Otherwise
    /// the memory steps that the event calls for come first, and the finish among them is of the kind of the start. Then comes
    /// the event at the controller, in up to 1,000 tries. Nothing is under way afterwards.
    pub fn end(
        &mut self,
        chip: &mut ChipPort,
        wire: &Wire,
        place: usize,
        flaw: Option<Flaw>,
    ) -> Ended
        requires within { place < MOST_MEMBERS }
        requires bus { chip.old.port.pass.port ≡ BusPort }
        requires profile { chip.old.port.pass.memory.profile ≡ self.old.profile }
        ensures profile { self.new.profile ≡ self.old.profile }
        ensures settings { chip.new.settings ≡ chip.old.settings }
        ensures port { IsSamePort chip.old.port.pass chip.new.port.pass }
        ensures sees { CanSee chip.new.port.pass }
        ensures one { SeesOne chip.new.port }
        ensures ends { Ends (terms_of same_object chip.old.port.pass.memory BusPort)
            chip.old.settings.tries chip.old.port chip.new.port wire.now place flaw
            self.old.loaded self.new.loaded self.old.under_way result }
        ensures over { self.new.under_way ≡ None }
    {
        let found = chip.look_controller();
        self.take(&found);
        let own = wire.event(place, &ending(&self.under_way, flaw));
        let decided = due(self.profile, &own, &self.loaded, frame_on(wire));
        let sending = sent_as(&self.loaded);
        let end = complete_at_objects(&decided, chip, sending);
        self.settle(&own);
        let noted = note(chip, &own);
        Ended {
            found,
            own,
            end,
            noted,
        }
    }
}
