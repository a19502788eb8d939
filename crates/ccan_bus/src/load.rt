//! Loads: what the controller is about to send.

ghost use Rattle.std.specs.Prelude.{◌≡◌, None, Some};
ghost use Rattle.ccan_object.specs.Profile.{Holds};
ghost use Rattle.ccan_bus.specs.Load.{Loads, refusal_of_load};

use crate::answer::LoadAnswer;
use crate::bus::Bus;
use ccan_handler::ScanRefused;
use ccan_object::{ObjectNo, Record};
use ccan_ram::{Access, Refused, Tries};

/// What is loaded, and the answer that reports it.
fn loaded(object: ObjectNo, started: &Record) -> Option<(ObjectNo, Record)>
    ensures { result ≡ Some (object, started.now) }
{
    Some((object, *started))
}

fn loaded_answer(object: ObjectNo, started: &Record) -> LoadAnswer
    ensures { result ≡ LoadAnswer.Loaded object started.now }
{
    LoadAnswer::Loaded(object, *started)
}

/// The answer of a load that was refused.
fn refusal_of_load(refused: ScanRefused) -> LoadAnswer
    ensures { result ≡ refusal_of_load refused.at refused.why }
{
    match refused.why {
        Refused::Busy { .. } => LoadAnswer::Busy(refused.at),
        Refused::Spent => LoadAnswer::Spent(refused.at),
    }
}

impl Bus {
    ghost use Rattle.ccan_bus.specs.Bus.{GoesOn, GoesOnWith, IsSameBus, LedTo};
    ghost use Rattle.ccan_bus.specs.Past.{BusPast, is_on};

    /// The object whose transmission was started and whose frame has not been sent yet, with its record after the start.
    pub fn loaded(&self) -> Option<(ObjectNo, Record)>
        ensures { (past : BusPast) → LedTo past self.now → result ≡ past.loaded }
    {
        self.loaded
    }

    /// Whether the controller is on.
    pub fn controller_is_on(&self) -> bool
        ensures { (past : BusPast) → LedTo past self.now → result ≡ is_on past 0 }
    {
        self.is_on(0)
    }

    /// Notes that the transmission of this object was started by changes that the caller made itself, and its record
    /// after the start: from now on it is loaded, as after `load`.
    pub fn note_loaded(&mut self, object: ObjectNo, started: &Record)
        requires { Holds self.old.profile object }
        ensures same { IsSameBus self.old self.new }
        ensures goes_on { GoesOn self.old self.new
            (λ past after. after ≡ record past { loaded = Some (object, started.now) }) }
    {
        self.loaded = loaded(object, started);
    }

    /// Chooses and starts an object, if the controller is on and nothing is loaded.
    pub fn load<A: Access>(&mut self, access: &mut A, tries: Tries) -> LoadAnswer
        requires { (A.passes access.old).terms.profile ≡ self.old.profile }
        ensures same { IsSameBus self.old self.new }
        ensures goes_on { GoesOnWith (A.passes access.old) (A.passes access.new) self.old self.new
            (λ terms seen added past after. Loads terms tries seen added past after result) }
    {
        match self.loaded {
            Some((object, _)) => LoadAnswer::Held(object),
            None => self.load_next(access, tries),
        }
    }

    /// The same if nothing is loaded.
    fn load_next<A: Access>(&mut self, access: &mut A, tries: Tries) -> LoadAnswer
        requires empty { self.old.loaded ≡ None }
        requires same_profile { (A.passes access.old).terms.profile ≡ self.old.profile }
        ensures same { IsSameBus self.old self.new }
        ensures goes_on { GoesOnWith (A.passes access.old) (A.passes access.new) self.old self.new
            (λ terms seen added past after. Loads terms tries seen added past after result) }
    {
        let is_on = self.is_on(0);
        if is_on {
            match self.choice.start(access, tries) {
                Ok(Some((object, started))) => {
                    self.loaded = loaded(object, &started);
                    loaded_answer(object, &started)
                }
                Ok(None) => LoadAnswer::Nothing,
                Err(refused) => refusal_of_load(refused),
            }
        } else {
            LoadAnswer::Nothing
        }
    }
}
