ghost use Rattle.std.specs.Prelude.{◌≡◌, true, None, Some};
ghost use Rattle.ccan_ram.specs.Access.{Goes};
ghost use Rattle.ccan_bus.specs.Load.{refusal_of_load};
ghost use Rattle.ccan_station.specs.Station.{Loads};

use crate::loaded::Loaded;
use crate::station::Station;
use ccan_bus::LoadAnswer;
use ccan_handler::{ScanRefused, choose_at_once};
use ccan_object::{ObjectNo, Record};
use ccan_ram::{Access, Refused, Sending, Tries};

fn refusal_of_load(refused: ScanRefused) -> LoadAnswer
    ensures { result ≡ refusal_of_load refused.at refused.why }
{
    match refused.why {
        Refused::Busy { .. } => LoadAnswer::Busy(refused.at),
        Refused::Spent => LoadAnswer::Spent(refused.at),
    }
}

fn loaded(object: ObjectNo, started: &Record, sending: Sending) -> Option<Loaded>
    ensures { result ≡ Some (record { object = object; started = started.now; sending = sending }) }
{
    Some(Loaded {
        object,
        started: *started,
        sending,
    })
}

fn loaded_answer(object: ObjectNo, started: &Record) -> LoadAnswer
    ensures { result ≡ LoadAnswer.Loaded object started.now }
{
    LoadAnswer::Loaded(object, *started)
}

impl Station {
    /// Chooses and starts an object if nothing is loaded.
    fn load_next<A: Access>(&mut self, access: &mut A, sending: Sending, tries: Tries) -> LoadAnswer
        requires empty { self.old.loaded ≡ None }
        requires same_profile { (A.passes access.old).terms.profile ≡ self.old.profile }
        ensures profile { self.new.profile ≡ self.old.profile }
        ensures under_way { self.new.under_way ≡ self.old.under_way }
        ensures goes { Goes (A.passes access.old) (A.passes access.new) (λ terms seen added.
            Loads true sending terms tries seen added self.old.loaded self.new.loaded result) }
    {
        match choose_at_once(access, sending, tries) {
            Ok(Some((object, started))) => {
                self.loaded = loaded(object, &started, sending);
                loaded_answer(object, &started)
            }
            Ok(None) => LoadAnswer::Nothing,
            Err(refused) => refusal_of_load(refused),
        }
    }

    /// The load of a frame's start.
    pub(crate) fn load<A: Access>(
        &mut self,
        access: &mut A,
        sends: bool,
        sending: Sending,
        tries: Tries,
    ) -> LoadAnswer
        requires same_profile { (A.passes access.old).terms.profile ≡ self.old.profile }
        ensures profile { self.new.profile ≡ self.old.profile }
        ensures under_way { self.new.under_way ≡ self.old.under_way }
        ensures goes { Goes (A.passes access.old) (A.passes access.new) (λ terms seen added.
            Loads sends sending terms tries seen added self.old.loaded self.new.loaded result) }
    {
        if sends {
            match self.loaded {
                Some(loaded) => LoadAnswer::Held(loaded.object),
                None => self.load_next(access, sending, tries),
            }
        } else {
            self.loaded = None;
            LoadAnswer::Nothing
        }
    }
}
