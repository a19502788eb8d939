//! The forms of the bus's lines.
ghost use Rattle.std.specs.Prelude.{◌≡◌};
ghost use Rattle.std.specs.List.{list_any};
ghost use Rattle.ccan_lab.specs.BusForms.{bus_begins, idle_begins, load_begins, loads_begin, looped_begins};
ghost use Rattle.ccan_lab.specs.BusForms.{controller_begins, looped_form, recessive_begins, rounds_begin, sent_begins};
ghost use Rattle.ccan_lab.specs.BusForms.{extended_data_begins, extended_long_begins, extended_remote_begins};
ghost use Rattle.ccan_lab.specs.BusForms.{extended_short_begins, frames_begin, standard_data_begins};
ghost use Rattle.ccan_lab.specs.BusForms.{standard_long_begins, standard_remote_begins, standard_short_begins};
ghost use Rattle.ccan_lab.specs.Forms.{begins};

use crate::forms::{
    RECORD, answer_begins, begins, flags_begin, interrupt_begins, object_form, shown_begins,
};
use ccan_bus::LoadAnswer;
use ccan_line::ControllerLine;
use ccan_object::{ObjectNo, Profile};
use ccan_ram::PortName;
use ccan_script::{BusLine, LineAnswer};

/// Whether the answer of a load of this object can begin so.
#[tactic(auto, unfolding(crate::specs::BusForms::load_begins))]
fn load_begins(text: &str, object: ObjectNo) -> bool
    ensures { result ≡ load_begins text.now object }
{
    shown_begins(text, "bus", " loaded", object)
        || answer_begins(
            text,
            PortName::Bus,
            &LineAnswer::Load(LoadAnswer::Held(object)),
        )
        || answer_begins(
            text,
            PortName::Bus,
            &LineAnswer::Load(LoadAnswer::Busy(object)),
        )
        || answer_begins(
            text,
            PortName::Bus,
            &LineAnswer::Load(LoadAnswer::Spent(object)),
        )
}

/// Whether the answer of a load of one of these objects can begin so.
fn any_load_begins(text: &str, objects: &[ObjectNo]) -> bool
    ensures { result ≡ list_any (load_begins text.now) objects.now }
{
    objects.iter().any(|object| load_begins(text, *object))
}

/// Whether the answer of a load can begin so.
#[tactic(auto, unfolding(crate::specs::BusForms::loads_begin))]
fn loads_begin(text: &str, objects: &[ObjectNo]) -> bool
    ensures { result ≡ loads_begin text.now objects.now }
{
    begins(text, "bus loaded none\n") || any_load_begins(text, objects)
}

/// Whether the answer of a round that sends this object, or stores a frame in it, can begin so.
#[tactic(auto, unfolding(crate::specs::BusForms::sent_begins))]
fn sent_begins(text: &str, object: ObjectNo) -> bool
    ensures { result ≡ sent_begins text.now object }
{
    shown_begins(text, "bus", " sent", object)
        || shown_begins(text, "bus", " received", object)
        || answer_begins(
            text,
            PortName::Bus,
            &LineAnswer::Load(LoadAnswer::Busy(object)),
        )
        || answer_begins(
            text,
            PortName::Bus,
            &LineAnswer::Load(LoadAnswer::Spent(object)),
        )
}

/// Whether the answer of a round in loop back mode that stored its frame in an object can begin so.
#[tactic(auto, unfolding(crate::specs::BusForms::looped_form))]
fn looped_into(text: &str, object: ObjectNo, at: ObjectNo) -> bool
    ensures { result ≡ begins text.now (looped_form object at) }
{
    let sent = object_form("bus", " looped", object, "");
    begins(text, object_form("", sent.as_str(), at, RECORD).as_str())
}

/// Whether the answer of a round in loop back mode that stored its frame in one of these objects can begin so.
fn any_looped_into(text: &str, objects: &[ObjectNo], object: ObjectNo) -> bool
    ensures { result ≡ list_any
        (λ at. begins text.now (looped_form object at)) objects.now }
{
    objects.iter().any(|at| looped_into(text, object, *at))
}

/// Whether the answer of a round that sends this object in loop back mode can begin so.
#[tactic(auto, unfolding(crate::specs::BusForms::looped_begins))]
fn looped_begins(text: &str, objects: &[ObjectNo], object: ObjectNo) -> bool
    ensures { result ≡ looped_begins text.now objects.now object }
{
    begins(
        text,
        object_form("bus", " looped", object, " none\n").as_str(),
    ) || any_looped_into(text, objects, object)
}

/// Whether the answer of a round that changes no object can begin so.
#[tactic(auto, unfolding(crate::specs::BusForms::idle_begins))]
fn idle_begins(text: &str) -> bool
    ensures { result ≡ idle_begins text.now }
{
    begins(text, "bus idle\n")
        || begins(text, "bus received none\n")
        || begins(text, "bus passed\n")
        || begins(text, "bus collision\n")
        || begins(text, "bus ack\n")
        || begins(text, "bus fault\n")
}

/// Whether the answer of a round that sends one of these objects, or stores a frame in one, can begin so.
fn any_sent_begins(text: &str, objects: &[ObjectNo]) -> bool
    ensures { result ≡ list_any (sent_begins text.now) objects.now }
{
    objects.iter().any(|object| sent_begins(text, *object))
}

/// Whether the answer of a round that sends one of these objects in loop back mode can begin so.
fn any_looped_begins(text: &str, objects: &[ObjectNo]) -> bool
    ensures { result ≡ list_any (looped_begins text.now objects.now) objects.now }
{
    objects
        .iter()
        .any(|object| looped_begins(text, objects, *object))
}

/// Whether the line of a data frame with a standard identifier and at most four bytes can begin so.
#[tactic(auto, unfolding(crate::specs::BusForms::standard_short_begins))]
fn standard_short_begins(text: &str) -> bool
    ensures { result ≡ standard_short_begins text.now }
{
    begins(text, "can0 ^^^=\n")
        || begins(text, "can0 ^^^=^^\n")
        || begins(text, "can0 ^^^=^^^^\n")
        || begins(text, "can0 ^^^=^^^^^^\n")
        || begins(text, "can0 ^^^=^^^^^^^^\n")
}

/// Whether the line of one with more bytes can begin so.
#[tactic(auto, unfolding(crate::specs::BusForms::standard_long_begins))]
fn standard_long_begins(text: &str) -> bool
    ensures { result ≡ standard_long_begins text.now }
{
    begins(text, "can0 ^^^=^^^^^^^^^^\n")
        || begins(text, "can0 ^^^=^^^^^^^^^^^^\n")
        || begins(text, "can0 ^^^=^^^^^^^^^^^^^^\n")
        || begins(text, "can0 ^^^=^^^^^^^^^^^^^^^^\n")
        || begins(text, "can0 ^^^=^^^^^^^^^^^^^^^^_^\n")
}

/// Whether the line of a data frame with a standard identifier can begin so.
#[tactic(auto, unfolding(crate::specs::BusForms::standard_data_begins))]
fn standard_data_begins(text: &str) -> bool
    ensures { result ≡ standard_data_begins text.now }
{
    standard_short_begins(text) || standard_long_begins(text)
}

/// Whether the line of a data frame with an extended identifier and at most four bytes can begin so.
#[tactic(auto, unfolding(crate::specs::BusForms::extended_short_begins))]
fn extended_short_begins(text: &str) -> bool
    ensures { result ≡ extended_short_begins text.now }
{
    begins(text, "can0 ^^^^^^^^=\n")
        || begins(text, "can0 ^^^^^^^^=^^\n")
        || begins(text, "can0 ^^^^^^^^=^^^^\n")
        || begins(text, "can0 ^^^^^^^^=^^^^^^\n")
        || begins(text, "can0 ^^^^^^^^=^^^^^^^^\n")
}

/// Whether the line of one with more bytes can begin so.
#[tactic(auto, unfolding(crate::specs::BusForms::extended_long_begins))]
fn extended_long_begins(text: &str) -> bool
    ensures { result ≡ extended_long_begins text.now }
{
    begins(text, "can0 ^^^^^^^^=^^^^^^^^^^\n")
        || begins(text, "can0 ^^^^^^^^=^^^^^^^^^^^^\n")
        || begins(text, "can0 ^^^^^^^^=^^^^^^^^^^^^^^\n")
        || begins(text, "can0 ^^^^^^^^=^^^^^^^^^^^^^^^^\n")
        || begins(text, "can0 ^^^^^^^^=^^^^^^^^^^^^^^^^_^\n")
}

/// Whether the line of a data frame with an extended identifier can begin so.
#[tactic(auto, unfolding(crate::specs::BusForms::extended_data_begins))]
fn extended_data_begins(text: &str) -> bool
    ensures { result ≡ extended_data_begins text.now }
{
    extended_short_begins(text) || extended_long_begins(text)
}

/// Whether the line of a remote frame with a standard identifier can begin so.
#[tactic(auto, unfolding(crate::specs::BusForms::standard_remote_begins))]
fn standard_remote_begins(text: &str) -> bool
    ensures { result ≡ standard_remote_begins text.now }
{
    begins(text, "can0 ^^^=R\n") || begins(text, "can0 ^^^=R^\n") || begins(text, "can0 ^^^=R8_^\n")
}

/// Whether the line of a remote frame with an extended identifier can begin so.
#[tactic(auto, unfolding(crate::specs::BusForms::extended_remote_begins))]
fn extended_remote_begins(text: &str) -> bool
    ensures { result ≡ extended_remote_begins text.now }
{
    begins(text, "can0 ^^^^^^^^=R\n")
        || begins(text, "can0 ^^^^^^^^=R^\n")
        || begins(text, "can0 ^^^^^^^^=R8_^\n")
}

/// Whether the line of a frame can begin so.
#[tactic(auto, unfolding(crate::specs::BusForms::frames_begin))]
fn frames_begin(text: &str) -> bool
    ensures { result ≡ frames_begin text.now }
{
    standard_data_begins(text)
        || extended_data_begins(text)
        || standard_remote_begins(text)
        || extended_remote_begins(text)
}

/// Whether the answer of a round can begin so, or the frame that won the bus in it.
#[tactic(auto, unfolding(crate::specs::BusForms::rounds_begin))]
fn rounds_begin(text: &str, objects: &[ObjectNo]) -> bool
    ensures { result ≡ rounds_begin text.now objects.now }
{
    idle_begins(text)
        || any_sent_begins(text, objects)
        || any_looped_begins(text, objects)
        || frames_begin(text)
}

/// Whether the controller's state after recessive bits can begin so.
#[tactic(auto, unfolding(crate::specs::BusForms::recessive_begins))]
fn recessive_begins(text: &str) -> bool
    ensures { result ≡ recessive_begins text.now }
{
    begins(text, "bus recessive active\n")
        || begins(text, "bus recessive passive\n")
        || begins(text, "bus recessive off\n")
}

/// Whether the answer to a line at the controller can begin so.
fn controller_begins(text: &str, line: &ControllerLine) -> bool
    ensures { result ≡ controller_begins text.now line.now }
{
    match line {
        ControllerLine::Status => begins(text, "bus status ####\n"),
        ControllerLine::Control { sie, eie } => {
            answer_begins(text, PortName::Bus, &LineAnswer::Control(*sie, *eie))
        }
        ControllerLine::Counters(_) => begins(text, "bus counters ~~~~~~~~~~~~~~~~~~~~~~~~"),
        ControllerLine::Init => begins(text, "bus init\n"),
        ControllerLine::Recessive(_) => recessive_begins(text),
        ControllerLine::LoopBack(on) => {
            answer_begins(text, PortName::Bus, &LineAnswer::LoopBack(*on))
        }
    }
}

/// Whether the answer to a line of the bus can begin so, if the transfers name these objects.
pub(crate) fn bus_begins(text: &str, profile: Profile, objects: &[ObjectNo], line: &BusLine) -> bool
    ensures { result ≡ bus_begins text.now profile objects.now line.now }
{
    match line {
        BusLine::Load => loads_begin(text, objects),
        BusLine::Round(_) => rounds_begin(text, objects),
        BusLine::Interrupt => interrupt_begins(text, PortName::Bus),
        BusLine::Flags(flag) => flags_begin(text, PortName::Bus, profile, *flag),
        BusLine::Controller(line) => controller_begins(text, line),
    }
}
