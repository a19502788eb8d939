ghost use Rattle.std.specs.Prelude.{◌≡◌, ◌<◌, ◌^◌, ◌↔◌, ◌&&◌, IsTrue};
ghost use Rattle.ccan_accept.specs.Accept.{Accepts, HasPlaces, accepts, agrees_in_kind, agrees_in_places, agrees_in_width, has_place, is_compared, is_locked, is_masked};

use crate::frame::Frame;
use ccan_object::Record;

/// ID28 to ID0, the places of an extended identifier.
const EXTENDED_PLACES: u32 = (1 << 29) - 1;

/// ID28 to ID18, the places of a standard identifier.
const STANDARD_PLACES: u32 = (1 << 29) - (1 << 18);

/// The places that an object's mask compares, as a mask: all of them if it isn't used.
fn masked_places(object: &Record) -> u32
    ensures places { HasPlaces (is_masked object.now) result }
    ensures within { result < 2 ^ 29 }
{
    if object.umask {
        object.mask.get()
    } else {
        EXTENDED_PLACES
    }
}

/// The places that an identifier has, as a mask.
fn places_of(xtd: bool) -> u32
    ensures places { HasPlaces (has_place xtd) result }
    ensures within { result < 2 ^ 29 }
{
    if xtd {
        EXTENDED_PLACES
    } else {
        STANDARD_PLACES
    }
}

/// Whether both identifiers are extended ones. It is a function of its own, so that the proof of the places sees one flag.
fn both_extended(object: &Record, frame: &Frame) -> bool
    ensures { result ≡ (object.now.xtd && frame.now.xtd) }
{
    object.xtd && frame.xtd()
}

/// The places of the identifier that are compared, as a mask.
fn compared_places(object: &Record, frame: &Frame) -> u32
    ensures places { HasPlaces (is_compared object.now frame.now) result }
    ensures within { result < 2 ^ 29 }
{
    masked_places(object) & places_of(both_extended(object, frame))
}

/// Whether the identifiers agree at each place that is compared.
fn agrees_in_places(object: &Record, frame: &Frame) -> bool
    ensures { result ≡ agrees_in_places object.now frame.now }
{
    let differing = object.id.get() ^ frame.identifier().get();
    differing & compared_places(object, frame) == 0
}

/// Whether Xtd agrees, if it is compared.
fn agrees_in_width(object: &Record, frame: &Frame) -> bool
    ensures { result ≡ agrees_in_width object.now frame.now }
{
    (object.umask && !object.mxtd) || object.xtd == frame.xtd()
}

/// Whether Dir agrees, if it is compared: a receiving object takes data frames, a transmitting one remote frames.
fn agrees_in_kind(object: &Record, frame: &Frame) -> bool
    ensures { result ≡ agrees_in_kind object.now frame.now }
{
    (object.umask && !object.mdir) || object.dir == frame.rtr()
}

/// Whether an object holds new data, whose NewDat was not cleared yet, and its FIFO buffer goes on after it.
fn is_locked(object: &Record) -> bool
    ensures { result ≡ is_locked object.now }
{
    !object.eob && object.newdat
}

/// Whether a message object accepts a frame (User's Manual, section 4.2).
///
/// `test` says the same with true or false, and definitions over whole histories compute with it.
#[tactic(auto, unfolding(crate::specs::Accept::accepts))]
pub fn accepts(object: &Record, frame: &Frame) -> bool
    ensures test { result ≡ accepts object.now frame.now }
    ensures places { IsTrue result ↔ Accepts object.now frame.now }
{
    object.valid
        && !is_locked(object)
        && agrees_in_width(object, frame)
        && agrees_in_kind(object, frame)
        && agrees_in_places(object, frame)
}
