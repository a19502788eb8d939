//! What the steps of a seat show, only for the proofs. No value of these types is made.
use crate::layout::Layout;
use crate::version::Version;
use crate::view::View;
use atomic_table::{Join, Play, Split};
use ccan_object::Profile;
use ccan_ram::PortName;
use std::marker::{Brand, PhantomData};

/// What a step is made for. A call at `Brand` picks it.
pub trait Deed {
    ghost use Rattle.std.specs.Prelude.{ℕ};
    ghost use Rattle.ccan_object.specs.declared.profile.Profile.{Profile};
    ghost use Rattle.ccan_ram.specs.declared.port.PortName.{PortName};
    ghost use Rattle.ccan_words.specs.declared.version.Version.{Version};

    ghost profile: { Profile };

    ghost port: { PortName };

    ghost object: { ℕ };

    ghost word: { ℕ };

    ghost version: { Version };
}

impl Deed for Brand {
    ghost use Rattle.ccan_object.specs.declared.profile.Profile.TheVariants.{One};
    ghost use Rattle.ccan_ram.specs.declared.port.PortName.TheVariants.{If1};
    ghost use Rattle.ccan_words.specs.Plays.{no_version};

    ghost profile = { One };

    ghost port = { If1 };

    ghost object = { 0 };

    ghost word = { 0 };

    ghost version = { no_version };
}

/// A load of an object's word, as a look of the port.
pub struct Looking<L, D> {
    marker: PhantomData<(L, D)>,
}

impl<L: Layout, D: Deed> Play<(), View> for Looking<L, D> {
    ghost use Rattle.ccan_words.specs.Plays.{Looks};

    ghost then = { λ s m found n. Looks (L.form D.profile) D.port D.object m found n };
}

/// A load of an object's word, without an event.
pub struct Watching<L, D> {
    marker: PhantomData<(L, D)>,
}

impl<L: Layout, D: Deed> Play<(), View> for Watching<L, D> {
    ghost use Rattle.ccan_words.specs.Plays.{Watches};

    ghost then = { λ s m found n. Watches (L.form D.profile) m n };
}

/// A load of an object's word, whose number is kept, without an event.
pub struct Counting<L, D> {
    marker: PhantomData<(L, D)>,
}

impl<L: Layout, D: Deed> Play<(), View> for Counting<L, D> {
    ghost use Rattle.ccan_words.specs.Picture.{CountsOn};

    ghost then = { λ s m found n. CountsOn (L.form D.profile) D.object m found n };
}

/// A load as looks of the port at all objects.
pub struct Posing<L, D> {
    marker: PhantomData<(L, D)>,
}

impl<L: Layout, D: Deed> Play<(), View> for Posing<L, D> {
    ghost use Rattle.ccan_words.specs.Picture.{Poses};

    ghost then = { λ s m found n. Poses (L.form D.profile) D.port m n };
}

/// A load of a word of a published version.
pub struct Reading<L, D> {
    marker: PhantomData<(L, D)>,
}

impl<L: Layout, D: Deed> Play<(), View> for Reading<L, D> {
    ghost use Rattle.ccan_words.specs.Plays.{Reads};

    ghost then = { λ s m found n. Reads (L.form D.profile) s.word m found n };
}

/// A store into the port's next version.
pub struct Noting<D> {
    marker: PhantomData<D>,
}

impl<D: Deed> Play<(), View> for Noting<D> {
    ghost use Rattle.ccan_words.specs.Plays.{Notes};

    ghost then = { λ s m found n. Notes D.port D.word s.first m n };
}

/// An exchange of an object's word.
pub struct Exchanging<L, D> {
    marker: PhantomData<(L, D)>,
}

impl<L: Layout, D: Deed> Play<(), View> for Exchanging<L, D> {
    ghost use Rattle.ccan_words.specs.Plays.{Exchanges};

    ghost then = { λ s m found n. Exchanges (L.form D.profile) D.version m found n };
}

/// A port leaves a seat for one of its own.
pub struct Parting<D> {
    marker: PhantomData<D>,
}

impl<D: Deed> Split<View> for Parting<D> {
    ghost use Rattle.std.specs.Prelude.{None};
    ghost use Rattle.ccan_ram.specs.ByPort.{holding, only, with_held};

    ghost left = { λ v. with_held D.port None v };

    ghost right = { λ v. only D.port (holding D.port v) };
}

/// A seat takes the ports of another.
pub struct Joining;

impl Join<View> for Joining {
    ghost use Rattle.ccan_ram.specs.ByPort.{nothing, together};

    ghost both = { together };

    ghost spent = { nothing };
}
