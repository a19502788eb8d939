ghost use Rattle.std.specs.Prelude.{◌≡◌, ◌+◌, ◌<◌, ◌∷◌, All, length, drop};
ghost use Rattle.ccan_object.specs.declared.profile.Profile.{Profile};
ghost use Rattle.ccan_ram.specs.Access.{Goes};
ghost use Rattle.ccan_ram.specs.SharedRam.{IsSamePort, passes_of};
ghost use Rattle.ccan_line.specs.Side.{GoesOn};

use ccan_line::{LineAnswer, Side};
use ccan_ram::{Access, On, SharedRam, Tries};

/// What the lines of one port work on, and how many of them have run.
#[derive(Drop)]
pub(crate) struct Lane<S> {
    pub(crate) side: S,
    pub(crate) next: usize,
}

impl<S: Side> Lane<S> {
    /// Runs the next of these lines over a memory that others use too.
    pub(crate) fn run_next<R: SharedRam>(
        &mut self,
        ram: &R,
        port: R::Port,
        lines: &[S::Line],
        tries: Tries,
    ) -> (LineAnswer, R::Port)
        requires memory { (R.pass port).memory ≡ R.memory ram.now }
        requires left { self.old.next < length lines.now }
        requires taken { All (S.takes (R.memory ram.now).profile self.old.side) lines.now }
        ensures next { self.new.next ≡ self.old.next + 1 }
        ensures takes { (profile : Profile) (other : S.Line)
            → S.takes profile self.old.side other → S.takes profile self.new.side other }
        ensures same { IsSamePort (R.pass port) (R.pass result.1) }
        ensures runs { let passes = passes_of R.contends in (line : S.Line)
            × (drop self.old.next lines.now ≡ line ∷ drop self.new.next lines.now)
            × Goes (passes (R.pass port)) (passes (R.pass result.1)) (λ terms seen added.
            GoesOn S.led_to self.old.side self.new.side (λ state left.
            S.means terms tries line state seen added result.0 left)) }
    {
        let mut access = On::new(ram, port);
        let answer = self.side.run_line(&mut access, &lines[self.next], tries);
        self.next += 1;
        (answer, access.into_port())
    }
}
