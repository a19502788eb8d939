ghost use Rattle.std.specs.Prelude.{◌≡◌};
ghost use Rattle.ccan_object.specs.Interface.{Registers};
ghost use Rattle.ccan_ram.specs.Access.{Goes};
ghost use Rattle.ccan_line.specs.HostLine.{HostFits};
ghost use Rattle.ccan_line.specs.Host.{HostLineMeans};
ghost use Rattle.ccan_line.specs.Side.{GoesOn};

use crate::driver::drive;
use crate::host_line::HostLine;
use crate::line_answer::LineAnswer;
use crate::side::Side;
use ccan_handler::{flags, interrupt, until};
use ccan_object::Iface;
use ccan_ram::{Access, Tries};

/// Runs one line of a host port: a transfer act by act, and a line that asks by one call of the memory handler, whose loop
/// makes the same looks in fewer instructions.
fn run_host_line<A: Access>(
    registers: &mut Iface,
    access: &mut A,
    line: &HostLine,
    tries: Tries,
) -> LineAnswer
    requires { HostFits (A.passes access.old).terms.profile line.now }
    ensures { Goes (A.passes access.old) (A.passes access.new) (λ terms seen added.
        HostLineMeans terms tries line.now registers.old seen added result registers.new) }
{
    match line {
        HostLine::Transfer { .. } => drive(registers, access, line, tries),
        HostLine::Until {
            object,
            flag,
            turns,
        } => {
            let shown = until(access, *object, *flag, *turns);
            LineAnswer::Until(*object, *flag, shown)
        }
        HostLine::Interrupt => LineAnswer::Interrupt(interrupt(access, false)),
        HostLine::Flags(flag) => {
            let word = flags(access, *flag);
            LineAnswer::Flags(*flag, word, access.profile())
        }
    }
}

impl Side for Iface {
    type Line = HostLine;

    ghost State = { Registers };

    ghost led_to = { λ state registers. state ≡ registers };

    ghost means = { HostLineMeans };

    ghost takes = { λ profile _ line. HostFits profile line };

    fn run_line<A: Access>(&mut self, access: &mut A, line: &HostLine, tries: Tries) -> LineAnswer {
        run_host_line(self, access, line, tries)
    }
}
