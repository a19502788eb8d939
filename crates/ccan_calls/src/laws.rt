//! Calls are their processes. The functions do nothing: their contracts are the laws.
ghost use Rattle.ccan_bus.specs.Past.{BusPast};
ghost use Rattle.ccan_registers.specs.declared.interface_set.InterfaceSet.{InterfaceSet};
ghost use Rattle.ccan_c.specs.FrameCall.{BusState};
ghost use Rattle.ccan_calls.specs.Answer.{CallEnd};
ghost use Rattle.ccan_calls.specs.InTheList.{ThreadsStandInTheList};
ghost use Rattle.ccan_calls.specs.Laws.{ActsHaveTheirSteps, BusCallsAreProcesses, FrameCallsAreProcesses};
ghost use Rattle.ccan_calls.specs.Laws.{BusThreadsAreProcesses, BusThreadsStand, HostCallsAreProcesses};
ghost use Rattle.ccan_calls.specs.Laws.{HostThreadsAreProcesses, HostThreadsStand};
ghost use Rattle.ccan_calls.specs.Laws.{OffersAreOneLine, ResetsAreProcesses, SavesAreProcesses};
ghost use Rattle.ccan_calls.specs.Laws.{StandsThroughout, StepsAreTheWhole};
ghost use Rattle.ccan_calls.specs.Refusals.{BusCallsReportRefusals, HostCallsReportRefusals};
ghost use Rattle.ccan_calls.specs.ThreadProcess.{ThreadEnd};

use ccan_device::{ChipAnswer, ChipDevice};
use ccan_every::Device;

/// A call on the handle of a host is its process.
pub fn host_calls_are_processes()
    ensures { HostCallsAreProcesses }
{}

/// A call on the bus's handle is its process.
pub fn bus_calls_are_processes()
    ensures { BusCallsAreProcesses }
{}

/// A call by which a chip takes part in a frame on a bus of several, or powers down in between, is its process.
pub fn frame_calls_are_processes()
    ensures { FrameCallsAreProcesses }
{}

/// What the bus's port does when a chip is reset or saved, between meetings of its ports, is a process.
pub fn resets_and_saves_are_processes()
    ensures resets { ResetsAreProcesses }
    ensures saves { SavesAreProcesses }
{}

/// The calls of a thread on a handle, one after another, are one process.
pub fn threads_are_processes()
    ensures host { HostThreadsAreProcesses }
    ensures bus { BusThreadsAreProcesses }
{}

/// Among other ports, a port comes step by step to the end of a call, or of a thread's calls, exactly as their process runs as a
/// whole.
pub fn steps_are_the_whole()
    ensures host { StepsAreTheWhole (CallEnd InterfaceSet) }
    ensures bus { StepsAreTheWhole (CallEnd BusPast) }
    ensures frame { StepsAreTheWhole (CallEnd BusState) }
    ensures host_thread { StepsAreTheWhole (ThreadEnd InterfaceSet) }
    ensures bus_thread { StepsAreTheWhole (ThreadEnd BusState) }
{}

/// At each moment of these the port stands somewhere in the process.
pub fn ports_stand_throughout()
    ensures host { StandsThroughout (CallEnd InterfaceSet) }
    ensures bus { StandsThroughout (CallEnd BusPast) }
    ensures frame { StandsThroughout (CallEnd BusState) }
    ensures host_thread { StandsThroughout (ThreadEnd InterfaceSet) }
    ensures bus_thread { StandsThroughout (ThreadEnd BusState) }
{}

/// In a history that holds all that the calls of a thread did, the port stands somewhere in their process at each moment.
pub fn threads_stand_throughout()
    ensures host { HostThreadsStand }
    ensures bus { BusThreadsStand }
{}

/// What other nodes offer for a round is exactly one line.
pub fn offers_are_one_line()
    ensures { OffersAreOneLine }
{}

/// What a port itself does in an act is what the outcome of the act says.
pub fn acts_have_their_steps()
    ensures { ActsHaveTheirSteps }
{}

/// Whatever three threads do with a chip from its opening, by `ccan_open` or `ccan_open_reset`, to a `ccan_end` that answers 0,
/// each on a handle of its own, with `ccan_meet` in between and without: the calls of each are one process, which asks a chip of
/// one thread for steps. Whatever tables the threads go by, where they have come to stands in the list of all schedules of these
/// tables on that device, with the records that C gets. A device that refuses no change has them all, except a join, if no call
/// answered `CCAN_BUSY` or `CCAN_SPENT`.
pub fn threads_stand_in_the_list(_device: &ChipDevice)
    ensures { ThreadsStandInTheList _device.now.refuses
        (⟦<ChipDevice as Device>⟧.acts _device.now) ⟦<ChipAnswer as PartialEq>⟧.eq }
{
    ccan_c::laws::calls_fit_one_history();
}

/// C sees codes only. If no call of a thread answered CCAN_BUSY or CCAN_SPENT, the chip refused the thread no step, except that the
/// bus's port may have failed to join a controller, which no code reports.
pub fn calls_report_refusals()
    ensures host { HostCallsReportRefusals }
    ensures bus { BusCallsReportRefusals }
{}
