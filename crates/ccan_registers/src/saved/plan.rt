//! The changes by which a controller after its reset comes to where another one was.
ghost use Rattle.std.specs.Prelude.{◌≡◌, All};
ghost use Rattle.ccan_ram.specs.declared.port.PortName.TheVariants.{Bus};
ghost use Rattle.ccan_endless.specs.Chip.{MayMake};

use ccan_confine::{
    BusEvent, ControlRegister, Controller, ControllerChange, Counters, NodeState, StatusEvent,
};

/// A change, and how often it is made.
#[derive(Clone, Copy, Debug)]
pub(crate) struct Step {
    pub(crate) change: ControllerChange,
    pub(crate) times: u16,
}

/// From this count of either counter on, EWarn is 1.
const WARNING: u8 = 96;
/// What an error in an own frame adds to TEC.
const SEND_FAULT_STEP: u16 = 8;

/// A change of the error counters alone: LEC stays, and no transfer is reported.
fn quiet(event: BusEvent) -> ControllerChange
    ensures { MayMake Bus result }
{
    ControllerChange::Frame(event, StatusEvent::Level)
}

/// A change that raises the status interrupt of transfers and errors.
fn told(event: BusEvent) -> ControllerChange
    ensures { MayMake Bus result }
{
    let noted = match event {
        BusEvent::Sent => StatusEvent::Sent,
        BusEvent::Received => StatusEvent::Received,
        BusEvent::SendFault | BusEvent::SendNoAck | BusEvent::ReceiveFault => StatusEvent::Fault(3),
    };
    ControllerChange::Frame(event, noted)
}

/// The event that may come last on the way to these counters, with no change of BOff or EWarn: it leaves the counters of a node
/// that is passive or off as they are, and a REC of 0 too.
fn last_event(counters: Counters) -> BusEvent {
    if counters.state() != NodeState::Active {
        BusEvent::SendNoAck
    } else if counters.rec() == 0 {
        BusEvent::Received
    } else if counters.rec() < WARNING {
        BusEvent::ReceiveFault
    } else {
        BusEvent::Sent
    }
}

/// TEC and REC from which this event leads to these counters.
fn before(event: BusEvent, counters: Counters) -> (u16, u8) {
    let (tec, rec) = (counters.tec(), counters.rec());
    match event {
        BusEvent::Sent if tec > 0 => (tec.saturating_add(1), rec),
        BusEvent::ReceiveFault => (tec, rec.saturating_sub(1)),
        BusEvent::Sent | BusEvent::Received | BusEvent::SendFault | BusEvent::SendNoAck => (
            tec, rec,
        ),
    }
}

/// The groups of recessive bits that count so far.
fn groups_of(controller: &Controller) -> u16 {
    (controller.pack() / (1 << 17) % 128) as u16
}

/// The changes, one after another, from a controller after its reset.
pub(crate) fn plan(controller: &Controller) -> [Step; 17]
    ensures { All (λ step. MayMake Bus step.change) result }
{
    let last = last_event(controller.counters);
    let (tec, rec) = if controller.transfer_pending {
        before(last, controller.counters)
    } else {
        (controller.counters.tec(), controller.counters.rec())
    };
    // The last two faults of own frames go up to TEC, so that no count before them is 256.
    let faults: u16 = if tec >= 2 * SEND_FAULT_STEP { 2 } else { 0 };
    let low = tec.saturating_sub(faults * SEND_FAULT_STEP);
    let crosses = u16::from(controller.level_pending);
    let recovers = u16::from(controller.counters.recovering());
    let open = ControlRegister {
        init: true,
        cce: true,
        test: true,
        ..ControlRegister::default()
    };
    [
        // what a host configures
        once(ControllerChange::WriteControl(open)),
        once(ControllerChange::WriteBitTiming(controller.timing.register())),
        once(ControllerChange::WriteExtension(controller.timing.extension())),
        once(ControllerChange::WriteTest(controller.test)),
        // up to the warning limit and back, if a change of EWarn is pending
        times(12 * crosses, quiet(BusEvent::SendFault)),
        times(96 * crosses, quiet(BusEvent::Sent)),
        // the counters
        times(u16::from(rec), quiet(BusEvent::ReceiveFault)),
        times(low.div_ceil(SEND_FAULT_STEP), quiet(BusEvent::SendFault)),
        times((8 - low % 8) % 8, quiet(BusEvent::Sent)),
        times(faults, quiet(BusEvent::SendFault)),
        // what is pending
        times(1 - crosses, ControllerChange::ReadStatus),
        times(u16::from(controller.transfer_pending), told(last)),
        // the way back from bus off
        times(
            recovers,
            ControllerChange::WriteControl(ControlRegister::default()),
        ),
        times(recovers, ControllerChange::Recessive(groups_of(controller))),
        // what a host can write at any time
        once(ControllerChange::WriteStatus(controller.status)),
        once(ControllerChange::WriteControl(controller.control)),
        // a chip after its reset has left the bus
        times(u16::from(!controller.has_left), ControllerChange::Join),
    ]
}

fn once(change: ControllerChange) -> Step
    ensures { result.change ≡ change }
{
    Step { change, times: 1 }
}

fn times(times: u16, change: ControllerChange) -> Step
    ensures { result.change ≡ change }
{
    Step { change, times }
}
