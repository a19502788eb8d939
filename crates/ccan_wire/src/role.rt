ghost use Rattle.std.specs.Prelude.{◌≡◌};
ghost use Rattle.ccan_wire.specs.Role.{drives, hears, in_mode, is_active, looped, role_of, role_of_state};

use ccan_confine::{Controller, Counters, NodeState};

/// What a member does on a bus (C_CAN User's Manual 1.2, "CAN Control Register", "Test Register", "Silent Mode", "Loop Back
/// Mode"; CAN Specification 2.0, "Fault Confinement").
#[derive(Clone, Copy, Debug, PartialEq, Eq, Hash)]
pub enum Role {
    /// It takes no part: Init is 1, or it is bus off.
    Absent,
    /// It hears, and sends recessive bits only: no frame, no acknowledgement, no error flag (Silent).
    Silent,
    /// It hears itself and nobody else, and nobody else sees its bits (LBack and Silent: hot self test).
    Alone,
    /// It takes part and is error passive: its error flags are of recessive bits.
    Passive,
    /// It takes part and is error active: its error flags are of dominant bits.
    Active,
    /// It hears itself and nobody else, and sends its frames onto the bus (LBack without Silent). It never stops: it acknowledges
    /// nothing, finds no error, and needs no acknowledgement.
    Looped,
}

/// The role of a controller in loop back mode.
fn looped(controller: &Controller) -> Role
    ensures { result ≡ looped controller.now }
{
    if controller.test.silent {
        Role::Alone
    } else {
        Role::Looped
    }
}

/// The role of a controller in a mode of its Test register, which counts only while Test of the Control register is 1.
fn in_mode(controller: &Controller, role: Role) -> Role
    ensures { result ≡ in_mode controller.now role }
{
    if controller.control.test && controller.test.lback {
        looped(controller)
    } else if controller.control.test && controller.test.silent {
        Role::Silent
    } else {
        role
    }
}

impl Role {
    /// The role of a controller, by its registers.
    pub fn of_controller(controller: &Controller) -> Role
        ensures { result ≡ role_of controller.now }
    {
        if controller.control.init {
            return Role::Absent;
        }
        match controller.counters.state() {
            NodeState::Active => in_mode(controller, Role::Active),
            NodeState::Passive => in_mode(controller, Role::Passive),
            NodeState::Off => Role::Absent,
        }
    }

    /// The role of a node that has error counters and no other registers.
    pub fn of_state(state: NodeState) -> Role
        ensures { result ≡ role_of_state state }
    {
        match state {
            NodeState::Active => Role::Active,
            NodeState::Passive => Role::Passive,
            NodeState::Off => Role::Absent,
        }
    }

    /// Whether it hears what others send.
    pub fn hears(self) -> bool
        ensures { result ≡ hears self }
    {
        match self {
            Role::Absent | Role::Alone | Role::Looped => false,
            Role::Silent | Role::Passive | Role::Active => true,
        }
    }

    /// Whether it sends frames onto the bus. One that also hears the bus sends acknowledgements.
    pub fn drives(self) -> bool
        ensures { result ≡ drives self }
    {
        match self {
            Role::Absent | Role::Silent | Role::Alone => false,
            Role::Passive | Role::Active | Role::Looped => true,
        }
    }

    /// Whether its error flags are of dominant bits, which all others see.
    pub fn is_active(self) -> bool
        ensures { result ≡ is_active self }
    {
        matches!(self, Role::Active)
    }
}
