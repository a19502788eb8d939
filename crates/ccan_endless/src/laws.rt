//! Laws of the history of a whole chip, the message RAM's events and the controller's together. The functions do nothing:
//! their contracts are the laws.

ghost use Rattle.ccan_endless.specs.ChipLaws.{ControllerIsItsChanges, CountersAreAsDefined, LevelsAreTheHandlers};

/// The controller that a legal history leaves is what the changes in it make of a new one: looks and the message RAM's
/// events change nothing of it.
pub fn controller_is_its_changes()
    ensures { ControllerIsItsChanges }
{}

/// Its error counters are those that fault confinement defines for what the changes mean to them.
pub fn counters_are_as_defined()
    ensures { CountersAreAsDefined }
{}

/// TEC and REC stay the same between two places of a legal history, if there is no step of the bus at the controller and no reset
/// of a D_CAN between them.
pub fn levels_are_the_handlers()
    ensures { LevelsAreTheHandlers }
{}
