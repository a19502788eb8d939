use ccan_object::Profile;

/// What the ranges of a script's lines depend on.
#[derive(Clone, Copy, PartialEq, Eq, Hash, Debug)]
pub struct LineContext {
    pub profile: Profile,
    /// How many nodes the bus has besides the controller.
    pub nodes: u8,
}
