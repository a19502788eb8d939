use crate::settings::Settings;
use ccan_chip::Map;
use ccan_registers::InterfaceSet;

/// What each handle of a chip begins with.
#[derive(Clone, Copy, Debug)]
pub(crate) struct Begin {
    pub settings: Settings,
    pub map: Map,
    pub own: InterfaceSet,
}
