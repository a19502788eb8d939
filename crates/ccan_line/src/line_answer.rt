use ccan_bus::{LoadAnswer, RoundAnswer};
use ccan_confine::NodeState;
use ccan_object::{ObjectNo, Profile, Record};
use ccan_ram::Flag;

/// The answer to a line of a script.
///
/// A hash leaves out which flag a line asked for: answers to one line of a script never differ in it.
#[derive(Clone, Copy, PartialEq, Eq, Debug)]
#[derive_where(Hash)]
pub enum LineAnswer {
    /// A write ended, and left this record in the interface buffer.
    Write(ObjectNo, Record),
    /// A read ended, and left this record in the interface buffer.
    Read(ObjectNo, Record),
    /// Each try of the transfer was lost to a change of another port.
    Busy(ObjectNo),
    /// The port has made as many changes as it may.
    Spent(ObjectNo),
    /// Whether one of the looks at the object showed the flag.
    Until(ObjectNo, #[derive_where(skip(Hash))] Flag, bool),
    /// The interrupt value: 0x8000 the status interrupt, else the number of an object, or 0.
    Interrupt(u16),
    /// The flag of all objects of the profile, that of object k in bit k - 1.
    Flags(#[derive_where(skip(Hash))] Flag, u64, Profile),
    /// What came of a load.
    Load(LoadAnswer),
    /// What came of a round.
    Round(RoundAnswer),
    /// The Status register as it was read.
    Status(u16),
    /// SIE and EIE as they were set.
    Control(bool, bool),
    /// The error counters of a node, node 0 being the controller, and its state.
    Counters {
        node: u8,
        tec: u16,
        rec: u16,
        state: NodeState,
    },
    /// Init was cleared.
    Init,
    /// The controller's state after groups of recessive bits.
    Recessive(NodeState),
    /// Loop back mode as it was set.
    LoopBack(bool),
}
