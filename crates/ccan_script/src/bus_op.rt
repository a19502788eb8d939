ghost use Rattle.std.specs.Prelude.{◌≡◌, Some};
ghost use Rattle.serde_json.specs.View.{view};
ghost use Rattle.ccan_script.specs.BusOp.{bus_op, bus_op_name, bus_op_named};

use serde_json::Value;

/// What a line of the bus does.
#[derive(Clone, Copy, PartialEq, Eq, PartialOrd, Ord, Hash, Debug)]
pub enum BusOp {
    Load,
    Round,
    Status,
    Control,
    Interrupt,
    Flags,
    Counters,
    Init,
    Recessive,
    LoopBack,
}

impl BusOp {
    /// All operations, in the order in which a remark names them.
    pub const ALL: [BusOp; 10] = [
        BusOp::Load,
        BusOp::Round,
        BusOp::Status,
        BusOp::Control,
        BusOp::Interrupt,
        BusOp::Flags,
        BusOp::Counters,
        BusOp::Init,
        BusOp::Recessive,
        BusOp::LoopBack,
    ];

    /// The name of the operation, as a script has it. No other operation has it, and the reader finds this one by it.
    #[tactic(auto, unfolding(crate::specs::BusOp::bus_op_named))]
    pub fn name(self) -> &'static str
        ensures is { result.now ≡ bus_op_name self }
        ensures found { bus_op_named (bus_op_name self) ≡ Some self }
    {
        match self {
            BusOp::Load => "load",
            BusOp::Round => "round",
            BusOp::Status => "status",
            BusOp::Control => "control",
            BusOp::Interrupt => "interrupt",
            BusOp::Flags => "flags",
            BusOp::Counters => "counters",
            BusOp::Init => "init",
            BusOp::Recessive => "recessive",
            BusOp::LoopBack => "loopback",
        }
    }
}

/// The operation of this name.
#[tactic(auto, unfolding(crate::specs::BusOp::bus_op_named))]
fn bus_op_named(word: &str) -> Option<BusOp>
    ensures { result ≡ bus_op_named word.now }
{
    BusOp::ALL.iter().copied().find(|op| op.name() == word)
}

/// What the member `op` of a line names, `None` if it names nothing that the bus does.
#[tactic(auto, unfolding(crate::specs::BusOp::bus_op))]
pub fn bus_op(line: &Value) -> Option<BusOp>
    ensures { result ≡ bus_op (view line.now) }
{
    bus_op_named(line.get("op")?.as_str()?)
}
