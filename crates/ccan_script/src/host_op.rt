ghost use Rattle.std.specs.Prelude.{◌≡◌, Some};
ghost use Rattle.serde_json.specs.View.{view};
ghost use Rattle.ccan_script.specs.HostOp.{host_op, host_op_name, host_op_named};

use serde_json::Value;

/// What a line of a host port does.
#[derive(Clone, Copy, PartialEq, Eq, PartialOrd, Ord, Hash, Debug)]
pub enum HostOp {
    Transfer,
    Until,
    Interrupt,
    Flags,
}

impl HostOp {
    /// All operations, in the order in which a remark names them.
    pub const ALL: [HostOp; 4] = [
        HostOp::Transfer,
        HostOp::Until,
        HostOp::Interrupt,
        HostOp::Flags,
    ];

    /// The name of the operation, as a script has it. No other operation has it, and the reader finds this one by it.
    #[tactic(auto, unfolding(crate::specs::HostOp::host_op_named))]
    pub fn name(self) -> &'static str
        ensures is { result.now ≡ host_op_name self }
        ensures found { host_op_named (host_op_name self) ≡ Some self }
    {
        match self {
            HostOp::Transfer => "transfer",
            HostOp::Until => "until",
            HostOp::Interrupt => "interrupt",
            HostOp::Flags => "flags",
        }
    }
}

/// The operation of this name.
#[tactic(auto, unfolding(crate::specs::HostOp::host_op_named))]
fn host_op_named(word: &str) -> Option<HostOp>
    ensures { result ≡ host_op_named word.now }
{
    HostOp::ALL.iter().copied().find(|op| op.name() == word)
}

/// What the member `op` of a line names, `None` if it names nothing that a host port does.
#[tactic(auto, unfolding(crate::specs::HostOp::host_op))]
pub fn host_op(line: &Value) -> Option<HostOp>
    ensures { result ≡ host_op (view line.now) }
{
    host_op_named(line.get("op")?.as_str()?)
}
