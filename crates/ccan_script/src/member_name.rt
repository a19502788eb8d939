ghost use Rattle.std.specs.Prelude.{◌≡◌};
ghost use Rattle.ccan_script.specs.MemberName.{name_text};

/// The name of a member of a line, or of a frame.
#[derive(Clone, Copy, PartialEq, Eq, PartialOrd, Ord, Hash, Debug)]
pub enum MemberName {
    Op,
    Request,
    Set,
    Object,
    Flag,
    Turns,
    Send,
    Fault,
    Sie,
    Eie,
    Node,
    Groups,
    On,
    Id,
    Xtd,
    Rtr,
    Dlc,
    Data,
}

impl MemberName {
    /// The name as a script has it.
    pub fn text(self) -> &'static str
        ensures { result.now ≡ name_text self }
    {
        match self {
            MemberName::Op => "op",
            MemberName::Request => "request",
            MemberName::Set => "set",
            MemberName::Object => "object",
            MemberName::Flag => "flag",
            MemberName::Turns => "turns",
            MemberName::Send => "send",
            MemberName::Fault => "fault",
            MemberName::Sie => "sie",
            MemberName::Eie => "eie",
            MemberName::Node => "node",
            MemberName::Groups => "groups",
            MemberName::On => "on",
            MemberName::Id => "id",
            MemberName::Xtd => "xtd",
            MemberName::Rtr => "rtr",
            MemberName::Dlc => "dlc",
            MemberName::Data => "data",
        }
    }
}
